//! Renewals of a book: the next generation begins with the state, of whose outputs all lines are sealed. Crashes and failures of the
//! disk in each call of a renewal.
ghost use Rattle.std.specs.Prelude.{◌≡◌, length};

use crate::fixtures::{NOW, check_flush, check_waiting, start_all};
use crate::same::{holds_in, same, same_in};
use crate::sealed::make_file;
use base_types::Blob;
use edge_memory::MemDisk;
use edge_traits::Disk;
use journal_book::{Book, RenewFault};
use std::alloc::Global;
use std::process::Abort;
use std::test::Fail;
use step_code::{Base, Output, Rules, encode_base, encode_step};
use tests_book_fixtures::{
    Answer, CHOICES, GENERATION, OUT, ROOT, complete, copy_of, crashed, created, fail_at, front,
    opened, put_file, row_text, start,
};
use tests_rules::TinyRules;
use tests_tables::{read_state, read_step, text_of};

fn unrenewed(fault: RenewFault) -> Answer {
    match fault {
        RenewFault::Broken => Answer::Broken,
        RenewFault::Full { bytes } => Answer::Full(bytes),
        RenewFault::Disk => Answer::Disk,
        _ => Answer::Other,
    }
}

// Begins the next generation, where all steps are durable. They are so behind it.
fn renew<D: Disk, R: Rules>(book: &mut Book<D, R>) -> Answer
    requires { book.old.kept ≡ length book.old.steps }
    ensures { book.new.kept ≡ length book.new.steps }
{
    match book.renew() {
        Ok(number) => Answer::Number(number),
        Err(fault) => unrenewed(fault),
    }
}

// Flushes what waits, and begins the next generation.
fn flush_and_renew<D: Disk, R: Rules>(book: &mut Book<D, R>) -> Answer {
    match book.flush() {
        Ok(_) => renew(book),
        Err(_) => Answer::Other,
    }
}

// The number of the generation in force, its format, and the bytes of its steps.
fn check_generation<D: Disk, R: Rules>(
    rt: &impl Abort,
    book: &Book<D, R>,
    number: u64,
    bytes: u64,
) {
    same(rt, book.format(), 1u32);
    same(rt, book.generation(), number);
    same(rt, book.step_bytes(), bytes);
}

// Three steps, a renewal behind them, and a step behind that, which waits at first.
fn renew_three<D: Disk, R: Rules>(rt: &impl Abort, book: &mut Book<D, R>) {
    same(rt, book.limit(), 50);
    start_all(rt, book, 3);
    check_flush(rt, book, 3);
    check_generation(rt, book, 0, 27);
    same(rt, flush_and_renew(book), Answer::Number(1));
    check_generation(rt, book, 1, 0);
    same(rt, start(book, NOW), Answer::Number(4));
    check_waiting(rt, book, (1, 9));
    check_generation(rt, book, 1, 9);
    check_flush(rt, book, 4);
}

/// A new store with that.
pub fn renewed_three<D: Disk + Drop, R: Rules>(
    rt: &impl Abort,
    alloc: Global,
    disk: D,
    rules: R,
    bundle: &Blob,
) -> Result<D, Fail> {
    let mut book = created(alloc, disk, rules, bundle, 50)?;
    renew_three(rt, &mut book);
    Ok(book.into_disk())
}

// What is found in a store that opens: its format, its generation, the bytes of its steps, how many steps its state counts, and of
// each output all bytes and all lines, sealed or not.
#[derive(Drop)]
struct Found {
    format: u32,
    generation: u64,
    step_bytes: u64,
    counts: String,
}

// The bytes and the lines of an output, sealed or not.
fn put_counts(text: &mut String, out: &Output) -> Result<(), Fail> {
    let mut bytes = out.sealed_bytes;
    'lines: for line in out.lines.as_slice() {
        bytes = bytes
            .saturating_add(line.bytes().len() as u64)
            .saturating_add(1);
    }
    let lines = out.sealed_lines.saturating_add(out.lines.len() as u64);
    write!(text, ", {bytes} {lines}")?;
    Ok(())
}

fn counts_in(alloc: Global, base: &Base) -> Result<String, Fail> {
    let steps = base.steps;
    let mut text = String::new(alloc);
    write!(text, "{steps} steps")?;
    'outputs: for out in base.outs.as_slice() {
        put_counts(&mut text, out)?;
    }
    Ok(text)
}

fn found_of<D: Disk, R: Rules>(alloc: Global, book: &Book<D, R>) -> Result<Found, Fail> {
    Ok(Found {
        format: book.format(),
        generation: book.generation(),
        step_bytes: book.step_bytes(),
        counts: counts_in(alloc, &book.state().base()?)?,
    })
}

// Opens the store of a disk. The disk comes back.
fn reopened<D: Disk, R: Rules>(alloc: Global, disk: D, rules: R) -> (Result<Found, Fail>, D) {
    match opened(alloc, disk, rules) {
        Ok(book) => (found_of(alloc, &book), book.into_disk()),
        Err((_, disk)) => (Err(Fail::from("a store that doesn't open")), disk),
    }
}

// The root of a store with two generations.
const RENEWED_ROOT: &[u8] =
    b"IMQJ\0\0\0\x01\0\0\0\0\0\0\0\0\x01\0\0\0\0\0\0\0\x08\0\0\0\0\0\0\0\0\x01\0\0\0\0\0\0\0\x08\0\0\0\0\0\0\0\x01\0";

#[test]
fn steps_are_counted_on_behind_a_renewal(rt: HostRuntime) -> Result<(), Fail> {
    let alloc = rt.alloc();
    let tiny = Blob::new(alloc, b"tiny")?;
    let disk = renewed_three(&rt, alloc, MemDisk::new(alloc), TinyRules, &tiny)?;
    same(&rt, RENEWED_ROOT.len(), 51);
    same(&rt, disk.file(alloc, ROOT)?.as_slice(), RENEWED_ROOT);
    assert!(rt; !disk.starved());
    check_found(&rt, &reopened(alloc, disk, TinyRules).0?);
    Ok(())
}

fn check_found(rt: &impl Abort, found: &Found) {
    same(rt, found.format, 1u32);
    same(rt, found.generation, 1);
    same(rt, found.step_bytes, 9);
    same(rt, found.counts.as_str(), "4 steps, 0 0");
}

// Of the first output two lines are sealed, of seven bytes together, and two stand behind them; the second has none; of the third none
// is sealed. A message waits for the bot of the first.
const STATE: &str =
    "9 steps, next 5 1, at 100, 1 tiny; write-queue: 3=ee; out write 7 2: cc dd; out archive 0 0:; out store 0 0: xx; feed collect 1 4 finished";

const SEALED: &str =
    "9 steps, next 5 1, at 100, 1 tiny; write-queue: 3=ee; out write 13 4:; out archive 0 0:; out store 3 1:; feed collect 1 4 finished";

const COUNTS: &str = "9 steps, 13 4, 0 0, 3 1";

// The files of the outputs, the first one first.
const FILES: [&str; 3] = ["aaa\nbb\ncc\ndd\n", "", "xx\n"];

// The bot of the first output writes the message, and the files are these then.
const STEPS: [&str; 2] = ["take write 1 3", "done write 1 3 1 line"];

const MORE_SEALED: &str =
    "11 steps, next 5 1, at 100, 1 tiny; write-queue:; out write 16 5:; out archive 0 0:; out store 3 1:; feed collect 1 4 finished";

const MORE_COUNTS: &str = "11 steps, 16 5, 0 0, 3 1";

const MORE_FILES: [&str; 3] = ["aaa\nbb\ncc\ndd\nee\n", "", "xx\n"];

// The file of the second generation.
const SECOND: u64 = 19;

fn code_of(alloc: Global, state: &str) -> Result<Blob, Fail> {
    Ok(encode_base(alloc, &read_state(alloc, state)?)?)
}

// A store with the state, all of it durable.
fn store(alloc: Global) -> Result<MemDisk, Fail> {
    let mut disk = MemDisk::new(alloc);
    make_file(alloc, &mut disk, GENERATION, code_of(alloc, STATE)?.bytes())?;
    make_file(alloc, &mut disk, ROOT, &[0; 8])?;
    put_file(&mut disk, OUT, b"aaa\nbb\n")?;
    copy_of(alloc, &disk)
}

fn put_code(alloc: Global, codes: &mut Vec<u8>, row: &str) -> Result<(), Fail> {
    let step = read_step(alloc, 100, row)?;
    codes.extend_from_slice(encode_step(alloc, &step)?.bytes())?;
    Ok(())
}

// A file with a further record, in place of the closed gate at its end.
fn with_record(alloc: Global, file: &[u8], body: &[u8]) -> Result<Vec<u8>, Fail> {
    let mut longer = front(file, file.len().saturating_sub(1)).to_vec(alloc)?;
    longer.push(1)?;
    longer.extend_from_slice(&(body.len() as u64).to_be_bytes())?;
    longer.extend_from_slice(body)?;
    longer.push(0)?;
    Ok(longer)
}

// The store behind a renewal and the steps, all of it durable.
fn store_with_more(alloc: Global) -> Result<MemDisk, Fail> {
    let (first, disk) = renewed(alloc, store(alloc)?, TinyRules);
    first?;
    let mut codes = Vec::new(alloc);
    'steps: for row in &STEPS {
        put_code(alloc, &mut codes, *row)?;
    }
    let mut disk = disk;
    let file = with_record(alloc, &disk.file(alloc, SECOND)?, &codes)?;
    put_file(&mut disk, SECOND, &file)?;
    copy_of(alloc, &disk)
}

// What a renewal answered, and the state behind it as a line of text.
#[derive(Drop)]
struct Renewal {
    answer: Answer,
    state: String,
}

fn renew_opened<D: Disk, R: Rules>(alloc: Global, book: &mut Book<D, R>) -> Result<Renewal, Fail> {
    let answer = flush_and_renew(book);
    Ok(Renewal {
        answer,
        state: text_of(alloc, &book.state().base()?)?,
    })
}

// Opens the store of a disk, and renews it. The disk comes back.
fn renewed<D: Disk, R: Rules>(alloc: Global, disk: D, rules: R) -> (Result<Renewal, Fail>, D) {
    match opened(alloc, disk, rules) {
        Ok(book) => {
            let mut book = book;
            let renewed = renew_opened(alloc, &mut book);
            (renewed, book.into_disk())
        }
        Err((_, disk)) => (Err(Fail::from("a store that doesn't open")), disk),
    }
}

fn check_renewed(rt: &impl Abort, renewed: &Renewal, number: u64, state: &str) {
    same(rt, renewed.answer, Answer::Number(number));
    same(rt, renewed.state.as_str(), state);
}

fn check_files(
    rt: &(impl Abort + Alloc<A = Global>),
    row: &str,
    disk: &MemDisk,
    files: &[&str],
) -> Result<(), Fail> {
    let mut file = OUT;
    'files: for want in files {
        same_in(
            rt,
            row,
            disk.file(rt.alloc(), file)?.as_slice(),
            want.as_bytes(),
        );
        file = file.saturating_add(2);
    }
    Ok(())
}

#[test]
fn a_renewal_seals_all_lines(rt: HostRuntime) -> Result<(), Fail> {
    let alloc = rt.alloc();
    let (renewed, disk) = renewed(alloc, store(alloc)?, TinyRules);
    check_renewed(&rt, &renewed?, 1, SEALED);
    check_files(&rt, "renewed", &disk, &FILES)?;

    // Behind a header, a gate and a length stands the sealed state, and a closed gate behind that.
    let generation = disk.file(alloc, SECOND)?;
    let code = code_of(alloc, SEALED)?;
    let body = generation.get(25..).unwrap_or(&[]);
    same(
        &rt,
        body.strip_prefix(code.bytes()).unwrap_or(&[]),
        [0].as_slice(),
    );
    Ok(())
}

#[test]
fn a_state_without_lines_is_renewed_too(rt: HostRuntime) -> Result<(), Fail> {
    let alloc = rt.alloc();
    let (first, disk) = renewed(alloc, store(alloc)?, TinyRules);
    first?;
    let (again, disk) = renewed(alloc, disk, TinyRules);
    check_renewed(&rt, &again?, 2, SEALED);
    check_files(&rt, "renewed twice", &disk, &FILES)
}

#[test]
fn lines_behind_a_renewal_are_completed(rt: HostRuntime) -> Result<(), Fail> {
    let alloc = rt.alloc();
    let disk = store_with_more(alloc)?;
    check_files(&rt, "renewed", &disk, &FILES)?;
    let (end, disk) = complete(alloc, disk, TinyRules);
    same(&rt, end, Ok(()));
    check_files(&rt, "completed", &disk, &MORE_FILES)?;
    let (renewed, disk) = renewed(alloc, disk, TinyRules);
    check_renewed(&rt, &renewed?, 2, MORE_SEALED);
    check_files(&rt, "renewed again", &disk, &MORE_FILES)
}

// A renewal that is cut off: the generation that it ends, and what is found before and behind it.
#[derive(Clone, Copy)]
struct Ended {
    generation: u64,
    counts: &'static str,
    files: &'static [&'static str],
}

const FIRST_ENDED: Ended = Ended {
    generation: 0,
    counts: COUNTS,
    files: &FILES,
};

const SECOND_ENDED: Ended = Ended {
    generation: 1,
    counts: MORE_COUNTS,
    files: &MORE_FILES,
};

// What is left of a renewal opens in the old or in the new generation, with the same steps and lines; the files of outputs are completed,
// and it is renewed again, whatever is left of the file of the next generation. Answers whether it is in the new one.
fn check_left(
    rt: &(impl Abort + Alloc<A = Global>),
    row: &str,
    left: MemDisk,
    ended: &Ended,
) -> Result<bool, Fail> {
    let alloc = rt.alloc();
    let (found, left) = reopened(alloc, left, TinyRules);
    let number = check_counts(rt, row, &found?, ended);
    let (end, left) = complete(alloc, left, TinyRules);
    same_in(rt, row, end, Ok(()));
    check_files(rt, row, &left, ended.files)?;
    let (again, left) = renewed(alloc, left, TinyRules);
    same_in(
        rt,
        row,
        again?.answer,
        Answer::Number(number.saturating_add(1)),
    );
    check_files(rt, row, &left, ended.files)?;
    Ok(number > ended.generation)
}

// Answers the generation.
fn check_counts(rt: &impl Abort, row: &str, found: &Found, ended: &Ended) -> u64 {
    let next = ended.generation.saturating_add(1);
    holds_in(
        rt,
        row,
        found.generation == ended.generation || found.generation == next,
    );
    same_in(rt, row, found.counts.as_str(), ended.counts);
    found.generation
}

// Crashes after so many calls. Answers how many of them leave the new generation.
fn check_crashes(
    rt: &(impl Abort + Alloc<A = Global>),
    disk: &MemDisk,
    calls: u64,
    ended: &Ended,
) -> Result<usize, Fail> {
    let alloc = rt.alloc();
    let mut new = 0usize;
    'choices: for (name, choice) in &CHOICES {
        let row = row_text(alloc, "a crash after so many calls,", calls, *name)?;
        if check_left(rt, &row, crashed(alloc, disk, calls, choice)?, ended)? {
            new = new.saturating_add(1);
        }
    }
    Ok(new)
}

// Crashes after each call while a store is opened and renewed. Before the first call all is old, and behind the last all is new.
fn check_each_crash(
    rt: &(impl Abort + Alloc<A = Global>),
    disk: MemDisk,
    ended: &Ended,
) -> Result<(), Fail> {
    let (renewal, disk) = renewed(rt.alloc(), disk, TinyRules);
    renewal?;
    same(rt, check_crashes(rt, &disk, 0, ended)?, 0);
    'calls: for calls in 1..disk.calls() {
        check_crashes(rt, &disk, calls, ended)?;
    }
    same(
        rt,
        check_crashes(rt, &disk, disk.calls(), ended)?,
        CHOICES.len(),
    );
    Ok(())
}

#[test]
fn a_crash_in_a_renewal_leaves_either_generation(rt: HostRuntime) -> Result<(), Fail> {
    check_each_crash(&rt, store(rt.alloc())?, &FIRST_ENDED)
}

#[test]
fn a_crash_in_a_second_renewal_leaves_either_generation(rt: HostRuntime) -> Result<(), Fail> {
    check_each_crash(&rt, store_with_more(rt.alloc())?, &SECOND_ENDED)
}

// A renewal that the disk fails in the call with this number breaks the book.
fn break_renewal<D: Disk, R: Rules>(rt: &impl Abort, book: &mut Book<D, R>, call: u64)
    requires { book.old.kept ≡ length book.old.steps }
{
    same_in(rt, call, renew(book), Answer::Disk);
    same_in(rt, call, renew(book), Answer::Broken);
    same_in(rt, call, start(book, NOW), Answer::Broken);
}

fn flush_and_break<D: Disk, R: Rules>(
    rt: &impl Abort,
    book: &mut Book<D, R>,
    call: u64,
) -> Result<(), Fail> {
    match book.flush() {
        Ok(_) => {
            break_renewal(rt, book, call);
            Ok(())
        }
        Err(_) => Err(Fail::from("a flush of nothing")),
    }
}

fn broken<D: Disk, R: Rules>(
    rt: &impl Abort,
    alloc: Global,
    disk: D,
    rules: R,
    call: u64,
) -> (Result<(), Fail>, D) {
    match opened(alloc, disk, rules) {
        Ok(book) => {
            let mut book = book;
            let end = flush_and_break(rt, &mut book, call);
            (end, book.into_disk())
        }
        Err((_, disk)) => (Err(Fail::from("a store that doesn't open")), disk),
    }
}

// The book makes no further call behind the one that failed, and what crashes leave then opens.
fn check_failed(rt: &(impl Abort + Alloc<A = Global>), call: u64) -> Result<(), Fail> {
    let alloc = rt.alloc();
    let mut disk = store(alloc)?;
    fail_at(alloc, &mut disk, call)?;
    let (end, disk) = broken(rt, alloc, disk, TinyRules, call);
    end?;
    same_in(rt, call, disk.calls(), call);
    check_crashes(rt, &disk, call, &FIRST_ENDED)?;
    Ok(())
}

#[test]
fn a_book_whose_disk_failed_in_a_renewal_is_broken(rt: HostRuntime) -> Result<(), Fail> {
    let alloc = rt.alloc();
    let (found, opened) = reopened(alloc, store(alloc)?, TinyRules);
    found?;
    let (renewal, whole) = renewed(alloc, store(alloc)?, TinyRules);
    renewal?;
    'calls: for before in opened.calls()..whole.calls() {
        check_failed(&rt, before.saturating_add(1))?;
    }
    Ok(())
}
