//! What a book reads of the generations of its store.
use crate::fixtures::NOW;
use crate::renewed::renewed_three;
use crate::same::{same, same_in};
use base_types::Blob;
use edge_memory::MemDisk;
use edge_traits::Disk;
use journal_book::{Book, Past, PastFault};
use std::alloc::Global;
use std::process::Abort;
use std::test::Fail;
use step_code::{Rules, Step, StepKind};
use tests_book_fixtures::{
    Answer, GENERATION, changed, copy_of, fail_at, opened, put_file, reopen, start,
};
use tests_rules::TinyRules;

fn name_of(step: &Step) -> &'static str {
    match &step.what {
        StepKind::Start => "start",
        _ => "another",
    }
}

// How many steps stand before a generation, and its steps with their moments.
fn text_in(alloc: Global, past: &Past) -> Result<String, Fail> {
    let before = past.base.steps;
    let mut text = String::new(alloc);
    write!(text, "{before}:")?;
    'steps: for step in past.steps.as_slice() {
        let name = name_of(step);
        let moment = step.moment.0;
        write!(text, " {name} {moment}")?;
    }
    Ok(text)
}

fn past_text<D: Disk, R: Rules>(
    alloc: Global,
    book: &mut Book<D, R>,
    generation: u64,
) -> Result<String, Fail> {
    if generation > book.generation() {
        return Err(Fail::from("a later generation"));
    }
    match book.past(generation) {
        Ok(past) => text_in(alloc, &past),
        Err(_) => Err(Fail::from("a generation that can't be read")),
    }
}

// Each generation up to the one in force, and then a further step.
fn check_pasts<D: Disk, R: Rules>(
    rt: &impl Abort,
    alloc: Global,
    book: &mut Book<D, R>,
    want: &[&str],
) -> Result<(), Fail> {
    let mut generation = 0u64;
    'generations: for text in want {
        same_in(
            rt,
            generation,
            past_text(alloc, book, generation)?.as_str(),
            *text,
        );
        generation = generation.saturating_add(1);
    }
    same(rt, start(book, NOW), Answer::Number(5));
    Ok(())
}

fn read_all<D: Disk + Drop, R: Rules>(
    rt: &impl Abort,
    alloc: Global,
    disk: D,
    rules: R,
    want: &[&str],
) -> Result<(), Fail> {
    match opened(alloc, disk, rules) {
        Ok(book) => {
            let mut book = book;
            check_pasts(rt, alloc, &mut book, want)
        }
        Err(_) => Err(Fail::from("a store that doesn't open")),
    }
}

const PASTS: [&str; 2] = [
    "0: start 1700000000 start 1700000000 start 1700000000",
    "3: start 1700000000",
];

// A store with three steps in its first generation, and one in its second.
fn store(rt: &(impl Abort + Alloc<A = Global>)) -> Result<MemDisk, Fail> {
    let alloc = rt.alloc();
    let tiny = Blob::new(alloc, b"tiny")?;
    let disk = renewed_three(rt, alloc, MemDisk::new(alloc), TinyRules, &tiny)?;
    copy_of(alloc, &disk)
}

#[test]
fn each_generation_has_its_steps(rt: HostRuntime) -> Result<(), Fail> {
    read_all(&rt, rt.alloc(), store(&rt)?, TinyRules, &PASTS)
}

// Why the first generation can't be read.
fn fault_of<D: Disk, R: Rules>(book: &mut Book<D, R>) -> Option<PastFault> {
    match book.past(0) {
        Ok(_) => None,
        Err(fault) => Some(fault),
    }
}

// The disk comes back.
fn read_first<D: Disk, R: Rules>(
    alloc: Global,
    disk: D,
    rules: R,
) -> (Result<Option<PastFault>, Fail>, D) {
    match opened(alloc, disk, rules) {
        Ok(book) => {
            let mut book = book;
            let fault = fault_of(&mut book);
            (Ok(fault), book.into_disk())
        }
        Err((_, disk)) => (Err(Fail::from("a store that doesn't open")), disk),
    }
}

// A place in the file of the first generation, another byte for it, and where the damage shows.
const FRONT: [(usize, u8, u64); 3] = [(0, b'X', 0), (16, 0, 16), (25, 255, 25)];

// The same, counted from the end of the file: the length of the record and its three steps, of nine bytes each.
const BACK: [(usize, u8, usize); 4] = [(29, 28, 37), (28, 255, 28), (19, 255, 19), (10, 255, 10)];

fn check_damage(
    rt: &(impl Abort + Alloc<A = Global>),
    disk: &MemDisk,
    place: usize,
    byte: u8,
    at: u64,
) -> Result<(), Fail> {
    let alloc = rt.alloc();
    let mut disk = copy_of(alloc, disk)?;
    let file = changed(alloc, &disk.file(alloc, GENERATION)?, place, byte)?;
    put_file(&mut disk, GENERATION, &file)?;
    let (fault, _) = read_first(alloc, disk, TinyRules);
    let want = Some(PastFault::Damaged {
        file: GENERATION,
        at,
    });
    same_in(rt, at, fault?, want);
    Ok(())
}

#[test]
fn damage_of_an_earlier_generation_is_told_where_it_is(rt: HostRuntime) -> Result<(), Fail> {
    let disk = store(&rt)?;
    'front: for (place, byte, at) in &FRONT {
        check_damage(&rt, &disk, *place, *byte, *at)?;
    }
    let len = disk.file(rt.alloc(), GENERATION)?.len();
    'back: for (place, byte, at) in &BACK {
        check_damage(
            &rt,
            &disk,
            len.saturating_sub(*place),
            *byte,
            len.saturating_sub(*at) as u64,
        )?;
    }
    Ok(())
}

// The disk fails in the next call. What is read then is whole, and the book goes on.
fn check_going_on<D: Disk + Drop, R: Rules>(
    rt: &impl Abort,
    alloc: Global,
    disk: D,
    rules: R,
    call: u64,
) -> Result<(), Fail> {
    match opened(alloc, disk, rules) {
        Ok(book) => {
            let mut book = book;
            same_in(rt, call, fault_of(&mut book), Some(PastFault::Disk));
            same_in(rt, call, fault_of(&mut book), None);
            same_in(rt, call, start(&mut book, NOW), Answer::Number(5));
            Ok(())
        }
        Err(_) => Err(Fail::from("a store that doesn't open")),
    }
}

#[test]
fn a_book_goes_on_behind_a_read_that_failed(rt: HostRuntime) -> Result<(), Fail> {
    let alloc = rt.alloc();
    let (seen, opened) = reopen(alloc, store(&rt)?, TinyRules);
    seen?;
    let (fault, read) = read_first(alloc, store(&rt)?, TinyRules);
    same(&rt, fault?, None);
    'calls: for before in opened.calls()..read.calls() {
        let call = before.saturating_add(1);
        let mut disk = store(&rt)?;
        fail_at(alloc, &mut disk, call)?;
        check_going_on(&rt, alloc, disk, TinyRules, call)?;
    }
    Ok(())
}
