//! What is done with a store, over any disk and any rules, so that no proof looks into those of the tests: the store is opened, something
//! is done, and the disk comes back.
ghost use Rattle.std.specs.Prelude.{◌≡◌, ℕ, false, IfOk};
ghost use Rattle.journal_book.specs.Staged.{IsMove};

use crate::recount::Place;
use base_types::Blob;
use book_runs::commit;
use drain_loop::drain_book;
use drain_turns::TurnsEnd;
use edge_memory::MemClock;
use edge_traits::{Disk, Shelf};
use journal_book::{Book, BookFault, Move};
use std::alloc::Global;
use std::test::Fail;
use step_code::{Base, Rules};
use tests_book_fixtures::{Answer, bring_up, created, flush};
use tests_tables::{number, text_of, unreadable};

const NOW: u64 = 100;

/// What was seen of a store that was opened.
#[derive(Drop)]
pub struct Seen {
    /// The state that it opened with, as a line of text.
    pub before: String,
    /// How what was done ended, and what was counted then.
    pub answer: String,
    /// The state behind it.
    pub after: String,
    /// The same with all lines of outputs sealed.
    pub sealed: String,
    pub place: Place,
}

/// Makes a store. Answers its state as a line of text.
pub fn new_store<D: Disk + Drop, R: Rules>(
    alloc: Global,
    disk: D,
    rules: R,
    bundle: &Blob,
    limit: u16,
) -> Result<(String, D), Fail> {
    let book = created(alloc, disk, rules, bundle, limit)?;
    let state = state_text(alloc, &book)?;
    Ok((state, book.into_disk()))
}

fn reopened<D: Disk, R: Rules>(
    alloc: Global,
    disk: D,
    rules: R,
    limit: u16,
) -> Result<Book<D, R>, (BookFault, D)>
    ensures { IfOk result (λ book. book.broken ≡ false) }
{
    Book::reopen(alloc, disk, rules, u64::from(limit))
}

/// Opens the store of a disk, and does what the line says. The disk comes back.
pub fn act_on<D: Disk, R: Rules, H: Shelf>(
    alloc: Global,
    disk: D,
    rules: R,
    limit: u16,
    shelf: &mut H,
    line: &str,
) -> (Result<Seen, Fail>, D) {
    match reopened(alloc, disk, rules, limit) {
        Ok(book) => {
            let mut book = book;
            let seen = seen_behind(alloc, &mut book, shelf, line);
            (seen, book.into_disk())
        }
        Err((_, disk)) => (Err(Fail::from("a store that doesn't open")), disk),
    }
}

fn seen_behind<D: Disk, R: Rules, H: Shelf>(
    alloc: Global,
    book: &mut Book<D, R>,
    shelf: &mut H,
    line: &str,
) -> Result<Seen, Fail>
    requires { book.old.broken ≡ false }
{
    let before = state_text(alloc, book)?;
    let answer = act(alloc, book, shelf, line)?;
    seen_of(alloc, book, before, answer)
}

fn seen_of<D: Disk, R: Rules>(
    alloc: Global,
    book: &Book<D, R>,
    before: String,
    answer: String,
) -> Result<Seen, Fail> {
    let mut answer = answer;
    put_counts(&mut answer, &book.state().base()?)?;
    Ok(Seen {
        before,
        answer,
        after: state_text(alloc, book)?,
        sealed: text_of(alloc, &book.state().sealed_base()?)?,
        place: place_of(book),
    })
}

fn place_of<D: Disk, R: Rules>(book: &Book<D, R>) -> Place {
    Place {
        steps: book.durable(),
        generation: book.generation(),
        bytes: book.step_bytes(),
    }
}

fn state_text<D: Disk, R: Rules>(alloc: Global, book: &Book<D, R>) -> Result<String, Fail> {
    text_of(alloc, &book.state().base()?)
}

// How many steps, messages, dumps, lines of outputs and halted bots there are.
fn put_counts(text: &mut String, base: &Base) -> Result<(), Fail> {
    let mut lines = 0u64;
    'outputs: for out in base.outs.as_slice() {
        lines = lines
            .saturating_add(out.sealed_lines)
            .saturating_add(out.lines.len() as u64);
    }
    let steps = base.steps;
    let messages = base.next_message.saturating_sub(1);
    let dumps = base.dumps.len();
    let halted = base.halted.len();
    write!(
        text,
        ", {steps} steps, {messages} messages, {dumps} dumps, {lines} lines, {halted} halted"
    )?;
    Ok(())
}

// Does what a line says.
fn act<D: Disk, R: Rules, H: Shelf>(
    alloc: Global,
    book: &mut Book<D, R>,
    shelf: &mut H,
    line: &str,
) -> Result<String, Fail>
    requires { book.old.broken ≡ false }
{
    let (word, rest) = line.split_once(' ').unwrap_or((line, ""));
    match word {
        "drain" => drains(alloc, book, shelf, rest),
        "outputs" => outputs(alloc, book),
        _ => {
            let number = step(alloc, book, word, rest)?;
            Ok(format!(in alloc; "{number}")?)
        }
    }
}

fn outputs<D: Disk, R: Rules>(alloc: Global, book: &mut Book<D, R>) -> Result<String, Fail>
    requires { book.old.broken ≡ false }
{
    if bring_up(book)? {
        Ok(String::from_str(alloc, "ok")?)
    } else {
        Err(Fail::from("the disk"))
    }
}

// A step that carries nothing of the rules, with a flush behind it. Answers its number.
fn step<D: Disk, R: Rules>(
    alloc: Global,
    book: &mut Book<D, R>,
    word: &str,
    rest: &str,
) -> Result<u64, Fail> {
    match word {
        "start" => committed(book, Move::Start),
        "redo" => redo(book, number(rest)?),
        "reload" => reload(book, Blob::new(alloc, rest.as_bytes())?),
        _ => Err(unreadable()),
    }
}

fn redo<D: Disk, R: Rules>(book: &mut Book<D, R>, dump: u64) -> Result<u64, Fail> {
    committed(book, Move::Redo { dump })
}

fn reload<D: Disk, R: Rules>(book: &mut Book<D, R>, bundle: Blob) -> Result<u64, Fail> {
    committed(book, Move::Reload { bundle })
}

fn committed<D: Disk, R: Rules>(book: &mut Book<D, R>, what: Move) -> Result<u64, Fail>
    requires plain { (format moment : ℕ) → IsMove R.meaning format book.old.state moment what }
{
    match commit(book, NOW, what) {
        Ok(_) => flushed(book),
        Err(_) => Err(Fail::from("a step that isn't committed")),
    }
}

fn flushed<D: Disk, R: Rules>(book: &mut Book<D, R>) -> Result<u64, Fail> {
    match flush(book) {
        Answer::Number(number) => Ok(number),
        _ => Err(Fail::from("the disk")),
    }
}

// Drains one after the other, each of which makes so many steps at the most; `*` is no bound.
fn drains<D: Disk, R: Rules, H: Shelf>(
    alloc: Global,
    book: &mut Book<D, R>,
    shelf: &mut H,
    bounds: &str,
) -> Result<String, Fail>
    requires { book.old.broken ≡ false }
{
    let bounds = words_of(alloc, bounds)?;
    let mut ends = String::new(alloc);
    drain_all(alloc, book, shelf, &bounds, &mut ends)?;
    Ok(ends)
}

fn words_of(alloc: Global, text: &str) -> Result<Vec<&str>, Fail> {
    let mut words = Vec::new(alloc);
    'words: for word in text.split(' ') {
        words.push(word)?;
    }
    Ok(words)
}

fn drain_all<D: Disk, R: Rules, H: Shelf>(
    alloc: Global,
    book: &mut Book<D, R>,
    shelf: &mut H,
    bounds: &[&str],
    ends: &mut String,
) -> Result<(), Fail>
    requires { book.old.broken ≡ false }
{
    match bounds {
        [] => Ok(()),
        [bound, others @ ..] => {
            let end = drain(alloc, book, shelf, left_of(*bound)?)?;
            put_end(ends, end)?;
            drain_all(alloc, book, shelf, others, ends)
        }
    }
}

fn put_end(ends: &mut String, end: &str) -> Result<(), Fail> {
    if !ends.is_empty() {
        ends.push_str(" ")?;
    }
    ends.push_str(end)?;
    Ok(())
}

fn left_of(bound: &str) -> Result<Option<u64>, Fail> {
    if bound == "*" {
        Ok(None)
    } else {
        Ok(Some(number(bound)?))
    }
}

// How a drain ends, where its disk is whole.
fn drain<D: Disk, R: Rules, H: Shelf>(
    alloc: Global,
    book: &mut Book<D, R>,
    shelf: &mut H,
    left: Option<u64>,
) -> Result<&'static str, Fail>
    requires { book.old.broken ≡ false }
    ensures { IfOk result (λ end. book.new.broken ≡ false) }
{
    match drain_book(alloc, book, shelf, &MemClock::new(NOW), left) {
        TurnsEnd::Left => Ok("left"),
        TurnsEnd::Idle => Ok("idle"),
        TurnsEnd::Halted { bot: _ } => Ok("halted"),
        _ => Err(Fail::from("turns that end early")),
    }
}
