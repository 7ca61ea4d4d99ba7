//! A run of a book whose forty steps are of all ten kinds, with flushes at several places. It is over any disk and any rules; its
//! moves are for the bundle `tiny` of the tests' rules.
ghost use Rattle.std.specs.Prelude.{◌≡◌, ℕ, true, false, IfOk};
ghost use Rattle.journal_book.specs.Staged.{IsMove};

use base_types::{Blob, BotName};
use drain_loop::drain_book;
use drain_turns::TurnsEnd;
use edge_memory::{MemClock, MemDisk};
use edge_traits::{Disk, Shelf};
use journal_book::{Book, Move};
use std::alloc::Global;
use std::test::Fail;
use step_code::Rules;
use tests_book_fixtures::{Answer, bring_up, created, stage, state_code};

const NOW: u64 = 1_700_000_000;

/// What is done with a book.
#[derive(Clone, Copy)]
pub enum Part {
    /// The bots are started.
    Start,
    /// So many turns of bots and of the collector. A flush ends them.
    Turns(u64),
    /// The bundle comes into force anew.
    Reload,
    /// The feed is read anew.
    Round,
    /// The message goes back that was put aside under this number.
    Redo(u64),
    /// What waits is flushed, and the files of outputs are completed.
    Outputs,
}

/// The run of forty steps, in ten flushes.
pub const FORTY: [Part; 17] = [
    Part::Start,
    Part::Turns(3),
    Part::Turns(2),
    Part::Turns(3),
    Part::Turns(3),
    Part::Outputs,
    Part::Turns(5),
    Part::Turns(4),
    Part::Outputs,
    Part::Turns(5),
    Part::Turns(5),
    Part::Redo(1),
    Part::Round,
    Part::Outputs,
    Part::Reload,
    Part::Turns(6),
    Part::Outputs,
];

/// Its feed: a line that is a fault to any bot, one of which the parser puts a part aside, and one that goes through. Each is a
/// piece.
pub const FEED: &[u8] =
    b"?------------------------------------\n!------------------------------------\na------------------------------------\n";

/// A disk that counts its calls.
pub trait Counted {
    fn calls_made(&self) -> u64;
}

impl Counted for MemDisk {
    fn calls_made(&self) -> u64 {
        self.calls()
    }
}

/// How far a book was behind a part.
#[derive(Drop)]
pub struct Mark {
    /// How many calls its disk had made.
    pub calls: u64,
    pub durable: u64,
    pub committed: u64,
    /// The code of the state behind all committed steps.
    pub state: Blob,
    /// Whether the disk had failed.
    pub failed: bool,
}

fn mark_of<D: Disk + Counted, R: Rules>(
    alloc: Global,
    book: &Book<D, R>,
    failed: bool,
) -> Result<Mark, Fail> {
    Ok(Mark {
        calls: book.disk().calls_made(),
        durable: book.durable(),
        committed: book.state().steps(),
        state: state_code(alloc, book)?,
        failed,
    })
}

// Commits a step that carries nothing of the rules. Answers that the disk is whole.
fn commit<D: Disk, R: Rules>(book: &mut Book<D, R>, what: Move) -> Result<bool, Fail>
    requires whole { book.old.broken ≡ false }
    requires plain { (format moment : ℕ) → IsMove R.meaning format book.old.state moment what }
    ensures { IfOk result (λ whole. whole ≡ true → book.new.broken ≡ false) }
{
    match stage(book, NOW, what) {
        Answer::Number(_) => Ok(true),
        _ => Err(Fail::from("a step was refused")),
    }
}

// Turns of the book. Answers whether the disk is whole.
fn turns<D: Disk, R: Rules, H: Shelf>(
    alloc: Global,
    book: &mut Book<D, R>,
    shelf: &mut H,
    many: u64,
) -> Result<bool, Fail>
    requires { book.old.broken ≡ false }
    ensures { IfOk result (λ whole. whole ≡ true → book.new.broken ≡ false) }
{
    match drain_book(alloc, book, shelf, &MemClock::new(NOW), Some(many)) {
        TurnsEnd::Left | TurnsEnd::Idle => Ok(true),
        TurnsEnd::Disk => Ok(false),
        _ => Err(Fail::from("turns that end early")),
    }
}

// Plays a part. Answers whether the disk is whole.
fn play<D: Disk, R: Rules, H: Shelf>(
    alloc: Global,
    book: &mut Book<D, R>,
    shelf: &mut H,
    part: Part,
) -> Result<bool, Fail>
    requires { book.old.broken ≡ false }
    ensures { IfOk result (λ whole. whole ≡ true → book.new.broken ≡ false) }
{
    match part {
        Part::Start => commit(book, Move::Start),
        Part::Turns(many) => turns(alloc, book, shelf, many),
        Part::Reload => {
            let bundle = Blob::new(alloc, b"tiny")?;
            commit(book, Move::Reload { bundle })
        }
        Part::Round => {
            let bot = BotName::new(b"collect")?;
            commit(book, Move::Round { bot })
        }
        Part::Redo(dump) => commit(book, Move::Redo { dump }),
        Part::Outputs => bring_up(book),
    }
}

// Plays parts one after the other, up to the first in which the disk fails, and marks how far the book is behind each.
fn play_all<D: Disk + Counted, R: Rules, H: Shelf>(
    alloc: Global,
    book: &mut Book<D, R>,
    shelf: &mut H,
    parts: &[Part],
    marks: &mut Vec<Mark>,
) -> Result<(), Fail>
    requires { book.old.broken ≡ false }
{
    match parts {
        [] => Ok(()),
        [part, others @ ..] => {
            let whole = play(alloc, book, shelf, *part)?;
            marks.push(mark_of(alloc, book, !whole)?)?;
            if whole {
                play_all(alloc, book, shelf, others, marks)
            } else {
                Ok(())
            }
        }
    }
}

/// Makes a store, and plays these parts on it, up to the first in which the disk fails. Answers how far it was when it was made
/// and behind each part.
pub fn played<D: Disk + Counted + Drop, R: Rules, H: Shelf>(
    alloc: Global,
    disk: D,
    rules: R,
    bundle: &Blob,
    shelf: &mut H,
    parts: &[Part],
) -> Result<(Vec<Mark>, D), Fail> {
    let mut book = created(alloc, disk, rules, bundle, 10_000)?;
    let marks = play_marked(alloc, &mut book, shelf, parts);
    let disk = book.into_disk();
    Ok((marks?, disk))
}

fn play_marked<D: Disk + Counted, R: Rules, H: Shelf>(
    alloc: Global,
    book: &mut Book<D, R>,
    shelf: &mut H,
    parts: &[Part],
) -> Result<Vec<Mark>, Fail>
    requires { book.old.broken ≡ false }
{
    let mut marks = Vec::new(alloc);
    marks.push(mark_of(alloc, book, false)?)?;
    play_all(alloc, book, shelf, parts, &mut marks)?;
    Ok(marks)
}
