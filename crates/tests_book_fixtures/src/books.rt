//! Calls of a book. Each stands in a function of its own, whose contract says only whether the disk has failed.
ghost use Rattle.std.specs.Prelude.{◌≡◌, ℕ, true, false, IfOk};
ghost use Rattle.journal_book.specs.Staged.{IsMove};

use crate::answer::{Answer, refused, unflushed};
use base_types::Blob;
use edge_traits::Disk;
use journal_book::{Book, BookFault, Move};
use std::alloc::Global;
use std::test::Fail;
use step_code::{Rules, encode_base};

/// The codes of a generation's steps may have so many bytes together where a store is opened again.
pub const STEP_BYTES: u64 = 67_108_864;

/// The book of a new store, whose codes of steps may have so many bytes together.
pub fn created<D: Disk + Drop, R: Rules>(
    alloc: Global,
    disk: D,
    rules: R,
    bundle: &Blob,
    limit: u16,
) -> Result<Book<D, R>, Fail>
    ensures { IfOk result (λ book. book.broken ≡ false) }
{
    match Book::create(alloc, disk, rules, bundle, u64::from(limit)) {
        Ok(book) => Ok(book),
        Err(_) => Err(Fail::from("no store was made")),
    }
}

/// Why no store is made.
pub fn create_fault<D: Disk + Drop, R: Rules>(
    alloc: Global,
    disk: D,
    rules: R,
    bundle: &Blob,
) -> Option<BookFault> {
    match Book::create(alloc, disk, rules, bundle, 1_000) {
        Ok(_) => None,
        Err((fault, _)) => Some(fault),
    }
}

/// The book of a store that is there. The disk comes back where it can't be opened.
pub fn opened<D: Disk, R: Rules>(
    alloc: Global,
    disk: D,
    rules: R,
) -> Result<Book<D, R>, (BookFault, D)>
    ensures { IfOk result (λ book. book.broken ≡ false) }
{
    Book::reopen(alloc, disk, rules, STEP_BYTES)
}

/// A new store, and the code of its state.
pub fn new_store<D: Disk + Drop, R: Rules>(
    alloc: Global,
    disk: D,
    rules: R,
    bundle: &Blob,
) -> Result<(Blob, D), Fail> {
    let book = created(alloc, disk, rules, bundle, 1_000)?;
    let code = state_code(alloc, &book)?;
    Ok((code, book.into_disk()))
}

/// The code of the state behind all steps.
pub fn state_code<D: Disk, R: Rules>(alloc: Global, book: &Book<D, R>) -> Result<Blob, Fail> {
    Ok(encode_base(alloc, &book.state().base()?)?)
}

/// The latest moment of a step, in seconds since 1970.
pub fn latest<D: Disk, R: Rules>(book: &Book<D, R>) -> u64 {
    book.state().latest().0
}

/// The codes of the steps that wait for a flush, one behind the other.
pub fn waiting_codes<D: Disk, R: Rules>(alloc: Global, book: &Book<D, R>) -> Result<Vec<u8>, Fail> {
    Ok(book.waiting().to_vec(alloc)?)
}

/// Stages a step that carries nothing of the rules, when the clock shows this moment.
pub fn stage<D: Disk, R: Rules>(book: &mut Book<D, R>, now: u64, what: Move) -> Answer
    requires { (format moment : ℕ) → IsMove R.meaning format book.old.state moment what }
    ensures { book.new.broken ≡ book.old.broken }
{
    let (steps, bytes) = book.unflushed();
    if steps >= 64 || bytes >= 1_048_576 {
        return Answer::Other;
    }
    match book.stage(now, what) {
        Ok(number) => Answer::Number(number),
        Err(refusal) => refused(refusal),
    }
}

/// Stages a step that starts the bots.
pub fn start<D: Disk, R: Rules>(book: &mut Book<D, R>, now: u64) -> Answer
    ensures { book.new.broken ≡ book.old.broken }
{
    stage(book, now, Move::Start)
}

/// Flushes what waits.
pub fn flush<D: Disk, R: Rules>(book: &mut Book<D, R>) -> Answer {
    match book.flush() {
        Ok(number) => Answer::Number(number),
        Err(fault) => unflushed(fault),
    }
}

/// Flushes what waits, and completes the files of outputs. Answers whether the disk is whole.
pub fn bring_up<D: Disk, R: Rules>(book: &mut Book<D, R>) -> Result<bool, Fail>
    requires { book.old.broken ≡ false }
    ensures { IfOk result (λ whole. whole ≡ true → book.new.broken ≡ false) }
{
    match book.bring_up() {
        Ok(()) => Ok(true),
        Err(BookFault::Disk) => Ok(false),
        Err(_) => Err(Fail::from("outputs that aren't completed")),
    }
}
