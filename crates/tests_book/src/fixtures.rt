//! What books do, over any disk and any rules, so that no proof looks into those of the tests: each of these makes a store, lets a
//! book do something, and gives the disk back.

use crate::same::{same, same_in};
use base_types::Blob;
use edge_traits::Disk;
use journal_book::Book;
use std::alloc::Global;
use std::process::Abort;
use std::test::Fail;
use step_code::Rules;
use tests_book_fixtures::{Answer, created, flush, latest, start, waiting_codes};

pub const NOW: u64 = 1_700_000_000;

// Stages so many steps, which get the next numbers.
pub fn start_all<D: Disk, R: Rules>(rt: &impl Abort, book: &mut Book<D, R>, steps: u8) {
    'steps: for number in 1..=steps {
        same(rt, start(book, NOW), Answer::Number(u64::from(number)));
    }
}

pub fn check_waiting<D: Disk, R: Rules>(rt: &impl Abort, book: &Book<D, R>, want: (u64, u64)) {
    let (steps, bytes) = book.unflushed();
    same(rt, steps, want.0);
    same(rt, bytes, want.1);
}

pub fn check_flush<D: Disk, R: Rules>(rt: &impl Abort, book: &mut Book<D, R>, number: u64) {
    same(rt, flush(book), Answer::Number(number));
    same(rt, book.durable(), number);
}

/// A limit of 50 bytes takes five steps of nine, and no sixth.
pub fn fill<D: Disk + Drop, R: Rules>(
    rt: &impl Abort,
    alloc: Global,
    disk: D,
    rules: R,
    bundle: &Blob,
) -> Result<(), Fail> {
    let mut book = created(alloc, disk, rules, bundle, 50)?;
    start_all(rt, &mut book, 5);
    same(rt, start(&mut book, NOW), Answer::Full(54));
    check_waiting(rt, &book, (5, 45));
    check_flush(rt, &mut book, 5);
    check_waiting(rt, &book, (0, 0));
    Ok(())
}

/// A store with a flush of two steps, and a flush of nothing behind it; and the codes that waited for the first.
pub fn flush_two<D: Disk + Drop, R: Rules>(
    rt: &impl Abort,
    alloc: Global,
    disk: D,
    rules: R,
    bundle: &Blob,
) -> Result<(Vec<u8>, D), Fail> {
    let mut book = created(alloc, disk, rules, bundle, 1_000)?;
    start_all(rt, &mut book, 2);
    let codes = waiting_codes(alloc, &book)?;
    check_flush(rt, &mut book, 2);
    check_flush(rt, &mut book, 2);
    Ok((codes, book.into_disk()))
}

/// The latest moment behind a step that is staged when the clock shows this moment, behind one at `NOW`.
pub fn latest_behind<D: Disk + Drop, R: Rules>(
    alloc: Global,
    disk: D,
    rules: R,
    bundle: &Blob,
    clock: u64,
) -> Result<u64, Fail> {
    let mut book = created(alloc, disk, rules, bundle, 1_000)?;
    start(&mut book, NOW);
    start(&mut book, clock);
    Ok(latest(&book))
}

/// A flush that the disk fails in the call with this number breaks the book.
pub fn break_book<D: Disk + Drop, R: Rules>(
    rt: &impl Abort,
    alloc: Global,
    disk: D,
    rules: R,
    bundle: &Blob,
    call: u64,
) -> Result<(), Fail> {
    let mut book = created(alloc, disk, rules, bundle, 1_000)?;
    same_in(rt, call, start(&mut book, NOW), Answer::Number(1));
    same_in(rt, call, flush(&mut book), Answer::Disk);
    same_in(rt, call, flush(&mut book), Answer::Broken);
    same_in(rt, call, start(&mut book, NOW), Answer::Broken);
    same_in(rt, call, book.durable(), 0);
    Ok(())
}
