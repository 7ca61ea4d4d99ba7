//! A round of all workers, and what it made, made durable.
ghost use Rattle.std.specs.Prelude.{◌≡◌, ◌≢◌, ◌≤◌, ◌<◌, ◌⊎◌, ◌↔◌, true, false, length, None, [], OnOk, OnErr};
ghost use Rattle.std.specs.List.{AllByRecursion};
ghost use Rattle.edge_traits.specs.Count.{Rose};
ghost use Rattle.edge_traits.specs.Shelf.{ShelfView};
ghost use Rattle.book_runs.specs.GoesOn.{GoesOn, IsSameBook};
ghost use Rattle.collector_feeds.specs.Open.{GoesOn as ReadsOn};
ghost use Rattle.drain_loop.specs.Calls.{outside};
ghost use Rattle.run_command.specs.Fetched.{HasFetched, KeepsShelf};
ghost use Rattle.run_command.specs.Laps.{IsWorkedOn};

use crate::workers::{give_back_ends, give_back_workers, workers_of};
use bot_runner::{RoundEnd, Until, Worker, run_round};
use edge_traits::{Clock, Disk, Failed, Gate, Shelf, Source};
use journal_book::{Book, FlushFault};
use std::alloc::Global;
use std::sync::Wait;
use std::thread::Threads;
use step_code::Rules;

// With more workers than these no round is made.
const MOST_WORKERS: usize = 65_536;

// A round of the workers of the bundle in force. Their feeds are fetched for it, and given back. Where memory runs out none is made.
pub(crate) fn work_round<T, D, R, K, H, C, G>(
    rt: &T,
    alloc: Global,
    rules: &R,
    book: Book<D, R>,
    control: &mut K,
    shelf: &mut H,
    clock: &C,
    gate: &G,
    until: Until,
) -> Book<D, R>
where
    T: Threads + Wait + Sync,
    D: Disk + Send,
    R: Rules + Send + Sync,
    R::Plan: Send,
    R::Work: Send,
    K: Source,
    H: Shelf,
    H::Src: Send,
    C: Clock + Sync,
    G: Gate + Sync,
    requires whole { book.broken ≡ false }
    ensures worked { (first : ShelfView) → first.told ≡ (H.shelf shelf.old).told → IsWorkedOn D.disk (outside R.meaning first (C.told clock.now) book.limit) until.left book result }
    ensures failed { result.broken ≡ true → Rose (D.disk book.disk).faults (D.disk result.disk).faults }
    ensures untold { (D.disk book.disk).told ≡ None → (D.disk result.disk).told ≡ None }
    ensures count { (D.disk book.disk).faults ≤ (D.disk result.disk).faults }
    ensures keeps { KeepsShelf (H.shelf shelf.old) (H.shelf shelf.new) }
    ensures control { ReadsOn (K.source control.old) (K.source control.new) }
{
    let workers = workers_of(alloc, book.state(), shelf);
    round(
        rt, alloc, rules, book, workers, control, shelf, clock, gate, until,
    )
}

// A round of these workers, unless there are too many. Their feeds are given back.
fn round<T, D, R, K, H, C, G>(
    rt: &T,
    alloc: Global,
    rules: &R,
    book: Book<D, R>,
    workers: Vec<Worker<H::Src>>,
    control: &mut K,
    shelf: &mut H,
    clock: &C,
    gate: &G,
    until: Until,
) -> Book<D, R>
where
    T: Threads + Wait + Sync,
    D: Disk + Send,
    R: Rules + Send + Sync,
    R::Plan: Send,
    R::Work: Send,
    K: Source,
    H: Shelf,
    H::Src: Send,
    C: Clock + Sync,
    G: Gate + Sync,
    requires whole { book.broken ≡ false }
    requires fetched { AllByRecursion (HasFetched H.Src.source (H.shelf shelf.old)) workers.items }
    ensures worked { (first : ShelfView) → first.told ≡ (H.shelf shelf.old).told → IsWorkedOn D.disk (outside R.meaning first (C.told clock.now) book.limit) until.left book result }
    ensures failed { result.broken ≡ true → Rose (D.disk book.disk).faults (D.disk result.disk).faults }
    ensures untold { (D.disk book.disk).told ≡ None → (D.disk result.disk).told ≡ None }
    ensures count { (D.disk book.disk).faults ≤ (D.disk result.disk).faults }
    ensures keeps { KeepsShelf (H.shelf shelf.old) (H.shelf shelf.new) }
    ensures control { ReadsOn (K.source control.old) (K.source control.new) }
{
    if workers.len() > MOST_WORKERS {
        give_back_workers(workers, shelf);
        return book;
    }
    match run_round(rt, alloc, rules, book, workers, control, clock, gate, until) {
        Ok(RoundEnd { book, ends }) => {
            give_back_ends(ends, shelf);
            book
        }
        Err((_, book, workers)) => {
            give_back_workers(workers, shelf);
            book
        }
    }
}

// Makes all steps durable.
//
// # Errors
//
// The disk fails, or has failed.
pub(crate) fn make_durable<D: Disk, R: Rules>(book: &mut Book<D, R>) -> Result<(), Failed>
    ensures goes_on { GoesOn D.disk R.meaning book.old book.new [] }
    ensures book { IsSameBook book.old book.new }
    ensures whole { OnOk result (book.new.broken ≡ false) }
    ensures broken { OnErr result (book.new.broken ≡ true) }
    ensures failed { OnErr result ((book.old.broken ≡ true) ⊎ Rose (D.disk book.old.disk).faults (D.disk book.new.disk).faults) }
    ensures untold { (D.disk book.old.disk).told ≡ None → (D.disk book.new.disk).told ≡ None }
    ensures count { (D.disk book.old.disk).faults ≤ (D.disk book.new.disk).faults }
{
    match book.flush() {
        Ok(_) => Ok(()),
        Err(FlushFault::Disk) => Err(Failed),
        Err(FlushFault::Broken) => Err(Failed),
    }
}
