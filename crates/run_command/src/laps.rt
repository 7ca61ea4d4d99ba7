//! A lap: a turn as a drain makes it, and a round of all workers.
ghost use Rattle.std.specs.Prelude.{◌≡◌, ◌≢◌, ◌≤◌, ◌+◌, ◌↔◌, ℕ, List, true, false, None, Some, Ok, Err, OnOk, IfErr, IsErrOf};
ghost use Rattle.collector_feeds.specs.Open.{GoesOn as ReadsOn};
ghost use Rattle.edge_traits.specs.Count.{Rose};
ghost use Rattle.edge_traits.specs.Disk.{Image};
ghost use Rattle.edge_traits.specs.Shelf.{ShelfView, count_on};
ghost use Rattle.turn_order.specs.Turn.{collectors};
ghost use Rattle.drain_loop.specs.Calls.{outside, IsUndamaged};
ghost use Rattle.drain_loop.specs.Feeds.{FailedBeyond};
ghost use Rattle.run_command.specs.Laps.{one_at_most, HasLapped};
ghost use Rattle.run_command.specs.Runs.{left_behind};

use crate::rounds::{make_durable, work_round};
use crate::workers::bots;
use bot_runner::Until;
use drain_loop::drain_book;
use drain_turns::TurnsEnd;
use edge_traits::{Clock, Disk, Failed, Gate, Shelf, Source};
use journal_book::Book;
use std::alloc::Global;
use std::sync::Wait;
use std::thread::Threads;
use step_code::Rules;

// A turn, and a round of all workers behind it. Answers how many steps may still be made, or why the call ends.
pub(crate) fn lap<T, D, R, K, H, C, G>(
    rt: &T,
    alloc: Global,
    rules: &R,
    book: Book<D, R>,
    control: &mut K,
    shelf: &mut H,
    clock: &C,
    gate: &G,
    until: Until,
) -> (Book<D, R>, Result<Option<u64>, TurnsEnd>)
where
    T: Threads + Wait + Sync,
    D: Disk + Send,
    R: Rules + Send + Sync,
    R::Plan: Send,
    R::Work: Send,
    K: Source,
    H: Shelf,
    H::Src: Send,
    C: Clock + Sync,
    G: Gate + Sync,
    requires whole { book.broken ≡ false }
    ensures lapped { (first : ShelfView) → first.told ≡ (H.shelf shelf.old).told → HasLapped D.disk (outside R.meaning first (C.told clock.now) book.limit) until.left book result.0 result.1 }
    ensures whole { OnOk result.1 (result.0.broken ≡ false) }
    ensures broken { IfErr result.1 (λ end. (end ≡ TurnsEnd.Disk) ↔ (result.0.broken ≡ true)) }
    ensures undamaged { (files : Image) → (D.disk book.disk).told ≡ Some files → IfErr result.1 IsUndamaged }
    ensures disk { IsErrOf result.1 TurnsEnd.Disk → Rose (D.disk book.disk).faults (D.disk result.0.disk).faults }
    ensures failed { (name : List ℕ) → result.1 ≡ Err (TurnsEnd.Failed name) → FailedBeyond (collectors R.meaning result.0.state) (H.shelf shelf.old) (H.shelf shelf.new) name }
    ensures told { (H.shelf shelf.new).told ≡ (H.shelf shelf.old).told }
    ensures counts { (name : List ℕ) → count_on (H.shelf shelf.old) name ≤ count_on (H.shelf shelf.new) name }
    ensures untold { (D.disk book.disk).told ≡ None → (D.disk result.0.disk).told ≡ None }
    ensures control { ReadsOn (K.source control.old) (K.source control.new) }
    ensures disk_count { (D.disk book.disk).faults ≤ (D.disk result.0.disk).faults }
{
    let mut book = book;
    match one_turn(alloc, &mut book, shelf, clock, until.left) {
        Ok(left) => {
            let until = Until {
                left,
                control: until.control,
            };
            work(rt, alloc, rules, book, control, shelf, clock, gate, until)
        }
        Err(end) => (book, Err(end)),
    }
}

// A turn, if a step may be made. Answers how many may still be made, or why the call ends.
fn one_turn<D: Disk, R: Rules, H: Shelf, C: Clock>(
    alloc: Global,
    book: &mut Book<D, R>,
    shelf: &mut H,
    clock: &C,
    left: Option<u64>,
) -> Result<Option<u64>, TurnsEnd>
    requires whole { book.old.broken ≡ false }
    ensures lapped { (first : ShelfView) → first.told ≡ (H.shelf shelf.old).told → HasLapped D.disk (outside R.meaning first (C.told clock.now) book.old.limit) left book.old book.new result }
    ensures whole { OnOk result (book.new.broken ≡ false) }
    ensures broken { IfErr result (λ end. (end ≡ TurnsEnd.Disk) ↔ (book.new.broken ≡ true)) }
    ensures undamaged { (files : Image) → (D.disk book.old.disk).told ≡ Some files → IfErr result IsUndamaged }
    ensures disk { IsErrOf result TurnsEnd.Disk → Rose (D.disk book.old.disk).faults (D.disk book.new.disk).faults }
    ensures failed { (name : List ℕ) → result ≡ Err (TurnsEnd.Failed name) → FailedBeyond (collectors R.meaning book.new.state) (H.shelf shelf.old) (H.shelf shelf.new) name }
    ensures told { (H.shelf shelf.new).told ≡ (H.shelf shelf.old).told }
    ensures counts { (name : List ℕ) → count_on (H.shelf shelf.old) name ≤ count_on (H.shelf shelf.new) name }
    ensures untold { (D.disk book.old.disk).told ≡ None → (D.disk book.new.disk).told ≡ None }
    ensures disk_count { (D.disk book.old.disk).faults ≤ (D.disk book.new.disk).faults }
{
    let _ = bots(book.state());
    let before = book.state().steps();
    let end = drain_book(alloc, book, shelf, clock, one_at_most(left));
    let left = left_after(left, before, book.state().steps());
    if goes_on(&end, left) {
        Ok(left)
    } else {
        Err(end)
    }
}

// A round of all workers, made durable. Answers how many steps may still be made, or that the disk failed.
fn work<T, D, R, K, H, C, G>(
    rt: &T,
    alloc: Global,
    rules: &R,
    book: Book<D, R>,
    control: &mut K,
    shelf: &mut H,
    clock: &C,
    gate: &G,
    until: Until,
) -> (Book<D, R>, Result<Option<u64>, TurnsEnd>)
where
    T: Threads + Wait + Sync,
    D: Disk + Send,
    R: Rules + Send + Sync,
    R::Plan: Send,
    R::Work: Send,
    K: Source,
    H: Shelf,
    H::Src: Send,
    C: Clock + Sync,
    G: Gate + Sync,
    requires whole { book.broken ≡ false }
    ensures lapped { (first : ShelfView) → first.told ≡ (H.shelf shelf.old).told → HasLapped D.disk (outside R.meaning first (C.told clock.now) book.limit) until.left book result.0 result.1 }
    ensures whole { OnOk result.1 (result.0.broken ≡ false) }
    ensures end { IfErr result.1 (λ end. (end ≡ TurnsEnd.Disk) × (result.0.broken ≡ true) × Rose (D.disk book.disk).faults (D.disk result.0.disk).faults) }
    ensures told { (H.shelf shelf.new).told ≡ (H.shelf shelf.old).told }
    ensures counts { (name : List ℕ) → count_on (H.shelf shelf.old) name ≤ count_on (H.shelf shelf.new) name }
    ensures untold { (D.disk book.disk).told ≡ None → (D.disk result.0.disk).told ≡ None }
    ensures control { ReadsOn (K.source control.old) (K.source control.new) }
    ensures disk_count { (D.disk book.disk).faults ≤ (D.disk result.0.disk).faults }
{
    let before = book.state().steps();
    let book = work_round(rt, alloc, rules, book, control, shelf, clock, gate, until);
    let mut book = book;
    match make_durable(&mut book) {
        Ok(()) => {
            let left = left_after(until.left, before, book.state().steps());
            (book, Ok(left))
        }
        Err(Failed) => (book, Err(TurnsEnd::Disk)),
    }
}

// At most one step, of those that may be made.
fn one_at_most(left: Option<u64>) -> Option<u64>
    ensures { result ≡ one_at_most left }
{
    match left {
        Some(0) => Some(0),
        _ => Some(1),
    }
}

// How many steps may still be made, where there were so many before and are so many after.
pub(crate) fn left_after(left: Option<u64>, before: u64, after: u64) -> Option<u64>
    ensures { (made : ℕ) → after ≡ before + made → result ≡ left_behind left made }
{
    match left {
        Some(most) => Some(most.saturating_sub(after.saturating_sub(before))),
        None => None,
    }
}

// Whether a turn ended only since its one step was made, or might not be.
fn goes_on(end: &TurnsEnd, left: Option<u64>) -> bool
    ensures goes_on { result ≡ true → end.now ≡ TurnsEnd.Left }
    ensures ends { result ≡ false → end.now ≡ TurnsEnd.Left → left ≡ Some 0 }
{
    matches!(end, TurnsEnd::Left) && left != Some(0)
}
