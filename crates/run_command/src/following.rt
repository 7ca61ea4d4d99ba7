//! Lines of control that are followed: each order is carried out, and laps are made between them.
ghost use Rattle.std.specs.Prelude.{◌≡◌, ◌≢◌, ◌≤◌, ◌↔◌, ℕ, List, [], true, false, None, Some, Ok, Err, OnOk, IfErr, IsErrOf};
ghost use Rattle.bot_rules.specs.Intel.{intel};
ghost use Rattle.collector_feeds.specs.Open.{GoesOn as ReadsOn};
ghost use Rattle.edge_traits.specs.Count.{Rose};
ghost use Rattle.edge_traits.specs.Disk.{Image};
ghost use Rattle.edge_traits.specs.Shelf.{ShelfView, count_on};
ghost use Rattle.edge_traits.specs.Sink.{SinkView};
ghost use Rattle.live_reload.specs.Followed.{HasFollowed};
ghost use Rattle.live_reload.specs.Live.{Follows};
ghost use Rattle.live_reload.specs.declared.order.Order.{Order as Given};
ghost use Rattle.live_reload.specs.declared.word.Word.{Word};
ghost use Rattle.turn_order.specs.Turn.{collectors};
ghost use Rattle.drain_loop.specs.Calls.{outside, IsUndamaged};
ghost use Rattle.drain_loop.specs.Feeds.{FailedBeyond};
ghost use Rattle.run_command.specs.Laps.{HasEnded, HasLapped, HasStepped};

use crate::laps::{lap, left_after};
use bot_runner::Until;
use drain_loop::{open_rounds, reload};
use drain_turns::TurnsEnd;
use edge_traits::{Clock, Disk, Gate, Shelf, Sink, Source};
use journal_book::Book;
use live_reload::{LiveOrders, Order, OrdersEnd};
use std::alloc::Global;
use std::sync::Wait;
use std::thread::Threads;
use step_code::Rules;

// How long a run that stays rests where nothing is left to do, in milliseconds.
const STAY_MILLIS: u64 = 50;

// Follows control, and makes laps where no further line of it is whole, until the run ends. Answers why.
pub(crate) fn run_on<T, D, R, K, H, C, G, S>(
    rt: &T,
    alloc: Global,
    rules: &R,
    book: Book<D, R>,
    live: &mut LiveOrders,
    control: &mut K,
    shelf: &mut H,
    out: &mut S,
    clock: &C,
    gate: &G,
    stay: bool,
    left: Option<u64>,
) -> (Book<D, R>, TurnsEnd)
where
    T: Threads + Wait + Sync,
    D: Disk + Send,
    R: Rules + Send + Sync,
    R::Plan: Send,
    R::Work: Send,
    K: Source,
    H: Shelf,
    H::Src: Send,
    C: Clock + Sync,
    G: Gate + Sync,
    S: Sink,
    requires whole { book.broken ≡ false }
    requires meaning { R.meaning ≡ intel }
    requires follows { Follows (K.source control.old) live.old }
    requires none { live.old.taken ≡ 0 }
    ensures ended { HasEnded D.disk (outside R.meaning (H.shelf shelf.old) (C.told clock.now) book.limit) left book result.0 (K.source control.old).told (H.shelf shelf.new) (S.sink out.old) (S.sink out.new) live.new.end [] result.1 }
    ensures broken { (result.1 ≡ TurnsEnd.Disk) ↔ (result.0.broken ≡ true) }
    ensures undamaged { (files : Image) → (D.disk book.disk).told ≡ Some files → IsUndamaged result.1 }
    ensures disk { result.1 ≡ TurnsEnd.Disk → Rose (D.disk book.disk).faults (D.disk result.0.disk).faults }
    ensures failed { (name : List ℕ) → result.1 ≡ TurnsEnd.Failed name → FailedBeyond (collectors R.meaning result.0.state) (H.shelf shelf.old) (H.shelf shelf.new) name }
    ensures stays { stay ≡ true → result.1 ≢ TurnsEnd.Idle }
    ensures read { live.new.end ≡ OrdersEnd.Control → Rose (K.source control.old).faults (K.source control.new).faults }
    ensures printed { live.new.end ≡ OrdersEnd.Sink → Rose (S.sink out.old).faults (S.sink out.new).faults }
    ensures told { (H.shelf shelf.new).told ≡ (H.shelf shelf.old).told }
    ensures counts { (name : List ℕ) → count_on (H.shelf shelf.old) name ≤ count_on (H.shelf shelf.new) name }
    ensures control { (K.source control.old).faults ≤ (K.source control.new).faults }
    ensures out { (S.sink out.old).faults ≤ (S.sink out.new).faults }
    ensures untold { (D.disk book.disk).told ≡ None → (D.disk result.0.disk).told ≡ None }
    ensures disk_count { (D.disk book.disk).faults ≤ (D.disk result.0.disk).faults }
{
    let mut book = book;
    let mut left = left;
    'steps: for _ in rt.forever() {
        let (back, stepped) = step_on(
            rt, alloc, rules, book, live, control, shelf, out, clock, gate, stay, left,
        );
        book = back;
        match stepped {
            Ok(now) => left = now,
            Err(end) => return (book, end),
        }
    }
    unreachable!()
}

// The next order, which is carried out, or a lap where no further line of control is whole. Answers how many steps may still be made, or
// why the run ends.
fn step_on<T, D, R, K, H, C, G, S>(
    rt: &T,
    alloc: Global,
    rules: &R,
    book: Book<D, R>,
    live: &mut LiveOrders,
    control: &mut K,
    shelf: &mut H,
    out: &mut S,
    clock: &C,
    gate: &G,
    stay: bool,
    left: Option<u64>,
) -> (Book<D, R>, Result<Option<u64>, TurnsEnd>)
where
    T: Threads + Wait + Sync,
    D: Disk + Send,
    R: Rules + Send + Sync,
    R::Plan: Send,
    R::Work: Send,
    K: Source,
    H: Shelf,
    H::Src: Send,
    C: Clock + Sync,
    G: Gate + Sync,
    S: Sink,
    requires whole { book.broken ≡ false }
    requires meaning { R.meaning ≡ intel }
    requires follows { Follows (K.source control.old) live.old }
    ensures stepped { (first : ShelfView) (before : SinkView) (lines : List (Word × Given)) → first.told ≡ (H.shelf shelf.old).told → ((name : List ℕ) → count_on first name ≤ count_on (H.shelf shelf.old) name)
        → HasFollowed (K.source control.old).told first (H.shelf shelf.old) before (S.sink out.old) live.old.taken lines
        → HasStepped D.disk (outside R.meaning first (C.told clock.now) book.limit) left book result.0 (K.source control.old).told (H.shelf shelf.new) before (S.sink out.new) live.new.taken live.new.end lines result.1 }
    ensures follows { Follows (K.source control.new) live.new }
    ensures whole { OnOk result.1 (result.0.broken ≡ false) }
    ensures broken { IfErr result.1 (λ end. (end ≡ TurnsEnd.Disk) ↔ (result.0.broken ≡ true)) }
    ensures undamaged { (files : Image) → (D.disk book.disk).told ≡ Some files → IfErr result.1 IsUndamaged }
    ensures disk { IsErrOf result.1 TurnsEnd.Disk → Rose (D.disk book.disk).faults (D.disk result.0.disk).faults }
    ensures failed { (name : List ℕ) → result.1 ≡ Err (TurnsEnd.Failed name) → FailedBeyond (collectors R.meaning result.0.state) (H.shelf shelf.old) (H.shelf shelf.new) name }
    ensures stays { stay ≡ true → IsErrOf result.1 TurnsEnd.Idle → ⊥ }
    ensures read { live.new.end ≡ OrdersEnd.Control → Rose (K.source control.old).faults (K.source control.new).faults }
    ensures printed { live.new.end ≡ OrdersEnd.Sink → Rose (S.sink out.old).faults (S.sink out.new).faults }
    ensures same { (K.source control.new).told ≡ (K.source control.old).told }
    ensures control { (K.source control.old).faults ≤ (K.source control.new).faults }
    ensures told { (H.shelf shelf.new).told ≡ (H.shelf shelf.old).told }
    ensures counts { (name : List ℕ) → count_on (H.shelf shelf.old) name ≤ count_on (H.shelf shelf.new) name }
    ensures out { (S.sink out.old).faults ≤ (S.sink out.new).faults }
    ensures untold { (D.disk book.disk).told ≡ None → (D.disk result.0.disk).told ≡ None }
    ensures disk_count { (D.disk book.disk).faults ≤ (D.disk result.0.disk).faults }
{
    let mut book = book;
    match live.next(alloc, control, shelf, out) {
        Order::Nothing => {
            if live.end() == OrdersEnd::AtEnd {
                let until = Until {
                    left,
                    control: live.watched(),
                };
                stay_on(
                    rt, alloc, rules, book, control, shelf, clock, gate, stay, until,
                )
            } else {
                (book, Ok(left))
            }
        }
        Order::Reload(code) => {
            let came = reload(&mut book, clock, Some(code), left);
            (book, came)
        }
        Order::Round => {
            let came = open_rounds(alloc, &mut book, clock, left);
            (book, came)
        }
        Order::Stop | Order::Failed => (book, Err(TurnsEnd::Left)),
        Order::OutOfMemory => (book, Err(TurnsEnd::Memory)),
    }
}

// A lap. Where nothing is left to do, a run that stays rests, and goes on.
fn stay_on<T, D, R, K, H, C, G>(
    rt: &T,
    alloc: Global,
    rules: &R,
    book: Book<D, R>,
    control: &mut K,
    shelf: &mut H,
    clock: &C,
    gate: &G,
    stay: bool,
    until: Until,
) -> (Book<D, R>, Result<Option<u64>, TurnsEnd>)
where
    T: Threads + Wait + Sync,
    D: Disk + Send,
    R: Rules + Send + Sync,
    R::Plan: Send,
    R::Work: Send,
    K: Source,
    H: Shelf,
    H::Src: Send,
    C: Clock + Sync,
    G: Gate + Sync,
    requires whole { book.broken ≡ false }
    ensures lapped { (first : ShelfView) → first.told ≡ (H.shelf shelf.old).told → HasLapped D.disk (outside R.meaning first (C.told clock.now) book.limit) until.left book result.0 result.1 }
    ensures whole { OnOk result.1 (result.0.broken ≡ false) }
    ensures broken { IfErr result.1 (λ end. (end ≡ TurnsEnd.Disk) ↔ (result.0.broken ≡ true)) }
    ensures undamaged { (files : Image) → (D.disk book.disk).told ≡ Some files → IfErr result.1 IsUndamaged }
    ensures disk { IsErrOf result.1 TurnsEnd.Disk → Rose (D.disk book.disk).faults (D.disk result.0.disk).faults }
    ensures failed { (name : List ℕ) → result.1 ≡ Err (TurnsEnd.Failed name) → FailedBeyond (collectors R.meaning result.0.state) (H.shelf shelf.old) (H.shelf shelf.new) name }
    ensures stays { stay ≡ true → IsErrOf result.1 TurnsEnd.Idle → ⊥ }
    ensures control { ReadsOn (K.source control.old) (K.source control.new) }
    ensures told { (H.shelf shelf.new).told ≡ (H.shelf shelf.old).told }
    ensures counts { (name : List ℕ) → count_on (H.shelf shelf.old) name ≤ count_on (H.shelf shelf.new) name }
    ensures untold { (D.disk book.disk).told ≡ None → (D.disk result.0.disk).told ≡ None }
    ensures disk_count { (D.disk book.disk).faults ≤ (D.disk result.0.disk).faults }
{
    let before = book.state().steps();
    let (book, lapped) = lap(rt, alloc, rules, book, control, shelf, clock, gate, until);
    match lapped {
        Err(TurnsEnd::Idle) if stay => {
            gate.rest(STAY_MILLIS);
            let left = left_after(until.left, before, book.state().steps());
            (book, Ok(left))
        }
        lapped => (book, lapped),
    }
}
