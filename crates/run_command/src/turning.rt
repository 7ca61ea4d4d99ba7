ghost use Rattle.std.specs.Prelude.{◌≡◌, ◌≢◌, ◌≤◌, ◌↔◌, ℕ, List, true, false, Some, None, IsSome};
ghost use Rattle.bot_rules.specs.Intel.{intel};
ghost use Rattle.edge_traits.specs.Count.{Rose};
ghost use Rattle.edge_traits.specs.Disk.{Image};
ghost use Rattle.edge_traits.specs.Shelf.{count_on};
ghost use Rattle.live_reload.specs.Live.{Follows};
ghost use Rattle.turn_order.specs.Turn.{collectors};
ghost use Rattle.drain_loop.specs.Calls.{outside, IsUndamaged};
ghost use Rattle.drain_loop.specs.Feeds.{FailedBeyond};
ghost use Rattle.run_command.specs.Laps.{HasTurned};

use crate::following::run_on;
use drain_command::Asked;
use drain_loop::open_turns;
use drain_turns::TurnsEnd;
use edge_traits::{Clock, Disk, Gate, Shelf, Sink, Source};
use journal_book::Book;
use live_reload::{LiveOrders, OrdersEnd};
use std::alloc::Global;
use std::sync::Wait;
use std::thread::Threads;
use step_code::Rules;

// The steps of the opening, and then those of the workers and of orders. Answers why there are no more.
pub(crate) fn run_turns<T, D, R, K, H, C, G, S>(
    rt: &T,
    alloc: Global,
    rules: &R,
    book: Book<D, R>,
    live: &mut LiveOrders,
    control: &mut K,
    shelf: &mut H,
    out: &mut S,
    clock: &C,
    gate: &G,
    stay: bool,
    asked: Asked,
) -> (Book<D, R>, TurnsEnd)
where
    T: Threads + Wait + Sync,
    D: Disk + Send,
    R: Rules + Send + Sync,
    R::Plan: Send,
    R::Work: Send,
    K: Source,
    H: Shelf,
    H::Src: Send,
    C: Clock + Sync,
    G: Gate + Sync,
    S: Sink,
    requires whole { book.broken ≡ false }
    requires meaning { R.meaning ≡ intel }
    requires loads { (bundle : List ℕ) → asked.opening.bundle ≡ Some bundle → IsSome (R.meaning.facts bundle) }
    requires follows { Follows (K.source control.old) live.old }
    requires none { live.old.taken ≡ 0 }
    requires open { live.old.end ≡ OrdersEnd.Open }
    ensures turned { HasTurned D.disk (outside R.meaning (H.shelf shelf.old) (C.told clock.now) book.limit) asked book result.0 (K.source control.old).told (H.shelf shelf.new) (S.sink out.old) (S.sink out.new) live.new.end result.1 }
    ensures broken { (result.1 ≡ TurnsEnd.Disk) ↔ (result.0.broken ≡ true) }
    ensures undamaged { (files : Image) → (D.disk book.disk).told ≡ Some files → IsUndamaged result.1 }
    ensures disk { result.1 ≡ TurnsEnd.Disk → Rose (D.disk book.disk).faults (D.disk result.0.disk).faults }
    ensures failed { (name : List ℕ) → result.1 ≡ TurnsEnd.Failed name → FailedBeyond (collectors R.meaning result.0.state) (H.shelf shelf.old) (H.shelf shelf.new) name }
    ensures stays { stay ≡ true → result.1 ≢ TurnsEnd.Idle }
    ensures read { live.new.end ≡ OrdersEnd.Control → Rose (K.source control.old).faults (K.source control.new).faults }
    ensures printed { live.new.end ≡ OrdersEnd.Sink → Rose (S.sink out.old).faults (S.sink out.new).faults }
    ensures told { (H.shelf shelf.new).told ≡ (H.shelf shelf.old).told }
    ensures counts { (name : List ℕ) → count_on (H.shelf shelf.old) name ≤ count_on (H.shelf shelf.new) name }
    ensures control { (K.source control.old).faults ≤ (K.source control.new).faults }
    ensures out { (S.sink out.old).faults ≤ (S.sink out.new).faults }
    ensures untold { (D.disk book.disk).told ≡ None → (D.disk result.0.disk).told ≡ None }
    ensures disk_count { (D.disk book.disk).faults ≤ (D.disk result.0.disk).faults }
{
    let Asked { opening, left } = asked;
    let mut book = book;
    match open_turns(alloc, &mut book, clock, opening, left) {
        Ok(left) => run_on(
            rt, alloc, rules, book, live, control, shelf, out, clock, gate, stay, left,
        ),
        Err(end) => (book, end),
    }
}
