ghost use Rattle.std.specs.Prelude.{◌≡◌, ◌≤◌, ◌↔◌, ℕ, List, true, false, Some, None, IsSome};
ghost use Rattle.edge_traits.specs.Count.{Rose};
ghost use Rattle.edge_traits.specs.Disk.{Image};
ghost use Rattle.edge_traits.specs.Shelf.{count_on};
ghost use Rattle.turn_order.specs.Turn.{collectors};
ghost use Rattle.drain_turns.specs.Drained.{Drains};
ghost use Rattle.drain_loop.specs.Calls.{outside, IsUndamaged};
ghost use Rattle.drain_loop.specs.Feeds.{FailedBeyond};
ghost use Rattle.drain_command.specs.Turned.{IsTurned};

use crate::Asked;
use drain_loop::{drain_book, open_turns};
use drain_turns::TurnsEnd;
use edge_traits::{Clock, Disk, Shelf};
use journal_book::Book;
use std::alloc::Global;
use step_code::Rules;

// The steps of the opening, and then those of turns. Answers why there are no more.
pub(crate) fn make_turns<D: Disk, R: Rules, H: Shelf, C: Clock>(
    alloc: Global,
    book: &mut Book<D, R>,
    shelf: &mut H,
    clock: &C,
    asked: Asked,
) -> TurnsEnd
    requires whole { book.old.broken ≡ false }
    requires loads { (bundle : List ℕ) → asked.opening.bundle ≡ Some bundle → IsSome (R.meaning.facts bundle) }
    ensures turned { IsTurned D.disk Drains (outside R.meaning (H.shelf shelf.old) (C.told clock.now) book.old.limit) asked book.old book.new result }
    ensures broken { (result ≡ TurnsEnd.Disk) ↔ (book.new.broken ≡ true) }
    ensures undamaged { (files : Image) → (D.disk book.old.disk).told ≡ Some files → IsUndamaged result }
    ensures disk { result ≡ TurnsEnd.Disk → Rose (D.disk book.old.disk).faults (D.disk book.new.disk).faults }
    ensures failed { (name : List ℕ) → result ≡ TurnsEnd.Failed name → FailedBeyond (collectors R.meaning book.new.state) (H.shelf shelf.old) (H.shelf shelf.new) name }
    ensures told { (H.shelf shelf.new).told ≡ (H.shelf shelf.old).told }
    ensures counts { (name : List ℕ) → count_on (H.shelf shelf.old) name ≤ count_on (H.shelf shelf.new) name }
    ensures untold { (D.disk book.old.disk).told ≡ None → (D.disk book.new.disk).told ≡ None }
    ensures disk_count { (D.disk book.old.disk).faults ≤ (D.disk book.new.disk).faults }
{
    let Asked { opening, left } = asked;
    match open_turns(alloc, book, clock, opening, left) {
        Ok(left) => drain_book(alloc, book, shelf, clock, left),
        Err(end) => end,
    }
}
