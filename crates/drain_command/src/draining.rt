ghost use Rattle.std.specs.Prelude.{◌≡◌, ◌≤◌, ◌↔◌, ℕ, List, false, Some, IsSome, Ok, IfErr, IsErrOf};
ghost use Rattle.edge_traits.specs.Count.{Rose};
ghost use Rattle.edge_traits.specs.Disk.{Image};
ghost use Rattle.edge_traits.specs.Shelf.{count_on};
ghost use Rattle.step_code.specs.declared.base.Base.{Base};
ghost use Rattle.journal_book.specs.Alone.{LeavesAlone};
ghost use Rattle.book_runs.specs.Calls.{IsEarlierIn};
ghost use Rattle.store_commands.specs.Ends.{most_step_bytes};
ghost use Rattle.turn_order.specs.Turn.{collectors};
ghost use Rattle.drain_turns.specs.declared.end.TurnsEnd.{TurnsEnd as Last};
ghost use Rattle.drain_loop.specs.Calls.{outside};
ghost use Rattle.drain_loop.specs.Feeds.{FailedBeyond};
ghost use Rattle.drain_command.specs.Drained.{IsDrainCall, IsToldEnd, MayEndDrain};
ghost use Rattle.drain_command.specs.Turned.{ended};

use crate::turning::make_turns;
use drain_loop::Opening;
use drain_turns::TurnsEnd;
use edge_traits::{Clock, Disk, Shelf, Sink};
use history_laws::each_message_stands_in_one_place;
use journal_book::Book;
use std::alloc::Global;
use step_code::Rules;
use store_commands::{STEP_BYTES, StoreEnd, end_of, finish};

/// What a drain is asked for.
#[derive(Debug, Drop)]
pub struct Asked {
    /// What it does ahead of its turns.
    pub opening: Opening,
    /// It makes at most so many steps, those of the opening among them.
    pub left: Option<u64>,
}

/// Opens a store, and makes the steps of turns on one thread until nothing is left to do, or another cause of `TurnsEnd`
/// comes. Where more than half of a generation is taken, the next one is begun ahead of the next step. The steps are made durable, the
/// outputs are completed, and the summary of the state is printed. The disk comes back.
///
/// # Errors
///
/// `Memory` where there was none: nothing is printed, and where the store was opened its steps are durable. `Disk` where the disk
/// failed. `Sink` where the output failed: the steps are durable, and the outputs are complete. `Store` with 0 bytes where there is
/// no store. `Damaged` where it is damaged; that an output's file is too short may be found on the way too, ahead of a step.
pub fn drain<D: Disk, R: Rules, H: Shelf, C: Clock, S: Sink>(
    alloc: Global,
    disk: D,
    rules: R,
    shelf: &mut H,
    clock: &C,
    asked: Asked,
    out: &mut S,
) -> (Result<TurnsEnd, StoreEnd>, D)
    requires loads { (bundle : List ℕ) → asked.opening.bundle ≡ Some bundle → IsSome (R.meaning.facts bundle) }

    // Where the disk tells what it holds: the steps that were made, one by one as they were due, and why there are no more, a feed
    // that failed only beyond the retries of the state that they led to; what a crash leaves of the store's history at any moment;
    // and what is printed. Or what the store is refused for.
    ensures drained { (files : Image) → (D.disk disk).told ≡ Some files
        → IsDrainCall D.disk (outside R.meaning (H.shelf shelf.old) (C.told clock.now) most_step_bytes) (H.shelf shelf.new) files asked (D.disk disk) (D.disk result.1) result.0 (S.sink out.old) (S.sink out.new) }

    // The files that are none of its own are left alone, where the disk tells what it holds.
    ensures others { (files : Image) → (D.disk disk).told ≡ Some files → LeavesAlone (D.disk disk) (D.disk result.1) (IsEarlierIn files) }

    // The turns that are told ended by a cause of theirs, and no other end of a store comes than these.
    ensures plain { (why : Last) → result.0 ≡ Ok why → IsToldEnd why }
    ensures ends { IfErr result.0 MayEndDrain }

    // The outside failed, as its counts show: a feed more often than its collector tries again.
    ensures disk { IsErrOf result.0 StoreEnd.Disk → Rose (D.disk disk).faults (D.disk result.1).faults }
    ensures sink { IsErrOf result.0 StoreEnd.Sink → Rose (S.sink out.old).faults (S.sink out.new).faults }
    ensures failed { (name : List ℕ) → result.0 ≡ Ok (Last.Failed name) → (s : Base) × FailedBeyond (collectors R.meaning s) (H.shelf shelf.old) (H.shelf shelf.new) name }
    ensures told { (H.shelf shelf.new).told ≡ (H.shelf shelf.old).told }
    ensures counts { (name : List ℕ) → count_on (H.shelf shelf.old) name ≤ count_on (H.shelf shelf.new) name }
    ensures disk_count { (D.disk disk).faults ≤ (D.disk result.1).faults }
    ensures sink_count { (S.sink out.old).faults ≤ (S.sink out.new).faults }
{
    // Nothing is lost and nothing is invented in a legal history.
    each_message_stands_in_one_place::<R>();
    match Book::reopen(alloc, disk, rules, STEP_BYTES) {
        Ok(book) => {
            let mut book = book;
            let last = make_turns(alloc, &mut book, shelf, clock, asked);
            match last {
                TurnsEnd::Disk => (Err(StoreEnd::Disk), book.into_disk()),
                TurnsEnd::Damaged { file, at } => {
                    (Err(StoreEnd::Damaged { file, at }), book.into_disk())
                }
                _ => {
                    let is_said = has_memory(&last);
                    let end = finish(alloc, &mut book, is_said, out);
                    (ended(end, is_said, last), book.into_disk())
                }
            }
        }
        Err((fault, disk)) => (Err(end_of(fault)), disk),
    }
}

/// Whether it wasn't want of memory that ended the turns: then the summary is printed.
pub fn has_memory(last: &TurnsEnd) -> bool
    ensures { (result ≡ false) ↔ (last.now ≡ TurnsEnd.Memory) }
{
    !matches!(last, TurnsEnd::Memory)
}

/// How the command ends whose book was finished so, with its summary or without, behind these turns.
pub fn ended(end: StoreEnd, is_said: bool, last: TurnsEnd) -> Result<TurnsEnd, StoreEnd>
    ensures { result ≡ ended end is_said last }
{
    match end {
        StoreEnd::Done => {
            if is_said {
                Ok(last)
            } else {
                Err(StoreEnd::Memory)
            }
        }
        other => Err(other),
    }
}
