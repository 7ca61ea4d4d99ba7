ghost use Rattle.std.specs.Prelude.{◌≡◌, ◌≢◌, ◌≤◌, ℕ, List, [], length, false, None, Some};
ghost use Rattle.edge_traits.specs.Count.{Rose};
ghost use Rattle.edge_traits.specs.Disk.{Image};
ghost use Rattle.step_code.specs.declared.step.Step.{Step};
ghost use Rattle.store_image.specs.Stands.{Origin};
ghost use Rattle.journal_book.specs.Alone.{LeavesAlone};
ghost use Rattle.journal_book.specs.Opening.{StandsNow};
ghost use Rattle.journal_book.specs.Outputs.{AreCompleted, AreWritten};
ghost use Rattle.book_runs.specs.GoesOn.{GoesOn, IsSameBook};
ghost use Rattle.book_runs.specs.Calls.{IsEarlierIn, StandsOn};
ghost use Rattle.store_commands.specs.Ends.{AreWrittenAt};
ghost use Rattle.store_commands.specs.Completed.{IsCompleted, IsFinished};

use crate::end::end_of;
use crate::printing::print_summary;
use crate::{STEP_BYTES, StoreEnd};
use book_runs::complete_outputs;
use edge_traits::{Disk, Sink};
use journal_book::Book;
use std::alloc::Global;
use step_code::Rules;

/// Makes the steps of a book durable, completes its outputs, and prints the summary of its state where that is asked for. It is
/// a run of the book's calls that makes no step.
///
/// Answers `Done`; `Disk` where the disk failed; `Damaged` at the first output whose file is shorter than what is sealed of it;
/// `Sink` where the output failed, behind completed outputs; or `Memory`.
pub fn finish<D: Disk, R: Rules, S: Sink>(
    alloc: Global,
    book: &mut Book<D, R>,
    is_said: bool,
    out: &mut S,
) -> StoreEnd
    requires whole { book.old.broken ≡ false }

    // What is printed at each end.
    ensures finished { IsFinished is_said book.old.state result (S.sink out.old) (S.sink out.new) }

    // The book stays as it is, and all of its steps are durable, unless the disk failed.
    ensures goes_on { GoesOn D.disk R.meaning book.old book.new [] }
    ensures same { IsSameBook book.old book.new }
    ensures durable { result ≢ StoreEnd.Disk → book.new.kept ≡ length book.new.steps }

    // Each output's file is its sealed front and each line behind it; and it is all lines of the history that the disk stands for,
    // where that began with nothing sealed.
    ensures completed { (files after : Image) → (D.disk book.old.disk).told ≡ Some files → (D.disk book.new.disk).told ≡ Some after
        → AreWrittenAt result (AreCompleted (D.disk book.new.disk).may_leave book.old.state.outs files after) }
    ensures written { (origin : Origin) (history : List Step) → StandsNow R.meaning origin history [] (D.disk book.new.disk)
        → AreWrittenAt result (AreWritten R.meaning origin.first history (D.disk book.new.disk)) }

    // No file is too short where the disk tells what it holds.
    ensures undamaged { (files : Image) (file at : ℕ) → (D.disk book.old.disk).told ≡ Some files → result ≢ StoreEnd.Damaged file at }

    // The outside failed, as its counts show.
    ensures disk { result ≡ StoreEnd.Disk → Rose (D.disk book.old.disk).faults (D.disk book.new.disk).faults }
    ensures sink { result ≡ StoreEnd.Sink → Rose (S.sink out.old).faults (S.sink out.new).faults }
    ensures untold { (D.disk book.old.disk).told ≡ None → (D.disk book.new.disk).told ≡ None }
    ensures disk_count { (D.disk book.old.disk).faults ≤ (D.disk book.new.disk).faults }
    ensures sink_count { (S.sink out.old).faults ≤ (S.sink out.new).faults }
{
    match complete_outputs(book) {
        Ok(()) => {
            if is_said {
                print_summary(alloc, book.state(), out)
            } else {
                StoreEnd::Done
            }
        }
        Err(fault) => end_of(fault),
    }
}

/// Opens a store, completes its outputs, and prints its summary where that is asked for. No step is made. The disk comes back.
pub fn complete<D: Disk, R: Rules, S: Sink>(
    alloc: Global,
    disk: D,
    rules: R,
    is_said: bool,
    out: &mut S,
) -> (StoreEnd, D)
    // Where the disk tells what it holds: what is printed, or what the store is refused for.
    ensures completed { (files : Image) → (D.disk disk).told ≡ Some files
        → IsCompleted R.meaning files is_said result.0 (S.sink out.old) (S.sink out.new) }

    // At any moment of the call, and behind it, the disk stands for the history that it stood for.
    ensures stands { (origin : Origin) (steps more : List Step) → StandsNow R.meaning origin steps more (D.disk disk)
        → StandsOn R.meaning origin steps more (D.disk disk) (D.disk result.1) }

    // Each output's file is all lines of the history that the disk stands for, where that began with nothing sealed.
    ensures written { (origin : Origin) (history : List Step) → StandsNow R.meaning origin history [] (D.disk result.1)
        → AreWrittenAt result.0 (AreWritten R.meaning origin.first history (D.disk result.1)) }

    // The files that are none of its own are left alone, where the disk tells what it holds.
    ensures others { (files : Image) → (D.disk disk).told ≡ Some files → LeavesAlone (D.disk disk) (D.disk result.1) (IsEarlierIn files) }

    // The outside failed, as its counts show.
    ensures disk { result.0 ≡ StoreEnd.Disk → Rose (D.disk disk).faults (D.disk result.1).faults }
    ensures sink { result.0 ≡ StoreEnd.Sink → Rose (S.sink out.old).faults (S.sink out.new).faults }
    ensures disk_count { (D.disk disk).faults ≤ (D.disk result.1).faults }
    ensures sink_count { (S.sink out.old).faults ≤ (S.sink out.new).faults }
{
    match Book::reopen(alloc, disk, rules, STEP_BYTES) {
        Ok(book) => {
            let mut book = book;
            let end = finish(alloc, &mut book, is_said, out);
            (end, book.into_disk())
        }
        Err((fault, disk)) => (end_of(fault), disk),
    }
}
