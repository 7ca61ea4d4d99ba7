ghost use Rattle.std.specs.Prelude.{◌≡◌, ◌≢◌, ◌≤◌, ℕ, [], false, length, List, Some};
ghost use Rattle.edge_traits.specs.Count.{Rose};
ghost use Rattle.edge_traits.specs.Disk.{Image};
ghost use Rattle.step_code.specs.declared.step.Step.{Step};
ghost use Rattle.store_image.specs.Stands.{Origin};
ghost use Rattle.journal_book.specs.Alone.{LeavesAlone};
ghost use Rattle.journal_book.specs.Opening.{StandsNow};
ghost use Rattle.journal_book.specs.Outputs.{AreWritten};
ghost use Rattle.book_runs.specs.Commit.{commit_cause};
ghost use Rattle.book_runs.specs.Calls.{IsEarlierIn, StandsOn};
ghost use Rattle.store_commands.specs.Ends.{AreWrittenAt};
ghost use Rattle.store_commands.specs.Redone.{redo_step, IsRedoCall, IsRedoEnd, IsRedone, RedoesStep, Redid};

use crate::completing::finish;
use crate::end::{end_of, refusal_end};
use crate::{STEP_BYTES, StoreEnd};
use book_runs::{CommitFault, commit};
use edge_traits::{Disk, Sink};
use history_laws::each_message_stands_in_one_place;
use journal_book::{Book, Move};
use std::alloc::Global;
use step_code::Rules;

/// Opens a store, and puts the message of the dump of this number at the end of its bot's queue again, as one step, when the
/// clock shows this moment in seconds since 1970. Where more than half of the generation is taken, the next one is begun first. The step
/// is made durable, the outputs are completed, and the summary of the state behind the step is printed. The disk comes back.
pub fn redo<D: Disk, R: Rules, S: Sink>(
    alloc: Global,
    disk: D,
    rules: R,
    dump: u64,
    now: u64,
    out: &mut S,
) -> (StoreEnd, D)
    // Where the disk tells what it holds: what is printed, what refuses the step, or what the store is refused for.
    ensures redone { (files : Image) → (D.disk disk).told ≡ Some files
        → IsRedone R.meaning files dump now result.0 (S.sink out.old) (S.sink out.new) }

    // At any moment of the call, and behind it, the disk stands for the history that it stood for, or for that and the step.
    ensures stands { (origin : Origin) (steps more : List Step) → StandsNow R.meaning origin steps more (D.disk disk)
        → IsRedoCall result.0 (StandsOn R.meaning origin steps more (D.disk disk) (D.disk result.1))
        (RedoesStep D.disk R.meaning origin steps more (D.disk disk) (D.disk result.1) dump now) }

    // Each output's file is all lines of the history that the disk stands for, where that began with nothing sealed.
    ensures written { (origin : Origin) (history : List Step) → StandsNow R.meaning origin history [] (D.disk result.1)
        → AreWrittenAt result.0 (AreWritten R.meaning origin.first history (D.disk result.1)) }

    // The files that are none of its own are left alone, where the disk tells what it holds.
    ensures others { (files : Image) → (D.disk disk).told ≡ Some files → LeavesAlone (D.disk disk) (D.disk result.1) (IsEarlierIn files) }

    // The outside failed, as its counts show.
    ensures disk { result.0 ≡ StoreEnd.Disk → Rose (D.disk disk).faults (D.disk result.1).faults }
    ensures sink { result.0 ≡ StoreEnd.Sink → Rose (S.sink out.old).faults (S.sink out.new).faults }
    ensures disk_count { (D.disk disk).faults ≤ (D.disk result.1).faults }
    ensures sink_count { (S.sink out.old).faults ≤ (S.sink out.new).faults }
{
    // Nothing is lost and nothing is invented in a legal history.
    each_message_stands_in_one_place::<R>();
    match Book::reopen(alloc, disk, rules, STEP_BYTES) {
        Ok(book) => {
            let mut book = book;
            let end = redo_dump(alloc, &mut book, dump, now, out);
            (end, book.into_disk())
        }
        Err((fault, disk)) => (end_of(fault), disk),
    }
}

// Makes the step, and completes the outputs, whatever refuses the step. The summary is printed where the step was made.
fn redo_dump<D: Disk, R: Rules, S: Sink>(
    alloc: Global,
    book: &mut Book<D, R>,
    dump: u64,
    now: u64,
    out: &mut S,
) -> StoreEnd
    requires whole { book.old.broken ≡ false }
    ensures end { IsRedoEnd R.meaning book.old.state (commit_cause R.meaning book.old (redo_step book.old.state dump now)) dump now result (S.sink out.old) (S.sink out.new) }
    ensures run { Redid D.disk R.meaning book.old book.new (redo_step book.old.state dump now) result }
    ensures durable { result ≢ StoreEnd.Disk → ((file at : ℕ) → result ≢ StoreEnd.Damaged file at) → book.new.kept ≡ length book.new.steps }
    ensures written { (origin : Origin) (history : List Step) → StandsNow R.meaning origin history [] (D.disk book.new.disk)
        → AreWrittenAt result (AreWritten R.meaning origin.first history (D.disk book.new.disk)) }
    ensures undamaged { (files : Image) (file at : ℕ) → (D.disk book.old.disk).told ≡ Some files → result ≢ StoreEnd.Damaged file at }
    ensures disk { result ≡ StoreEnd.Disk → Rose (D.disk book.old.disk).faults (D.disk book.new.disk).faults }
    ensures sink { result ≡ StoreEnd.Sink → Rose (S.sink out.old).faults (S.sink out.new).faults }
    ensures disk_count { (D.disk book.old.disk).faults ≤ (D.disk book.new.disk).faults }
    ensures sink_count { (S.sink out.old).faults ≤ (S.sink out.new).faults }
{
    match commit(book, now, Move::Redo { dump }) {
        Ok(_) => finish(alloc, book, true, out),
        Err(CommitFault::Disk) => StoreEnd::Disk,
        Err(CommitFault::Damaged { file, at }) => StoreEnd::Damaged { file, at },
        Err(CommitFault::Refused(refusal)) => match finish(alloc, book, false, out) {
            StoreEnd::Done => refusal_end(dump, refusal),
            other => other,
        },
    }
}
