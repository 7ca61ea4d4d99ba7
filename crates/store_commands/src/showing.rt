ghost use Rattle.std.specs.Prelude.{◌≡◌, ◌≤◌, List, Some};
ghost use Rattle.edge_traits.specs.Count.{Rose};
ghost use Rattle.edge_traits.specs.Disk.{Image};
ghost use Rattle.step_code.specs.declared.step.Step.{Step};
ghost use Rattle.store_image.specs.Stands.{Origin};
ghost use Rattle.journal_book.specs.Alone.{IsBeside, LeavesAlone};
ghost use Rattle.journal_book.specs.Opening.{StandsNow};
ghost use Rattle.book_runs.specs.Calls.{StandsOn};
ghost use Rattle.store_commands.specs.Ends.{IsShown};

use crate::end::end_of;
use crate::printing::print;
use crate::{STEP_BYTES, Shown, StoreEnd};
use edge_traits::{Disk, Sink};
use journal_book::Book;
use std::alloc::Global;
use step_code::Rules;

/// Opens a store, and prints what is asked for of its state. No step is made. The disk comes back.
pub fn show<D: Disk, R: Rules, S: Sink>(
    alloc: Global,
    disk: D,
    rules: R,
    what: Shown,
    out: &mut S,
) -> (StoreEnd, D)
    // Where the disk tells what it holds: what is printed, or what the store is refused for.
    ensures shown { (files : Image) → (D.disk disk).told ≡ Some files
        → IsShown R.meaning files what result.0 (S.sink out.old) (S.sink out.new) }

    // At any moment of the call, and behind it, the disk stands for the history that it stood for.
    ensures stands { (origin : Origin) (steps more : List Step) → StandsNow R.meaning origin steps more (D.disk disk)
        → StandsOn R.meaning origin steps more (D.disk disk) (D.disk result.1) }

    // The files that are none of its own are left alone, where the disk tells what it holds.
    ensures others { (files : Image) → (D.disk disk).told ≡ Some files → LeavesAlone (D.disk disk) (D.disk result.1) (IsBeside files) }

    // The outside failed, as its counts show.
    ensures disk { result.0 ≡ StoreEnd.Disk → Rose (D.disk disk).faults (D.disk result.1).faults }
    ensures sink { result.0 ≡ StoreEnd.Sink → Rose (S.sink out.old).faults (S.sink out.new).faults }
    ensures disk_count { (D.disk disk).faults ≤ (D.disk result.1).faults }
    ensures sink_count { (S.sink out.old).faults ≤ (S.sink out.new).faults }
{
    match Book::reopen(alloc, disk, rules, STEP_BYTES) {
        Ok(book) => {
            let end = print(alloc, book.state(), what, out);
            (end, book.into_disk())
        }
        Err((fault, disk)) => (end_of(fault), disk),
    }
}
