ghost use Rattle.std.specs.Prelude.{◌≡◌, ◌≢◌, ◌≤◌, List, length, Some, IfOk, IsErr, ⊤};
ghost use Rattle.edge_traits.specs.Count.{Rose};
ghost use Rattle.edge_traits.specs.Disk.{Image};
ghost use Rattle.step_code.specs.declared.step.Step.{Step};
ghost use Rattle.step_code.specs.Rules.{Meaning};
ghost use Rattle.store_image.specs.Files.{root_file};
ghost use Rattle.store_image.specs.Stands.{Origin};
ghost use Rattle.journal_book.specs.Alone.{IsBesideNew, LeavesAlone};
ghost use Rattle.journal_book.specs.Opening.{StandsNow};
ghost use Rattle.book_runs.specs.Calls.{StandsOn};
ghost use Rattle.store_commands.specs.Begun.{IsBegun, IsMade, IsMadeWhole, IsNewStore};

use crate::end::end_of;
use crate::printing::print_summary;
use crate::{STEP_BYTES, StoreEnd};
use base_types::Blob;
use edge_traits::{Disk, Failed, Sink};
use history_laws::legal_histories_leave_sound_states;
use journal_book::Book;
use std::alloc::Global;
use step_code::Rules;
use store_image::ROOT;

/// Makes a store of this bundle on a disk whose root is empty, and prints the summary of its first state. The disk comes back.
pub fn init<D: Disk, R: Rules, S: Sink>(
    alloc: Global,
    disk: D,
    rules: R,
    bundle: &Blob,
    out: &mut S,
) -> (StoreEnd, D)
    // Where the disk tells what it holds: what is printed, or why no store is made.
    ensures made { (files : Image) → (D.disk disk).told ≡ Some files
        → IsMade R.meaning files bundle.now result.0 (S.sink out.old) (S.sink out.new) }

    // A store that was made stands for no steps, whatever a crash leaves from now on: a later call begins with that.
    ensures stands { (files : Image) → (D.disk disk).told ≡ Some files → IsMadeWhole result.0
        → IsBegun R.meaning bundle.now (D.disk result.1) }

    // A store that was there is left alone, at any moment of the call and behind it.
    ensures left_alone { (origin : Origin) (steps more : List Step) → StandsNow R.meaning origin steps more (D.disk disk)
        → StandsOn R.meaning origin steps more (D.disk disk) (D.disk result.1) }

    // The files that are none of its own are left alone, where the disk tells what it holds.
    ensures others { (files : Image) → (D.disk disk).told ≡ Some files → LeavesAlone (D.disk disk) (D.disk result.1) (IsBesideNew files) }

    // The outside failed, as its counts show.
    ensures disk { result.0 ≡ StoreEnd.Disk → Rose (D.disk disk).faults (D.disk result.1).faults }
    ensures sink { result.0 ≡ StoreEnd.Sink → Rose (S.sink out.old).faults (S.sink out.new).faults }
    ensures disk_count { (D.disk disk).faults ≤ (D.disk result.1).faults }
    ensures sink_count { (S.sink out.old).faults ≤ (S.sink out.new).faults }
{
    // The first state of a bundle that loads is sound but for the length of its code.
    legal_histories_leave_sound_states::<R>();
    match Book::create(alloc, disk, rules, bundle, STEP_BYTES) {
        Ok(book) => {
            let end = print_summary(alloc, book.state(), out);
            (end, book.into_disk())
        }
        Err((fault, disk)) => (end_of(fault), disk),
    }
}

/// Makes a store of this bundle on a disk whose root is empty. The disk comes back.
pub fn make_store<D: Disk, R: Rules>(
    alloc: Global,
    disk: D,
    rules: R,
    bundle: &Blob,
) -> (StoreEnd, D)
    // Where the disk tells what it holds: a store was made, or why none was.
    ensures made { (files : Image) → (D.disk disk).told ≡ Some files → IsNewStore R.meaning files bundle.now result.0 }

    // A store that was made stands for no steps, whatever a crash leaves from now on.
    ensures stands { (files : Image) → (D.disk disk).told ≡ Some files → result.0 ≡ StoreEnd.Done
        → IsBegun R.meaning bundle.now (D.disk result.1) }

    // A store that was there is left alone, at any moment of the call and behind it.
    ensures left_alone { (origin : Origin) (steps more : List Step) → StandsNow R.meaning origin steps more (D.disk disk)
        → StandsOn R.meaning origin steps more (D.disk disk) (D.disk result.1) }

    // The files that are none of its own are left alone, where the disk tells what it holds.
    ensures others { (files : Image) → (D.disk disk).told ≡ Some files → LeavesAlone (D.disk disk) (D.disk result.1) (IsBesideNew files) }

    // Nothing is printed.
    ensures unprinted { result.0 ≢ StoreEnd.Sink }

    // The disk failed, as its count shows.
    ensures disk { result.0 ≡ StoreEnd.Disk → Rose (D.disk disk).faults (D.disk result.1).faults }
    ensures disk_count { (D.disk disk).faults ≤ (D.disk result.1).faults }
{
    // The first state of a bundle that loads is sound but for the length of its code.
    legal_histories_leave_sound_states::<R>();
    match Book::create(alloc, disk, rules, bundle, STEP_BYTES) {
        Ok(book) => (StoreEnd::Done, book.into_disk()),
        Err((fault, disk)) => (end_of(fault), disk),
    }
}

/// How many bytes the root of a store has: none where there is no store. The disk is only read.
///
/// # Errors
///
/// The disk failed.
pub fn find_store<D: Disk>(disk: &mut D) -> Result<u64, Failed>
    ensures length { (files : Image) → (D.disk disk.old).told ≡ Some files → IfOk result (λ n. n ≡ length (files root_file)) }
    ensures stands { (m : Meaning) (origin : Origin) (steps more : List Step) → StandsNow m origin steps more (D.disk disk.old)
        → StandsOn m origin steps more (D.disk disk.old) (D.disk disk.new) }
    ensures told { (D.disk disk.new).told ≡ (D.disk disk.old).told }
    ensures others { LeavesAlone (D.disk disk.old) (D.disk disk.new) (λ file. ⊤) }
    ensures failed { IsErr result → Rose (D.disk disk.old).faults (D.disk disk.new).faults }
    ensures count { (D.disk disk.old).faults ≤ (D.disk disk.new).faults }
{
    disk.len(ROOT)
}
