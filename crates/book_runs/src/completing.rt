ghost use Rattle.std.specs.Prelude.{◌≡◌, ◌≢◌, ◌≤◌, List, [], false, length, None, Some, Err, IfErr, IsErrOf, OnOk};
ghost use Rattle.edge_traits.specs.Count.{Rose};
ghost use Rattle.edge_traits.specs.Disk.{Image};
ghost use Rattle.step_code.specs.declared.step.Step.{Step};
ghost use Rattle.store_image.specs.Stands.{Origin};
ghost use Rattle.journal_book.specs.Opening.{StandsNow};
ghost use Rattle.journal_book.specs.Outputs.{AreCompleted, AreWritten, IsBringUpFault, IsNoDamage};
ghost use Rattle.book_runs.specs.GoesOn.{GoesOn, IsSameBook};

use edge_traits::Disk;
use journal_book::{Book, BookFault};
use step_code::Rules;

/// Makes the steps of a book durable, and then completes the files of its outputs: a run of the book's calls that makes no step.
///
/// # Errors
///
/// `Disk` where the disk failed: the book is broken then. `Damaged` at the first output whose file is shorter than what is
/// sealed of it. `OutOfMemory`.
pub fn complete_outputs<D: Disk, R: Rules>(book: &mut Book<D, R>) -> Result<(), BookFault>
    requires whole { book.old.broken ≡ false }
    ensures goes_on { GoesOn D.disk R.meaning book.old book.new [] }
    ensures same { IsSameBook book.old book.new }
    ensures durable { (result ≢ Err BookFault.Disk) → book.new.kept ≡ length book.new.steps }
    ensures completed { (files after : Image) → (D.disk book.old.disk).told ≡ Some files → (D.disk book.new.disk).told ≡ Some after
        → OnOk result (AreCompleted (D.disk book.new.disk).may_leave book.old.state.outs files after) }
    ensures written { (origin : Origin) (history : List Step) → StandsNow R.meaning origin history [] (D.disk book.new.disk)
        → OnOk result (AreWritten R.meaning origin.first history (D.disk book.new.disk)) }
    ensures undamaged { (files : Image) → (D.disk book.old.disk).told ≡ Some files → IfErr result IsNoDamage }
    ensures fault { IfErr result (IsBringUpFault book.old.state.outs (D.disk book.old.disk).told) }
    ensures failed { IsErrOf result BookFault.Disk → Rose (D.disk book.old.disk).faults (D.disk book.new.disk).faults }
    ensures untold { (D.disk book.old.disk).told ≡ None → (D.disk book.new.disk).told ≡ None }
    ensures count { (D.disk book.old.disk).faults ≤ (D.disk book.new.disk).faults }
{
    book.bring_up()
}
