//! The end of a call.
ghost use Rattle.std.specs.Prelude.{◌≡◌, ◌≢◌, ◌≤◌, ◌↔◌, ◌⊎◌, true, false, length, None, []};
ghost use Rattle.edge_traits.specs.Count.{Rose};
ghost use Rattle.book_runs.specs.GoesOn.{GoesOn, IsSameBook};

use drain_turns::TurnsEnd;
use edge_traits::Disk;
use journal_book::{Book, FlushFault};
use step_code::Rules;

// Makes what waits durable, where the disk hasn't failed; answers how the turns ended, or that the disk fails now.
pub(crate) fn close<D: Disk, R: Rules>(book: &mut Book<D, R>, end: TurnsEnd) -> TurnsEnd
    requires broken { (end ≡ TurnsEnd.Disk) ↔ (book.old.broken ≡ true) }
    ensures same { result ≢ TurnsEnd.Disk → result ≡ end }
    ensures goes_on { GoesOn D.disk R.meaning book.old book.new [] }
    ensures book { IsSameBook book.old book.new }
    ensures durable { result ≢ TurnsEnd.Disk → book.new.kept ≡ length book.new.steps }
    ensures broken { (result ≡ TurnsEnd.Disk) ↔ (book.new.broken ≡ true) }
    ensures disk { result ≡ TurnsEnd.Disk → (end ≡ TurnsEnd.Disk) ⊎ Rose (D.disk book.old.disk).faults (D.disk book.new.disk).faults }
    ensures untold { (D.disk book.old.disk).told ≡ None → (D.disk book.new.disk).told ≡ None }
    ensures disk_count { (D.disk book.old.disk).faults ≤ (D.disk book.new.disk).faults }
{
    match book.flush() {
        Ok(_) => end,
        Err(FlushFault::Disk) => TurnsEnd::Disk,
        Err(FlushFault::Broken) => TurnsEnd::Disk,
    }
}
