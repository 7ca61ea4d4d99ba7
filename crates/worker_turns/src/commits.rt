//! One step of a worker.
ghost use Rattle.std.specs.Prelude.{◌≡◌, ◌≤◌, ◌<◌, ℕ, true, false, length, None, IfSome, IsSomeAnd, OnOk, OnErr, IfErr};
ghost use Rattle.step_code.specs.Fits.{first_failing, parts};
ghost use Rattle.journal_book.specs.Staged.{IsMove};
ghost use Rattle.worker_turns.specs.Holds.{end_of, Commits, IsFaultEnd, IsLateFault, Marks};

use crate::HoldEnd;
use edge_traits::{Clock, Disk};
use journal_book::{Move, StageRefusal};
use locked_book::{HoldFault, Locked};
use step_code::Rules;

// Commits a step of a worker, if one may still be made, and notes its number.
pub(crate) fn commit_own<D: Disk, R: Rules, C: Clock>(
    locked: &mut Locked<D, R>,
    steps: &mut Vec<u64>,
    clock: &C,
    left: Option<u64>,
    what: Move,
) -> Result<(), HoldEnd>
    requires unmarked { locked.old.mark ≡ None }
    requires fits { first_failing (parts R.meaning locked.old.book.state what) ≡ None }
    requires carries { (format now : ℕ) → IsMove R.meaning format locked.old.book.state now what }
    ensures ok { OnOk result (Commits R.meaning (C.told clock.now) what locked.old locked.new steps.old.items steps.new.items) }
    ensures err { OnErr result (Marks R.meaning locked.old locked.new steps.old.items steps.new.items) }
    ensures end { IfErr result (IsFaultEnd left (length locked.new.made) locked.new.mark) }
    ensures few { IfSome left (λ most. OnOk result (length locked.new.made ≤ most)) }
{
    if is_none_left(locked.made(), left) {
        return Err(HoldEnd::Left);
    }
    if steps.reserve(1).is_err() {
        return Err(HoldEnd::OutOfMemory);
    }
    let _ = locked.core();
    match locked.commit(clock.now(), what) {
        Ok(number) => {
            steps.push_reserved(number);
            Ok(())
        }
        Err(fault) => Err(end_of(fault)),
    }
}

// As many steps were made as may be.
fn is_none_left(made: u64, left: Option<u64>) -> bool
    ensures none { result ≡ true → IsSomeAnd left (λ most. most ≤ made) }
    ensures some { result ≡ false → IfSome left (λ most. made < most) }
{
    match left {
        Some(most) => made >= most,
        None => false,
    }
}

// How a worker's part ends where its step isn't committed for this.
fn end_of(fault: HoldFault) -> HoldEnd
    requires { IsLateFault fault }
    ensures { result ≡ end_of fault }
{
    match fault {
        HoldFault::Half => HoldEnd::Half,
        HoldFault::Disk => HoldEnd::Disk,
        HoldFault::Refused(StageRefusal::OutOfMemory) => HoldEnd::OutOfMemory,
        HoldFault::Refused(refusal) => HoldEnd::Refused(refusal),
    }
}
