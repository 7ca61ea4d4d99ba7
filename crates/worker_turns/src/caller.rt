//! The holds of who waits for the workers: steps are made durable while no more come, and the round is ended.
ghost use Rattle.std.specs.Prelude.{◌≡◌, ◌≢◌, length, [], Some, None, IfOk, IfErr, OnOk};
ghost use Rattle.worker_turns.specs.Holds.{IsEnd, Marks};

use crate::HoldEnd;
use edge_traits::{Disk, Failed};
use locked_book::{EndMark, Locked};
use step_code::Rules;

/// The hold of who waits for the workers. Where no step came since the hold before, which found `seen` of them in the history, all steps are
/// made durable. Answers how many there are.
pub fn caller_turn<D: Disk, R: Rules>(locked: &mut Locked<D, R>, seen: u64) -> Result<u64, HoldEnd>
    // Nothing is done once the round has a mark.
    ensures still { locked.old.mark ≢ None → locked.new ≡ locked.old }
    ensures marks { locked.old.mark ≡ None → Marks R.meaning locked.old locked.new [] [] }
    ensures unmarked { OnOk result (locked.new.mark ≡ None) }
    ensures at { IfOk result (λ at. at ≡ locked.new.book.state.steps) }
    ensures durable { OnOk result (locked.old.book.state.steps ≡ seen → locked.new.book.kept ≡ length locked.new.book.steps) }
    ensures end { IfErr result (IsEnd None locked.old locked.new) }
{
    if let Some(mark) = locked.mark() {
        return Err(HoldEnd::Found(mark));
    }
    let at = locked.core().steps();
    if at == seen {
        if let Err(Failed) = locked.flush() {
            return Err(HoldEnd::Disk);
        }
    }
    Ok(at)
}

/// The hold of who waits for the workers, in which the round is ended. Answers the mark that the round has then: of an end that came
/// before, or `Stop`.
pub fn stop_turn<D: Disk, R: Rules>(locked: &mut Locked<D, R>) -> EndMark
    ensures still { locked.old.mark ≢ None → locked.new ≡ locked.old }
    ensures marks { locked.old.mark ≡ None → Marks R.meaning locked.old locked.new [] [] }
    ensures mark { locked.new.mark ≡ Some result }
{
    match locked.mark() {
        Some(mark) => mark,
        None => {
            locked.stop();
            EndMark::Stop
        }
    }
}
