//! From a move to a step, and what refuses it.
ghost use Rattle.std.specs.Prelude.{◌≡◌, List, length, min, None, IfErr, IfOk, OnOk};
ghost use Rattle.base_types.specs.Number.{last_u64};
ghost use Rattle.step_code.specs.Fits.{first_failing, parts};
ghost use Rattle.step_code.specs.Rules.{Meaning};
ghost use Rattle.step_code.specs.Spent.{spent};
ghost use Rattle.step_code.specs.declared.step.Step.{Step};
ghost use Rattle.store_image.specs.Stored.{codes_of};
ghost use Rattle.journal_book.specs.Staged.{bytes_with, first_cause, screened, stamp, staged, step_cause, IsStageRefusal};

use crate::StageRefusal;
use ack_steps::Core;
use base_types::{Moment, OutOfMemory, SendList};
use std::alloc::Global;
use std::cmp;
use step_code::{LAST_MOMENT, Rules, Step, StepKind};
use stored_types::Coded;

/// What a step is to do. A `Done` carries what the bot gave of the message; the book looks for duplicates itself.
pub type Move = StepKind;

fn stamp<R: Rules>(core: &Core<R>, now: u64) -> Moment
    ensures { result ≡ stamp core.now.state now }
{
    Moment(cmp::max(cmp::min(now, LAST_MOMENT), core.latest().0))
}

fn screened<R: Rules>(alloc: Global, core: &Core<R>, now: Moment, what: Move) -> StepKind
    ensures { result ≡ screened R.meaning core.now.state now.0 what }
{
    match what {
        StepKind::Done {
            bot,
            instance,
            message,
            bundle,
            sends,
            dumps,
            key,
            line,
        } => {
            let is_duplicate = core.is_duplicate(&bot, now, &key);
            StepKind::Done {
                bot,
                instance,
                message,
                bundle,
                sends: if is_duplicate {
                    SendList::new(alloc)
                } else {
                    sends
                },
                dumps,
                key: if is_duplicate { None } else { key },
                line,
            }
        }
        other => other,
    }
}

// The step of a move that is made when the clock shows this moment, in seconds since 1970.
fn staged<R: Rules>(alloc: Global, core: &Core<R>, now: u64, what: Move) -> Step
    ensures { result ≡ staged R.meaning core.now.state now what }
{
    let moment = stamp(core, now);
    Step {
        moment,
        what: screened(alloc, core, moment, what),
    }
}

// What refuses a step whose code makes all codes of the generation so many bytes long.
fn cause<R: Rules>(
    core: &Core<R>,
    bytes: u64,
    limit: u64,
    step: &Step,
) -> Result<Option<StageRefusal>, OutOfMemory>
    ensures { IfOk result (λ cause. cause ≡ first_cause (first_failing (parts R.meaning core.now.state step.now.what)) (spent R.meaning core.now.state step.now) bytes limit) }
{
    if let Some(refusal) = core.refusal(step)? {
        return Ok(Some(StageRefusal::Step(refusal)));
    }
    if let Some(next) = core.spent(step)? {
        return Ok(Some(StageRefusal::Spent { next }));
    }
    if bytes > limit {
        return Ok(Some(StageRefusal::Full { bytes }));
    }
    Ok(None)
}

// The length of all codes with one more.
fn bytes_with(bytes: u64, step: &Step) -> u64
    ensures { (steps : List Step) → bytes ≡ min (length (codes_of steps)) last_u64 → result ≡ bytes_with steps step.now }
{
    bytes.saturating_add(step.code_len())
}

fn checked<R: Rules>(
    core: &Core<R>,
    bytes: u64,
    limit: u64,
    step: &Step,
) -> Result<(), StageRefusal>
    ensures ok { OnOk result (first_cause (first_failing (parts R.meaning core.now.state step.now.what)) (spent R.meaning core.now.state step.now) bytes limit ≡ None) }
    ensures refused { IfErr result (IsStageRefusal (first_cause (first_failing (parts R.meaning core.now.state step.now.what)) (spent R.meaning core.now.state step.now) bytes limit)) }
{
    match cause(core, bytes, limit, step) {
        Ok(None) => Ok(()),
        Ok(Some(refusal)) => Err(refusal),
        Err(OutOfMemory) => Err(StageRefusal::OutOfMemory),
    }
}

/// The step that a move comes to when the clock shows this moment, if nothing refuses it behind steps whose codes are so
/// many bytes long together.
pub fn next_step<R: Rules>(
    alloc: Global,
    core: &Core<R>,
    bytes: u64,
    limit: u64,
    now: u64,
    what: Move,
) -> Result<Step, StageRefusal>
    ensures step { IfOk result (λ step. step ≡ staged R.meaning core.now.state now what) }
    ensures ok { (steps : List Step) → bytes ≡ min (length (codes_of steps)) last_u64 → OnOk result (step_cause R.meaning core.now.state steps limit (staged R.meaning core.now.state now what) ≡ None) }
    ensures refused { (steps : List Step) → bytes ≡ min (length (codes_of steps)) last_u64
        → IfErr result (IsStageRefusal (step_cause R.meaning core.now.state steps limit (staged R.meaning core.now.state now what))) }
{
    let step = staged(alloc, core, now, what);
    let bytes = bytes_with(bytes, &step);
    match checked(core, bytes, limit, &step) {
        Ok(()) => Ok(step),
        Err(refusal) => Err(refusal),
    }
}
