//! The steps of a generation, gone through one by one.
ghost use Rattle.std.specs.Prelude.{◌≡◌, ◌↔◌, ◌+◌, ◌≤◌, ◌<◌, ◌^◌, true, ℕ, List, length, drop, IfErr, IfOk, OnOk};
ghost use Rattle.disk_journal.specs.GateFile.{open_records};
ghost use Rattle.step_code.specs.declared.step.Step.{Step};
ghost use Rattle.step_code.specs.After.{after};
ghost use Rattle.step_code.specs.Content.{May};
ghost use Rattle.step_code.specs.History.{replay};
ghost use Rattle.store_image.specs.Opens.{IsReplayable};
ghost use Rattle.bot_works.specs.Works.{AreReady};
ghost use Rattle.generation_reading.specs.Reading.{BeginsWith, HoldAlong, HoldsAlong};
ghost use Rattle.store_audit.specs.Audit.{IsAllowed};
ghost use Rattle.store_audit.specs.Walks.{AreStop, IsBodyStop, IsStepStop};

use ack_steps::Core;
use base_types::{Blob, OutOfMemory};
use bot_works::Ready;
use generation_reading::FRAME;
use history_laws::what_may_be_taken_may_be_replayed;
use std::alloc::Global;
use step_checks::may_take;
use step_code::{Rules, Step, StepKind, decode_step, steps_have_one_code};
use stored_types::CodeFault;

/// Why steps aren't all taken: one that the rules don't allow, by its number; bytes that are no step that can be replayed, by their
/// offset; or want of memory.
#[derive(Clone, Copy)]
pub(crate) enum StepStop {
    Illegal { step: u64 },
    Damaged { at: u64 },
    OutOfMemory,
}

impl From<OutOfMemory> for StepStop {
    ghost use Rattle.store_audit.specs.declared.steps.StepStop.TheVariants as stop;

    ghost from_gives = { λ _ e. e ≡ stop.OutOfMemory };

    fn from(_: OutOfMemory) -> Self {
        StepStop::OutOfMemory
    }
}

// What a stored step is to the rules: allowed; one that can be replayed, but isn't allowed; or none that can be replayed.
#[derive(Clone, Copy)]
enum Judgement {
    Allowed,
    Illegal,
    Unfit,
}

fn judge<R: Rules>(
    alloc: Global,
    core: &Core<R>,
    works: &mut Vec<Ready<R::Work>>,
    step: &Step,
) -> Result<Judgement, OutOfMemory>
    requires ready { AreReady R.task_of core.now.state.bundle works.old.items }
    ensures ready { AreReady R.task_of core.now.state.bundle works.new.items }
    ensures allowed { IfOk result (λ is. is ≡ Judgement.Allowed → IsAllowed R.meaning core.now.state step.now) }
    ensures illegal { IfOk result (λ is. is ≡ Judgement.Illegal → IsReplayable R.meaning core.now.state step.now × (May R.meaning core.now.state step.now → ⊥)) }
    ensures unfit { IfOk result (λ is. is ≡ Judgement.Unfit → IsReplayable R.meaning core.now.state step.now → ⊥) }
{
    what_may_be_taken_may_be_replayed::<R>();
    if core.spent(step)?.is_some() {
        return Ok(Judgement::Unfit);
    }
    if may_take(alloc, core, works, step)? {
        return Ok(Judgement::Allowed);
    }
    if core.fits(step)? {
        Ok(Judgement::Illegal)
    } else {
        Ok(Judgement::Unfit)
    }
}

// Takes a step that is allowed. Bots that are ready for work under another bundle are dropped.
fn take<R: Rules>(
    core: &mut Core<R>,
    works: &mut Vec<Ready<R::Work>>,
    step: &Step,
) -> Result<(), OutOfMemory>
    requires allowed { IsAllowed R.meaning core.old.state step.now }
    requires ready { AreReady R.task_of core.old.state.bundle works.old.items }
    ensures ok { OnOk result (core.new ≡ record core.old { state = after R.meaning core.old.state step.now }) }
    ensures ready { OnOk result (AreReady R.task_of core.new.state.bundle works.new.items) }
{
    core.apply_fitting(step)?;
    if let StepKind::Reload { .. } = &step.what {
        works.clear();
    }
    Ok(())
}

// The number of the next step.
fn next_number<R: Rules>(core: &Core<R>, step: &Step) -> u64
    requires { IsReplayable R.meaning core.now.state step.now }
    ensures { result ≡ core.now.state.steps + 1 }
{
    core.steps() + 1
}

// Takes the step that stands in front of the bytes, which begin at this offset, and answers the length of its code.
fn take_front<R: Rules>(
    alloc: Global,
    core: &mut Core<R>,
    works: &mut Vec<Ready<R::Work>>,
    bytes: &[u8],
    at: u64,
) -> Result<usize, StepStop>
    requires ready { AreReady R.task_of core.old.state.bundle works.old.items }
    ensures step { IfOk result (λ len. (step : Step) × BeginsWith (IsAllowed R.meaning) core.old.state bytes.now step len
        × (core.new ≡ record core.old { state = after R.meaning core.old.state step })) }
    ensures ready { OnOk result (AreReady R.task_of core.new.state.bundle works.new.items) }
    ensures stop { IfErr result (IsStepStop R.meaning core.old.state bytes.now at) }
{
    steps_have_one_code();
    let (step, len) = match decode_step(alloc, bytes) {
        Ok(found) => found,
        Err(CodeFault::Bad) => return Err(StepStop::Damaged { at }),
        Err(CodeFault::OutOfMemory) => return Err(StepStop::OutOfMemory),
    };
    match judge(alloc, core, works, &step)? {
        Judgement::Allowed => {
            take(core, works, &step)?;
            Ok(len)
        }
        Judgement::Illegal => Err(StepStop::Illegal {
            step: next_number(core, &step),
        }),
        Judgement::Unfit => Err(StepStop::Damaged { at }),
    }
}

// The bytes behind so many.
fn behind(bytes: &[u8], len: usize) -> &[u8]
    requires { len ≤ length bytes.now }
    ensures { result.now ≡ drop len bytes.now }
{
    &bytes[len..]
}

// Takes the steps of a body that begins at this offset.
fn take_body<R: Rules>(
    alloc: Global,
    core: &mut Core<R>,
    works: &mut Vec<Ready<R::Work>>,
    body: &[u8],
    start: u64,
) -> Result<(), StepStop>
    requires short { start + length body.now < 2 ^ 64 }
    requires ready { AreReady R.task_of core.old.state.bundle works.old.items }
    ensures steps { OnOk result ((more : List Step) × HoldsAlong R.meaning (IsAllowed R.meaning) core.old.state body.now more
        × (core.new ≡ record core.old { state = replay R.meaning core.old.state more })) }
    ensures ready { OnOk result (AreReady R.task_of core.new.state.bundle works.new.items) }
    ensures stop { IfErr result (IsBodyStop R.meaning core.old.state body.now start) }
{
    let mut rest = body;
    let mut at = start;
    'steps: loop {
        let len = match take_front(alloc, core, works, rest, at) {
            Ok(len) => len,
            Err(stop) => return Err(stop),
        };
        rest = behind(rest, len);
        at += len as u64;
        if rest.is_empty() {
            return Ok(());
        }
    }
}

/// Takes the steps of records. The gate before the first of them stands at this offset.
pub(crate) fn take_records<R: Rules>(
    alloc: Global,
    core: &mut Core<R>,
    records: &[Blob],
    start: u64,
) -> Result<(), StepStop>
    requires short { start + length (open_records records.now) < 2 ^ 64 }
    ensures steps { OnOk result ((steps : List Step) × HoldAlong R.meaning (IsAllowed R.meaning) core.old.state records.now steps
        × (core.new ≡ record core.old { state = replay R.meaning core.old.state steps })) }
    ensures stop { IfErr result (AreStop R.meaning core.old.state start records.now) }
{
    let mut works = Vec::new(alloc);
    let mut at = start;
    'records: for body in records {
        let body = body.bytes();
        match take_body(alloc, core, &mut works, body, at + FRAME) {
            Ok(()) => {}
            Err(stop) => return Err(stop),
        }
        at += FRAME + body.len() as u64;
    }
    Ok(())
}
