//! Replaying the steps of a generation.
ghost use Rattle.std.specs.Prelude.{◌≡◌, ◌↔◌, ◌+◌, ◌<◌, ◌≤◌, ◌^◌, ◌++◌, ◌∷◌, [], true, ℕ, List, length, drop, IfErr, IfOk, IsErrOf, OnOk};
ghost use Rattle.disk_journal.specs.GateFile.{open_records};
ghost use Rattle.step_code.specs.declared.step.Step.{Step};
ghost use Rattle.step_code.specs.After.{after};
ghost use Rattle.step_code.specs.History.{replay};
ghost use Rattle.store_image.specs.Damage.{BeginsWithNoStep, HoldNoSteps, IsNoStep};
ghost use Rattle.store_image.specs.Opens.{IsReplayable};
ghost use Rattle.generation_reading.specs.Reading.{BeginsWithStep, HoldReplayable, HoldsReplayable, IsBodyFault};

use crate::reading::FRAME;
use ack_steps::Core;
use base_types::{Blob, OutOfMemory};
use disk_journal::JournalFault;
use std::alloc::Global;
use step_code::{Rules, Step, decode_step, steps_have_one_code};
use step_log::StepLog;
use stored_types::CodeFault;

// Whether a stored step can be replayed, and brings no number past the last one.
fn is_replayable<R: Rules>(core: &Core<R>, step: &Step) -> Result<bool, OutOfMemory>
    ensures { IfOk result (λ is. (is ≡ true) ↔ IsReplayable R.meaning core.now.state step.now) }
{
    if !core.fits(step)? {
        return Ok(false);
    }
    Ok(core.spent(step)?.is_none())
}

// Replays a step that can be replayed.
fn apply<R: Rules>(core: &mut Core<R>, step: &Step) -> Result<(), OutOfMemory>
    requires { IsReplayable R.meaning core.old.state step.now }
    ensures ok { OnOk result (core.new ≡ record core.old { state = after R.meaning core.old.state step.now }) }
{
    match core.apply(step) {
        Ok(()) => Ok(()),
        Err(_) => Err(OutOfMemory),
    }
}

// Replays the step that stands in front of the bytes, and answers the length of its code.
fn replay_step<R: Rules>(
    alloc: Global,
    core: &mut Core<R>,
    steps: &mut StepLog,
    bytes: &[u8],
) -> Result<usize, CodeFault>
    ensures step { IfOk result (λ len. (step : Step) × BeginsWithStep R.meaning core.old.state bytes.now step len
        × (core.new ≡ record core.old { state = after R.meaning core.old.state step }) × (steps.new ≡ steps.old ++ step ∷ [])) }
    ensures bad { IsErrOf result CodeFault.Bad → BeginsWithNoStep R.meaning core.old.state bytes.now }
{
    steps_have_one_code();
    let (step, len) = decode_step(alloc, bytes)?;
    if !is_replayable(core, &step)? {
        return Err(CodeFault::Bad);
    }
    apply(core, &step)?;
    *steps = steps.with(&step)?;
    Ok(len)
}

// The bytes behind so many.
pub(crate) fn behind(bytes: &[u8], len: usize) -> &[u8]
    requires { len ≤ length bytes.now }
    ensures { result.now ≡ drop len bytes.now }
{
    &bytes[len..]
}

// Replays the steps of a body that begins at this offset.
fn replay_body<R: Rules>(
    alloc: Global,
    core: &mut Core<R>,
    steps: &mut StepLog,
    body: &[u8],
    start: u64,
) -> Result<(), JournalFault>
    requires { start + length body.now < 2 ^ 64 }
    ensures steps { OnOk result ((more : List Step) × HoldsReplayable R.meaning core.old.state body.now more
        × (core.new ≡ record core.old { state = replay R.meaning core.old.state more }) × (steps.new ≡ steps.old ++ more)) }
    ensures fault { IfErr result (IsBodyFault (λ at. (offset : ℕ) × (at ≡ start + offset) × IsNoStep R.meaning core.old.state body.now offset)) }
{
    let mut rest = body;
    let mut at = start;
    'steps: loop {
        let len = match replay_step(alloc, core, steps, rest) {
            Ok(len) => len,
            Err(CodeFault::Bad) => return Err(JournalFault::Damaged { at }),
            Err(CodeFault::OutOfMemory) => return Err(JournalFault::OutOfMemory),
        };
        rest = behind(rest, len);
        at += len as u64;
        if rest.is_empty() {
            return Ok(());
        }
    }
}

/// Replays the steps of these bodies. The gate before the first of them stands at this offset.
///
/// # Errors
///
/// `Damaged` at the first byte of a step that can't be replayed, or where none stands. `OutOfMemory`.
pub fn replay_bodies<R: Rules>(
    alloc: Global,
    core: &mut Core<R>,
    bodies: &[Blob],
    start: u64,
) -> Result<StepLog, JournalFault>
    requires { start + length (open_records bodies.now) < 2 ^ 64 }
    ensures steps { IfOk result (λ steps. HoldReplayable R.meaning core.old.state bodies.now steps) }
    ensures core { IfOk result (λ steps. core.new ≡ record core.old { state = replay R.meaning core.old.state steps }) }
    ensures fault { IfErr result (IsBodyFault (HoldNoSteps R.meaning core.old.state start bodies.now)) }
{
    let mut steps = StepLog::new();
    let mut at = start;
    'bodies: for body in bodies {
        let body = body.bytes();
        match replay_body(alloc, core, &mut steps, body, at + FRAME) {
            Ok(()) => {}
            Err(fault) => return Err(fault),
        }
        at += FRAME + body.len() as u64;
    }
    Ok(steps)
}
