//! The state and the steps of a generation as values.
ghost use Rattle.std.specs.Prelude.{◌≡◌, ◌++◌, ◌∷◌, [], List, IfOk, OnOk};
ghost use Rattle.step_code.specs.declared.base.Base.{Base};
ghost use Rattle.step_code.specs.declared.step.Step.{Step};
ghost use Rattle.step_code.specs.Rules.{Meaning};
ghost use Rattle.store_image.specs.Stored.{AreRecords, IsRecord};
ghost use Rattle.generation_reading.specs.Reading.{AreHistory, BeginsWithCode};

use crate::replaying::behind;
use base_types::{Blob, ListOf, OutOfMemory};
use std::alloc::Global;
use step_code::{Base, Step, decode_base, decode_step};

/// Steps, the first one first.
pub type StepList = ListOf<Step>;

// Puts the step whose code stands in front of the bytes behind the others, and answers the length of that code.
fn put_step(alloc: Global, steps: &mut StepList, bytes: &[u8]) -> Result<usize, OutOfMemory>
    ensures { IfOk result (λ len. (step : Step) × BeginsWithCode bytes.now step len × (steps.new ≡ steps.old ++ step ∷ [])) }
{
    let Ok((step, len)) = decode_step(alloc, bytes) else {
        return Err(OutOfMemory);
    };
    let Ok(()) = steps.push(step) else {
        return Err(OutOfMemory);
    };
    Ok(len)
}

// Puts the steps of a body behind the others.
fn put_body(alloc: Global, steps: &mut StepList, body: &[u8]) -> Result<(), OutOfMemory>
    ensures { OnOk result ((more : List Step) × IsRecord body.now more × (steps.new ≡ steps.old ++ more)) }
{
    let mut rest = body;
    'steps: loop {
        let len = put_step(alloc, steps, rest)?;
        rest = behind(rest, len);
        if rest.is_empty() {
            return Ok(());
        }
    }
}

// The steps of these bodies.
fn steps_of(alloc: Global, bodies: &[Blob]) -> Result<StepList, OutOfMemory>
    ensures { IfOk result (λ steps. AreRecords bodies.now steps) }
{
    let mut steps = StepList::new(alloc);
    'bodies: for body in bodies {
        put_body(alloc, &mut steps, body.bytes())?;
    }
    Ok(steps)
}

/// The state and the steps that these bodies hold.
///
/// # Errors
///
/// `OutOfMemory`.
pub fn decode_history(alloc: Global, bodies: &[Blob]) -> Result<(Base, StepList), OutOfMemory>
    requires { (m : Meaning) × (base : Base) × (steps : List Step) × AreHistory m bodies.now base steps }
    ensures { (m : Meaning) (base : Base) (steps : List Step) → AreHistory m bodies.now base steps → IfOk result (λ found. (found.0 ≡ base) × (found.1 ≡ steps)) }
{
    let [body, records @ ..] = bodies else {
        return Err(OutOfMemory);
    };
    let steps = steps_of(alloc, records)?;
    match decode_base(alloc, body.bytes()) {
        Ok((base, _)) => Ok((base, steps)),
        Err(_) => Err(OutOfMemory),
    }
}
