//! Steps tried on a core.
ghost use Rattle.std.specs.Prelude.{◌≡◌, true, IfOk};
ghost use Rattle.step_code.specs.Content.{MayReplay};
ghost use Rattle.step_code.specs.Fits.{Fits};
ghost use Rattle.step_code.specs.Rules.{is_worker};
ghost use Rattle.step_code.specs.State.{bots_in_force};

use ack_steps::Core;
use base_types::{Blob, BotName, Moment, OutOfMemory};
use std::alloc::Global;
use std::test::Fail;
use step_code::{Given, Rules, Step, StepRefusal, bot_named, collects};
use tests_tables::text_of;

// Whether a core may be asked to take the step: what shows of its content is right, or it doesn't fit.
fn may_be_asked<R: Rules>(core: &Core<R>, step: &Step) -> Result<bool, OutOfMemory>
    ensures { IfOk result (λ may. may ≡ true → Fits R.meaning core.now.state step.now → MayReplay R.meaning core.now.state step.now) }
{
    Ok(core.refusal(step)?.is_some() || core.fits(step)?)
}

/// What the core answers to the step.
pub fn attempt<R: Rules>(core: &mut Core<R>, step: &Step) -> Result<Result<(), StepRefusal>, Fail> {
    if core.spent(step)?.is_some() || !may_be_asked(core, step)? {
        return Err(Fail::from("a step that no core may be asked to take"));
    }
    Ok(core.apply(step))
}

/// The state as a line of text.
pub fn state_text<R: Rules>(core: &Core<R>, alloc: Global) -> Result<String, Fail> {
    let base = core.base()?;
    text_of(alloc, &base)
}

/// The state with all lines of its outputs sealed, which a store may hold too, as a line of text.
pub fn sealed_text<R: Rules>(core: &Core<R>, alloc: Global) -> Result<String, Fail> {
    let base = core.sealed_base()?;
    if !core.may_hold(&base)? {
        return Err(Fail::from("a sealed state that no store may hold"));
    }
    text_of(alloc, &base)
}

/// Seals all lines of the outputs, where 64 bits hold what is sealed then.
pub fn seal<R: Rules>(core: &mut Core<R>) -> Result<(), Fail> {
    core.sealed_base()?;
    core.seal();
    Ok(())
}

fn is_worker<R: Rules>(core: &Core<R>, bot: &BotName) -> bool
    ensures { result ≡ is_worker (bots_in_force R.meaning core.now.state) bot.now }
{
    match bot_named(core.rules().facts(core.plan()).as_slice(), bot) {
        Some(facts) => !collects(facts),
        None => false,
    }
}

/// What the rules give of a body that was taken at this moment to a bot that is no collector.
pub fn given<R: Rules>(
    alloc: Global,
    core: &Core<R>,
    bot: &BotName,
    body: &Blob,
    since: Moment,
) -> Result<Given, Fail> {
    if !is_worker(core, bot) {
        return Err(Fail::from("no worker"));
    }
    let mut work = core.rules().work(alloc, core.plan(), bot)?;
    Ok(core.rules().give(alloc, &mut work, body, since)?)
}
