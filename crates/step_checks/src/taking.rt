//! Whether a stored step may be taken.
ghost use Rattle.std.specs.Prelude.{◌≡◌, ◌↔◌, true, None, IfOk};
ghost use Rattle.base_types.specs.Lists.{AreBytes};
ghost use Rattle.step_code.specs.Content.{Matches, May, Shows};
ghost use Rattle.step_code.specs.Fits.{first_failing, parts};
ghost use Rattle.bot_works.specs.Works.{AreReady};

use crate::carried::{Carried, is_fault, is_pass, is_way};
use ack_steps::Core;
use base_types::{Moment, OutOfMemory};
use bot_works::{Ready, give};
use history_laws::what_may_be_taken_may_be_replayed;
use std::alloc::Global;
use step_code::{Rules, Step, StepKind};

/// Whether a stored step may be taken in this state: it fits, its moment is in order, and it carries what the rules give.
/// Bots are made ready for work where they aren't yet.
pub fn may_take<R: Rules>(
    alloc: Global,
    core: &Core<R>,
    works: &mut Vec<Ready<R::Work>>,
    step: &Step,
) -> Result<bool, OutOfMemory>
    requires ready { AreReady R.task_of core.now.state.bundle works.old.items }
    ensures ready { AreReady R.task_of core.now.state.bundle works.new.items }
    ensures may { IfOk result (λ may. (may ≡ true) ↔ May R.meaning core.now.state step.now) }
{
    what_may_be_taken_may_be_replayed::<R>();
    let _ = core.plan();
    if core.fits(step)? {
        matches(alloc, core, works, step.moment, &step.what)
    } else {
        Ok(false)
    }
}

// A piece is bytes, which the prover knows of a slice alone.
fn are_bytes(bytes: &[u8])
    ensures { AreBytes bytes.now }
{
    let _len = bytes.len();
}

// Whether a step that fits, and of which all that shows is right, carries what the rules give.
fn matches<R: Rules>(
    alloc: Global,
    core: &Core<R>,
    works: &mut Vec<Ready<R::Work>>,
    now: Moment,
    what: &StepKind,
) -> Result<bool, OutOfMemory>
    requires fits { first_failing (parts R.meaning core.now.state what.now) ≡ None }
    requires shows { Shows R.meaning core.now.state now.0 what.now }
    requires ready { AreReady R.task_of core.now.state.bundle works.old.items }
    ensures ready { AreReady R.task_of core.now.state.bundle works.new.items }
    ensures matches { IfOk result (λ does. (does ≡ true) ↔ Matches R.meaning core.now.state now.0 what.now) }
{
    match what {
        StepKind::Done {
            bot,
            instance,
            sends,
            dumps,
            key,
            line,
            ..
        } => {
            let carried = Carried {
                sends,
                dumps,
                key,
                line: *line,
            };
            let given = give(alloc, core, works, bot, *instance)?;
            Ok(is_pass(core, bot, now, &given, carried))
        }
        StepKind::Retry {
            bot,
            instance,
            note,
            ..
        } => {
            let given = give(alloc, core, works, bot, *instance)?;
            Ok(is_fault(&given, note))
        }
        StepKind::Fail {
            bot,
            instance,
            note,
            queues,
            halts,
            ..
        } => {
            let given = give(alloc, core, works, bot, *instance)?;
            Ok(is_fault(&given, note) && is_way(core, bot, queues, *halts))
        }
        StepKind::Collect { piece, .. } => {
            are_bytes(piece.bytes());
            Ok(true)
        }
        StepKind::Start
        | StepKind::FeedEnd { .. }
        | StepKind::Take { .. }
        | StepKind::Reload { .. }
        | StepKind::Redo { .. }
        | StepKind::Round { .. } => Ok(true),
    }
}
