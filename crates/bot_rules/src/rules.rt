//! The rules of all modules.
ghost use Rattle.std.specs.Prelude.{◌≡◌, ◌≤◌, true, IfOk};
ghost use Rattle.step_code.specs.Rules.{last_moment};
ghost use Rattle.bot_rules.specs.Facts.{has_feed};
ghost use Rattle.bot_rules.specs.Intel.{module_reports};

use crate::report::report_text;
use crate::{IntelPlan, IntelWork};
use base_types::{Blob, BotName, Moment, OutOfMemory};
use runtime_config::Module;
use std::alloc::Global;
use step_code::{FactsList, Given, PlanFault, Rules};

/// What the modules of the product do.
#[derive(Clone, Copy, Debug)]
pub struct IntelRules;

impl IntelRules {
    /// The rules. It takes no memory.
    pub fn new() -> IntelRules {
        IntelRules
    }
}

// What the module of a collector reports of a piece that was collected at a moment.
fn module_reports(
    alloc: Global,
    module: &Module,
    piece: &Blob,
    now: Moment,
) -> Result<Blob, OutOfMemory>
    requires collects { has_feed module.now ≡ true }
    requires moment { now.0 ≤ last_moment }
    ensures { IfOk result (λ body. body ≡ module_reports module.now piece.now now.0) }
{
    match module {
        Module::Collector { name, provider, .. } => {
            report_text(alloc, name, provider, piece, now)
        }
        _ => unreachable!(),
    }
}

impl Rules for IntelRules {
    ghost use Rattle.step_code.specs.Rules.{Task};
    ghost use Rattle.bot_rules.specs.Intel.{intel};
    ghost use Rattle.bot_rules.specs.Laws.{bots_are_sound, reports_are_lawful, given_fits};

    type Plan = IntelPlan;

    type Work = IntelWork;

    ghost meaning = { intel };

    ghost bundle_of = { λ plan. plan.bundle };

    ghost bots_of = { λ plan. plan.bots };

    ghost task_of = { λ work. work };

    fn plan(&self, alloc: Global, bundle: &Blob) -> Result<IntelPlan, PlanFault> {
        IntelPlan::new(alloc, bundle)
    }

    fn facts<'p>(&self, plan: &'p IntelPlan) -> &'p FactsList {
        plan.facts()
    }

    fn report(
        &self,
        alloc: Global,
        plan: &IntelPlan,
        bot: &BotName,
        piece: &Blob,
        now: Moment,
    ) -> Result<Blob, OutOfMemory> {
        match plan.planned(bot) {
            Some((planned, _)) => module_reports(alloc, &planned.module, piece, now),
            None => unreachable!(),
        }
    }

    fn work(
        &self,
        alloc: Global,
        plan: &IntelPlan,
        bot: &BotName,
    ) -> Result<IntelWork, OutOfMemory> {
        match plan.planned(bot) {
            Some((planned, table)) => { IntelWork::new(alloc, plan, bot, planned, table) }
            None => unreachable!(),
        }
    }

    fn give(
        &self,
        alloc: Global,
        work: &mut IntelWork,
        body: &Blob,
        since: Moment,
    ) -> Result<Given, OutOfMemory> {
        work.give(alloc, body, since)
    }

    ghost bots_are_sound = { bots_are_sound };

    ghost reports_are_lawful = { λ bots task piece now loads collects bytes limit. reports_are_lawful task piece now };

    ghost given_fits = { given_fits };
}
