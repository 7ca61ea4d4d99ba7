//! Rules that are lent: a second core goes by the rules of a first one.
use base_types::{Blob, BotName, Moment, OutOfMemory};
use std::alloc::Global;
use step_code::{FactsList, Given, PlanFault, Rules};

/// Rules of another owner. They mean what those mean.
#[derive(Drop)]
pub struct Lent<'r, R: Rules> {
    pub rules: &'r R,
}

impl<R: Rules> Rules for Lent<'_, R> {
    type Plan = R::Plan;

    type Work = R::Work;

    ghost meaning = { R.meaning };

    ghost bundle_of = { R.bundle_of };

    ghost bots_of = { R.bots_of };

    ghost task_of = { R.task_of };

    fn plan(&self, alloc: Global, bundle: &Blob) -> Result<R::Plan, PlanFault> {
        self.rules.plan(alloc, bundle)
    }

    fn facts<'p>(&self, plan: &'p R::Plan) -> &'p FactsList {
        self.rules.facts(plan)
    }

    fn report(
        &self,
        alloc: Global,
        plan: &R::Plan,
        bot: &BotName,
        piece: &Blob,
        now: Moment,
    ) -> Result<Blob, OutOfMemory> {
        self.rules.report(alloc, plan, bot, piece, now)
    }

    fn work(&self, alloc: Global, plan: &R::Plan, bot: &BotName) -> Result<R::Work, OutOfMemory> {
        self.rules.work(alloc, plan, bot)
    }

    fn give(
        &self,
        alloc: Global,
        work: &mut R::Work,
        body: &Blob,
        since: Moment,
    ) -> Result<Given, OutOfMemory> {
        self.rules.give(alloc, work, body, since)
    }

    ghost bots_are_sound = { R.bots_are_sound };

    ghost reports_are_lawful = { R.reports_are_lawful };

    ghost given_fits = { R.given_fits };
}
