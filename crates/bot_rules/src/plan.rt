//! A bundle that is ready for use.
ghost use Rattle.std.specs.Prelude.{◌≡◌, None, Some, Ok, IfOk, IsErrOf, MatchOption};
ghost use Rattle.std.specs.Result.{result_ok};
ghost use Rattle.config_bundle.specs.declared.bundle.Bundle.{Bundle as AnyBundle};
ghost use Rattle.runtime_config.specs.Load.{load};
ghost use Rattle.bot_rules.specs.Intel.{facts_in, plan_in, planned_in};
ghost use Rattle.bot_rules.specs.Jobs.{table_of};

use crate::facts::all_facts;
use crate::planned::place_of_bot;
use crate::table::all_tables;
use crate::{Table, TableList};
use base_types::{Blob, BotName, OutOfMemory};
use config_bundle::{Bundle, BundleBad, bundle_read};
use runtime_config::{LoadFault, Plan, Planned, PlannedList, load};
use std::alloc::Global;
use std::marker::Model;
use std::snapshot::Snapshot;
use step_code::{FactsList, PlanFault};

/// The bots of a bundle. Contracts see the bundle's bytes and the facts of the bots.
#[derive(Drop)]
pub struct IntelPlan {
    bundle: Snapshot<Blob>,
    bots: PlannedList,
    facts: FactsList,
    tables: TableList,
}

impl Model for IntelPlan {
    ghost use Rattle.bot_rules.specs.Ready.{Planning, IsPlanning};

    ghost Value = { Planning };

    ghost view = { λ p. record { bundle = p.bundle.value; bots = p.facts } };

    ghost invariant = { λ p. IsPlanning p.bundle.value p.bots p.facts p.tables };
}

fn loaded(alloc: Global, bundle: &Bundle) -> Result<Plan, PlanFault>
    ensures ok { IfOk result (λ plan. load bundle.now ≡ Ok plan) }
    ensures refused { IsErrOf result PlanFault.Refused → result_ok (load bundle.now) ≡ None }
{
    match load(alloc, bundle) {
        Ok(plan) => Ok(plan),
        Err(LoadFault::OutOfMemory) => Err(PlanFault::OutOfMemory),
        Err(_) => Err(PlanFault::Refused),
    }
}

// The plan of the bundle whose code the bytes are.
#[tactic(auto, unfolding(crate::specs::Intel::plan_in))]
fn plan_in(alloc: Global, bundle: &Blob) -> Result<Plan, PlanFault>
    ensures ok { IfOk result (λ plan. plan_in bundle.now ≡ Some plan) }
    ensures refused { IsErrOf result PlanFault.Refused → plan_in bundle.now ≡ None }
{
    match bundle_read(alloc, bundle.bytes()) {
        Ok(bundle) => loaded(alloc, &bundle),
        Err(BundleBad::Bad) => Err(PlanFault::Refused),
        Err(BundleBad::OutOfMemory) => Err(PlanFault::OutOfMemory),
    }
}

impl IntelPlan {
    fn of_plan(alloc: Global, bundle: &Blob, plan: Plan) -> Result<IntelPlan, OutOfMemory>
        requires { plan_in bundle.now ≡ Some plan }
        ensures { IfOk result (λ ready. ready.bundle ≡ bundle.now) }
    {
        let facts = all_facts(alloc, plan.bots.as_slice())?;
        let tables = all_tables(alloc, plan.bots.as_slice())?;
        Ok(IntelPlan {
            bundle: Snapshot::of(bundle),
            bots: plan.bots,
            facts,
            tables,
        })
    }

    pub(crate) fn new(alloc: Global, bundle: &Blob) -> Result<IntelPlan, PlanFault>
        ensures ok { IfOk result (λ plan. (plan.bundle ≡ bundle.now) × (facts_in bundle.now ≡ Some plan.bots)) }
        ensures refused { IsErrOf result PlanFault.Refused → facts_in bundle.now ≡ None }
    {
        let plan = plan_in(alloc, bundle)?;
        match IntelPlan::of_plan(alloc, bundle, plan) {
            Ok(ready) => Ok(ready),
            Err(OutOfMemory) => Err(PlanFault::OutOfMemory),
        }
    }

    /// The bot of this name, as it is planned, and the table of a prefix expert.
    pub(crate) fn planned(&self, name: &BotName) -> Option<(&Planned, &Option<Table>)>
        ensures { MatchOption result (planned_in (record { bundle = self.now.bundle; bot = name.now }) ≡ None)
            (λ p. (planned_in (record { bundle = self.now.bundle; bot = name.now }) ≡ Some p.0.now) × (p.1.now ≡ table_of p.0.now.«module»)) }
    {
        match place_of_bot(self.bots.as_slice(), name) {
            Some(i) => Some((self.bots.at(i), self.tables.at(i))),
            None => None,
        }
    }

    /// The facts of the bots, in byte order of their names.
    pub(crate) fn facts(&self) -> &FactsList
        ensures { result.now ≡ self.now.bots }
    {
        &self.facts
    }
}
