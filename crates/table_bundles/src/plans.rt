//! What is planned of bundles.
use crate::bundles::bundle_in;
use crate::loads::fault_text;
use crate::modules::push_module;
use crate::texts::{push_queues, push_utf8};
use base_types::OutOfMemory;
use runtime_config::{LoadFault, Plan, Planned, load};
use std::alloc::Global;

/// A line for each bot of a bundle, or what is wrong with it.
pub fn planned(alloc: Global, case: &str) -> Result<String, OutOfMemory> {
    let bundle = bundle_in(alloc, case)?;
    plan_text(alloc, &load(alloc, &bundle))
}

fn plan_text(alloc: Global, loaded: &Result<Plan, LoadFault>) -> Result<String, OutOfMemory> {
    match loaded {
        Ok(plan) => bots_text(alloc, plan.bots.as_slice()),
        Err(fault) => fault_text(alloc, fault),
    }
}

fn bots_text(alloc: Global, bots: &[Planned]) -> Result<String, OutOfMemory> {
    let mut out = String::new(alloc);
    for bot in bots {
        push_planned(&mut out, bot)?;
        out.push_str("\n")?;
    }
    Ok(out)
}

fn push_planned(out: &mut String, planned: &Planned) -> Result<(), OutOfMemory> {
    push_utf8(out, planned.bot.bytes())?;
    out.push_str(": ")?;
    push_module(out, &planned.module)?;
    push_numbers(out, planned)?;
    for route in planned.paths.as_slice() {
        out.push_str("; ")?;
        out.push_str(route.path.as_str())?;
        push_queues(out, route.queues.as_slice())?;
    }
    Ok(())
}

fn push_numbers(out: &mut String, planned: &Planned) -> Result<(), OutOfMemory> {
    let instances = planned.instances;
    let retries = planned.retries;
    let delay = planned.delay;
    let stop = planned.stop;
    write!(out, "; {instances} {retries} {delay} {stop}")?;
    Ok(())
}
