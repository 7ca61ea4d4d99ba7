//! What the pipeline has to know of the bots of bundles.
use crate::bundles::bundle_in;
use crate::texts::{blob_of, push_queues, push_utf8};
use base_types::{Blob, OutOfMemory};
use bot_rules::IntelRules;
use config_bundle::{bundle_code, is_bundle};
use std::alloc::Global;
use step_code::{CacheRule, Facts, FeedFacts, PlanFault, Rules};

/// A line for each bot of a bundle: its name, role, instances, retries, delay, whether it stops, the queues of `_default` and of
/// `_on_error`, and its feed or its cache.
pub fn facts(alloc: Global, case: &str) -> Result<String, OutOfMemory> {
    match code_in(alloc, case)? {
        Some(code) => facts_in(alloc, &code),
        None => Ok("no bundle".to_string(alloc)?),
    }
}

/// The same of the bundle whose code these bytes are.
pub fn facts_of_code(alloc: Global, case: &str) -> Result<String, OutOfMemory> {
    facts_in(alloc, &blob_of(alloc, case)?)
}

/// The code of a bundle; `None` where it has none.
pub fn code_in(alloc: Global, case: &str) -> Result<Option<Blob>, OutOfMemory> {
    let bundle = bundle_in(alloc, case)?;
    if !is_bundle(&bundle) {
        return Ok(None);
    }
    Ok(Some(bundle_code(alloc, &bundle)?))
}

fn facts_in(alloc: Global, code: &Blob) -> Result<String, OutOfMemory> {
    let rules = IntelRules::new();
    match rules.plan(alloc, code) {
        Ok(plan) => facts_text(alloc, rules.facts(&plan).as_slice()),
        Err(PlanFault::Refused) => Ok("refused".to_string(alloc)?),
        Err(PlanFault::OutOfMemory) => Err(OutOfMemory),
    }
}

fn facts_text(alloc: Global, bots: &[Facts]) -> Result<String, OutOfMemory> {
    let mut out = String::new(alloc);
    for facts in bots {
        push_facts(&mut out, facts)?;
        out.push_str("\n")?;
    }
    Ok(out)
}

fn push_facts(out: &mut String, facts: &Facts) -> Result<(), OutOfMemory> {
    push_utf8(out, facts.bot.bytes())?;
    push_numbers(out, facts)?;
    push_queues(out, facts.defaults.as_slice())?;
    out.push_str(",")?;
    push_queues(out, facts.on_error.as_slice())?;
    push_feed(out, &facts.feed)?;
    push_cache(out, &facts.cache)
}

fn push_numbers(out: &mut String, facts: &Facts) -> Result<(), OutOfMemory> {
    let role = facts.role;
    let instances = facts.instances;
    let retries = facts.retries;
    let delay = facts.delay;
    let stop = facts.stop;
    write!(out, " {role:?} {instances} {retries} {delay} {stop}:")?;
    Ok(())
}

fn push_feed(out: &mut String, feed: &Option<FeedFacts>) -> Result<(), OutOfMemory> {
    if let Some(feed) = feed {
        let file = feed.file.as_str();
        let size = feed.chunk_size;
        let replicate = feed.replicate;
        write!(out, ", {file} {size} {replicate}")?;
    }
    Ok(())
}

fn push_cache(out: &mut String, cache: &Option<CacheRule>) -> Result<(), OutOfMemory> {
    if let Some(cache) = cache {
        let ttl = cache.ttl;
        let most = cache.cache_max;
        write!(out, ", {ttl} {most}")?;
    }
    Ok(())
}
