//! What the pipeline has to know of planned bots.
ghost use Rattle.std.specs.Prelude.{◌≡◌, map, IfOk};
ghost use Rattle.bot_rules.specs.Facts.{cache_of, default_path, error_path, facts_of, feed_of, queues_on, role_of};

use crate::planned::route_named;
use base_types::{OutOfMemory, QueueList};
use runtime_config::{Module, Planned, Route};
use std::alloc::Global;
use step_code::{CacheRule, Facts, FactsList, FeedFacts, Role};

pub const DEFAULT_PATH: &str = "_default";

const ERROR_PATH: &str = "_on_error";

/// A copy of the queues of a path; none where there is no such path.
pub fn queues_on(alloc: Global, path: &str, routes: &[Route]) -> Result<QueueList, OutOfMemory>
    ensures { IfOk result (λ queues. queues ≡ queues_on path.now routes.now) }
{
    match route_named(routes, path) {
        Some(route) => Ok(QueueList::from(route.queues.as_slice().to_vec(alloc)?)),
        None => Ok(QueueList::new(alloc)),
    }
}

fn role_of(module: &Module) -> Role
    ensures { result ≡ role_of module.now }
{
    match module {
        Module::Collector { .. } => Role::Collector,
        Module::Csv { .. } | Module::Json { .. } => Role::Parser,
        Module::Sieve(_)
        | Module::Dedup { .. }
        | Module::Prefix { .. }
        | Module::Taxonomy
        | Module::Modify { .. } => Role::Expert,
        Module::Output => Role::Output,
    }
}

fn cache_of(module: &Module) -> Option<CacheRule>
    ensures { result ≡ cache_of module.now }
{
    match module {
        Module::Dedup { ttl, cache_max, .. } => Some(CacheRule {
            ttl: *ttl,
            cache_max: *cache_max,
        }),
        _ => None,
    }
}

fn feed_of(alloc: Global, module: &Module) -> Result<Option<FeedFacts>, OutOfMemory>
    ensures { IfOk result (λ feed. feed ≡ feed_of module.now) }
{
    match module {
        Module::Collector {
            file,
            chunk_size,
            replicate,
            ..
        } => Ok(Some(FeedFacts {
            file: file.copy(alloc)?,
            chunk_size: *chunk_size,
            replicate: *replicate,
        })),
        _ => Ok(None),
    }
}

/// The facts of a bot.
#[tactic(auto, unfolding(crate::specs::Facts::facts_of))]
pub fn facts_of(alloc: Global, planned: &Planned) -> Result<Facts, OutOfMemory>
    ensures { IfOk result (λ facts. facts ≡ facts_of planned.now) }
{
    let paths = planned.paths.as_slice();
    Ok(Facts {
        bot: planned.bot,
        role: role_of(&planned.module),
        instances: planned.instances,
        retries: planned.retries,
        delay: planned.delay,
        stop: planned.stop,
        defaults: queues_on(alloc, DEFAULT_PATH, paths)?,
        on_error: queues_on(alloc, ERROR_PATH, paths)?,
        cache: cache_of(&planned.module),
        feed: feed_of(alloc, &planned.module)?,
    })
}

/// The facts of bots.
pub fn all_facts(alloc: Global, bots: &[Planned]) -> Result<FactsList, OutOfMemory>
    ensures { IfOk result (λ facts. facts ≡ map facts_of bots.now) }
{
    let mut facts = Vec::with_capacity(alloc, bots.len())?;
    'bots: for bot in bots {
        facts.push(facts_of(alloc, bot)?)?;
    }
    Ok(FactsList::from(facts))
}
