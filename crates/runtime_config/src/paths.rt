//! The paths of a bot.
ghost use Rattle.std.specs.Prelude.{◌≡◌, ◌<◌, true, length, slice_index_or, IfOk};
ghost use Rattle.std.specs.FinMap.{is_sorted};
ghost use Rattle.std.specs.Ordering.{nat_cmp};
ghost use Rattle.std.specs.Cmp.Lexicographic.{slice_cmp};
ghost use Rattle.base_types.specs.Name.{queue_name};
ghost use Rattle.runtime_config.specs.Paths.{known_path, known_paths, known_queue, known_queues};
ghost use Rattle.runtime_text.specs.Read.{entries_of, entry_of};
ghost use Rattle.runtime_text.specs.Runtime.{routes, Entry};

use crate::{Route, RouteList};
use base_types::{OutOfMemory, QueueList, QueueName, Text, TextList, queue_of};
use module_settings::text_of;
use runtime_text::{Bot, owner};
use std::alloc::Global;

fn queue_at(bots: &[Bot], i: usize) -> QueueName
    requires { i < length bots.now }
    ensures { (d : Entry) → result ≡ queue_name (slice_index_or (entries_of bots.now) i d).0 }
{
    queue_of(&bots[i].name())
}

// The queue of this name, where it is that of one of the bots.
fn known_queue(bots: &[Bot], queue: &Text) -> Option<QueueName>
    requires { is_sorted (slice_cmp nat_cmp) (entries_of bots.now) ≡ true }
    ensures { result ≡ known_queue (entries_of bots.now) queue.now }
{
    match owner(bots, queue) {
        Some(i) => Some(queue_at(bots, i)),
        None => None,
    }
}

fn known_queues(
    alloc: Global,
    bots: &[Bot],
    names: &[Text],
) -> Result<Option<QueueList>, OutOfMemory>
    requires { is_sorted (slice_cmp nat_cmp) (entries_of bots.now) ≡ true }
    ensures { IfOk result (λ queues. queues ≡ known_queues (entries_of bots.now) names.now) }
{
    let mut queues = Vec::with_capacity(alloc, names.len())?;
    'names: for name in names {
        let Some(queue) = known_queue(bots, name) else {
            return Ok(None);
        };
        queues.push(queue)?;
    }
    Ok(Some(QueueList::from(queues)))
}

fn known_path(
    alloc: Global,
    bots: &[Bot],
    path: &(Text, TextList),
) -> Result<Option<Route>, OutOfMemory>
    requires { is_sorted (slice_cmp nat_cmp) (entries_of bots.now) ≡ true }
    ensures { IfOk result (λ route. route ≡ known_path (entries_of bots.now) path.now) }
{
    match known_queues(alloc, bots, path.1.as_slice())? {
        Some(queues) => Ok(Some(Route {
            path: text_of(alloc, path.0.as_str())?,
            queues,
        })),
        None => Ok(None),
    }
}

/// The bot's paths, in byte order, where each queue is that of one of the bots, which is no collector.
pub(crate) fn known_paths(
    alloc: Global,
    bots: &[Bot],
    bot: &Bot,
) -> Result<Option<RouteList>, OutOfMemory>
    requires { is_sorted (slice_cmp nat_cmp) (entries_of bots.now) ≡ true }
    ensures { IfOk result (λ paths. paths ≡ known_paths (entries_of bots.now) (routes (entry_of bot.now))) }
{
    let mut paths = Vec::new(alloc);
    'routes: for route in bot.routes() {
        let Some(path) = known_path(alloc, bots, route)? else {
            return Ok(None);
        };
        paths.push(path)?;
    }
    Ok(Some(RouteList::from(paths)))
}
