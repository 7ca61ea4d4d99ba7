//! Which bot sends to which, by their places.
ghost use Rattle.std.specs.Prelude.{◌≡◌, ◌++◌, true, filter_map, map, IfOk, MatchOption, OnOk, ◌≢◌, List, ℕ};
ghost use Rattle.std.specs.FinMap.{is_sorted};
ghost use Rattle.std.specs.Ordering.{nat_cmp};
ghost use Rattle.std.specs.Cmp.Lexicographic.{slice_cmp};
ghost use Rattle.base_types.specs.Name.{queue_ending};
ghost use Rattle.base_types.specs.Place.{IsPlace};
ghost use Rattle.module_settings.specs.Modules.{is_collector};
ghost use Rattle.runtime_text.specs.Read.{entries_of, entry_of};
ghost use Rattle.runtime_text.specs.Runtime.{module_of};
ghost use Rattle.runtime_text.specs.Wires.{graph_of, owner, wires_of};

use crate::bot::Bot;
use base_types::{OutOfMemory, Text, TextList};
use std::alloc::Global;
use std::cmp::Ordering;

const QUEUE_ENDING: &[u8] = b"-queue";

fn is_collector(bot: &Bot) -> bool
    ensures { result ≡ is_collector (module_of (entry_of bot.now)) }
{
    module_settings::is_collector(bot.module())
}

fn compare(bot: &Bot, name: &[u8]) -> Ordering
    ensures { result ≡ slice_cmp nat_cmp (entry_of bot.now).0 name.now }
{
    bot.name().bytes().cmp(name)
}

// Where the bot of this name stands.
fn place_of(bots: &[Bot], name: &[u8]) -> Result<usize, usize>
    requires { is_sorted (slice_cmp nat_cmp) (entries_of bots.now) ≡ true }
    ensures { IsPlace name.now (entries_of bots.now) result }
{
    bots.binary_search_by(|bot| compare(bot, name))
}

// What stands before `-queue` at the end.
fn without_ending(queue: &[u8]) -> Option<&[u8]>
    ensures { MatchOption result ((bot : List ℕ) → queue.now ≢ bot ++ queue_ending) (λ bot. queue.now ≡ bot.now ++ queue_ending) }
{
    queue.strip_suffix(QUEUE_ENDING)
}

/// The place of the bot whose queue it is, which is no collector.
pub fn owner(bots: &[Bot], queue: &Text) -> Option<usize>
    requires { is_sorted (slice_cmp nat_cmp) (entries_of bots.now) ≡ true }
    ensures { result ≡ owner (entries_of bots.now) queue.now }
{
    let Some(name) = without_ending(queue.bytes()) else {
        return None;
    };
    let Ok(i) = place_of(bots, name) else {
        return None;
    };
    if is_collector(&bots[i]) {
        None
    } else {
        Some(i)
    }
}

fn push_owners(bots: &[Bot], queues: &[Text], wires: &mut Vec<usize>) -> Result<(), OutOfMemory>
    requires { is_sorted (slice_cmp nat_cmp) (entries_of bots.now) ≡ true }
    ensures { OnOk result (wires.new.items ≡ wires.old.items ++ filter_map (owner (entries_of bots.now)) queues.now) }
{
    'queues: for queue in queues {
        if let Some(i) = owner(bots, queue) {
            wires.push(i)?;
        }
    }
    Ok(())
}

// The queues of a path.
fn queues_of(path: &(Text, TextList)) -> &[Text]
    ensures { result.now ≡ path.now.1 }
{
    path.1.as_slice()
}

fn wires_of(alloc: Global, bots: &[Bot], bot: &Bot) -> Result<Vec<usize>, OutOfMemory>
    requires { is_sorted (slice_cmp nat_cmp) (entries_of bots.now) ≡ true }
    ensures { IfOk result (λ wires. wires.items ≡ wires_of (entries_of bots.now) (entry_of bot.now)) }
{
    let mut wires = Vec::new(alloc);
    'routes: for route in bot.routes() {
        push_owners(bots, queues_of(route), &mut wires)?;
    }
    Ok(wires)
}

/// What each of the bots sends to.
pub fn graph_of(alloc: Global, bots: &[Bot]) -> Result<Vec<Vec<usize>>, OutOfMemory>
    requires { is_sorted (slice_cmp nat_cmp) (entries_of bots.now) ≡ true }
    ensures { IfOk result (λ graph. map (λ wires. wires.items) graph.items ≡ graph_of (entries_of bots.now)) }
{
    let mut graph = Vec::with_capacity(alloc, bots.len())?;
    'bots: for bot in bots {
        graph.push(wires_of(alloc, bots, bot)?)?;
    }
    Ok(graph)
}
