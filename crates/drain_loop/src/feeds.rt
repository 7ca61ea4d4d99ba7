//! The feeds of a plan's collectors.
ghost use Rattle.std.specs.Prelude.{◌≡◌, ◌++◌, [], ◌∷◌, filter, map, OnOk, OnErr};
ghost use Rattle.std.specs.List.{AllByRecursion};
ghost use Rattle.step_code.specs.Rules.{collects, IsSoundBot};
ghost use Rattle.step_code.specs.State.{bots_in_force};
ghost use Rattle.turn_order.specs.Turn.{collectors};
ghost use Rattle.drain_loop.specs.Feeds.{key_of_bot, key_of_feed, AreOf, AreOfFirst, IsAdded, IsClosed};

use ack_steps::Core;
use base_types::OutOfMemory;
use collector_feeds::CollectorFeed;
use edge_traits::Source;
use std::alloc::Global;
use step_code::{Facts, Rules};

// The feeds of the collectors of the bundle in force, in byte order of their names; where memory runs out, those of the first.
pub(crate) fn feeds_of<R: Rules, S: Source>(
    alloc: Global,
    core: &Core<R>,
) -> (Vec<CollectorFeed<S>>, Result<(), OutOfMemory>)
    ensures first { AreOfFirst (collectors R.meaning core.now.state) result.0.items }
    ensures all { OnOk result.1 (AreOf (collectors R.meaning core.now.state) result.0.items) }
    ensures closed { AllByRecursion IsClosed result.0.items }
{
    let mut feeds = Vec::new(alloc);
    let added = add_feeds(alloc, bots(core), &mut feeds);
    (feeds, added)
}

// The bots of the bundle in force, in byte order.
pub(crate) fn bots<R: Rules>(core: &Core<R>) -> &[Facts]
    ensures bots { result.now ≡ bots_in_force R.meaning core.now.state }
    ensures sound { AllByRecursion IsSoundBot result.now }
{
    core.rules().facts(core.plan()).as_slice()
}

// Adds the feeds of those of these bots that are collectors.
fn add_feeds<S: Source>(
    alloc: Global,
    bots: &[Facts],
    feeds: &mut Vec<CollectorFeed<S>>,
) -> Result<(), OutOfMemory>
    requires sound { AllByRecursion IsSoundBot bots.now }
    ensures added { IsAdded result feeds.old.items feeds.new.items (filter collects bots.now) }
    ensures closed { AllByRecursion IsClosed feeds.old.items → AllByRecursion IsClosed feeds.new.items }
{
    match bots {
        [] => Ok(()),
        [facts, others @ ..] => {
            match add_feed(alloc, facts, feeds) {
                Ok(()) => add_feeds(alloc, others, feeds),
                Err(OutOfMemory) => Err(OutOfMemory),
            }
        }
    }
}

// Adds the feed of a bot, if it is a collector.
fn add_feed<S: Source>(
    alloc: Global,
    facts: &Facts,
    feeds: &mut Vec<CollectorFeed<S>>,
) -> Result<(), OutOfMemory>
    requires sound { IsSoundBot facts.now }
    ensures added { OnOk result (map key_of_feed feeds.new.items ≡ map key_of_feed feeds.old.items ++ map key_of_bot (filter collects (facts.now ∷ []))) }
    ensures none { OnErr result (feeds.new.items ≡ feeds.old.items) }
    ensures closed { AllByRecursion IsClosed feeds.old.items → AllByRecursion IsClosed feeds.new.items }
{
    let Some(feed) = &facts.feed else {
        return Ok(());
    };
    feeds.reserve(1)?;
    let feed = CollectorFeed::new(alloc, facts.bot, feed, facts.retries)?;
    feeds.push_reserved(feed);
    Ok(())
}
