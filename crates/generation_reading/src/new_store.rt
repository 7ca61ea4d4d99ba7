//! The state of a new store.
ghost use Rattle.std.specs.Prelude.{◌≡◌, ◌≤◌, ◌++◌, [], length, map, filter, take, OnOk, IfOk};
ghost use Rattle.step_code.specs.History.{first};
ghost use Rattle.step_code.specs.Rules.{collects, writes};
ghost use Rattle.step_code.specs.State.{new_feed, new_out};

use base_types::{Blob, LineList, Moment, OutOfMemory};
use std::alloc::Global;
use step_code::{
    Base, BotList, CacheList, Facts, Feed, FeedList, OutList, Output, collects, writes,
};
use stored_types::{DumpList, HandList, WaitingList};

fn new_out(alloc: Global, facts: &Facts) -> Output
    ensures { result ≡ new_out facts.now }
{
    Output {
        bot: facts.bot,
        sealed_bytes: 0,
        sealed_lines: 0,
        lines: LineList::new(alloc),
    }
}

fn new_feed(facts: &Facts) -> Feed
    ensures { result ≡ new_feed facts.now }
{
    Feed {
        bot: facts.bot,
        round: 1,
        position: 0,
        finished: false,
    }
}

// An output for each bot that writes.
fn first_outs(alloc: Global, bots: &[Facts]) -> Result<OutList, OutOfMemory>
    ensures { IfOk result (λ outs. outs ≡ map new_out (filter writes bots.now)) }
{
    let mut outs = OutList::new(alloc);
    'bots: for facts in bots {
        if writes(facts) {
            let Ok(()) = outs.push(new_out(alloc, facts)) else {
                return Err(OutOfMemory);
            };
        }
    }
    Ok(outs)
}

// A feed for each collector.
fn first_feeds(alloc: Global, bots: &[Facts]) -> Result<FeedList, OutOfMemory>
    ensures { IfOk result (λ feeds. feeds ≡ map new_feed (filter collects bots.now)) }
{
    let mut feeds = FeedList::new(alloc);
    'bots: for facts in bots {
        if collects(facts) {
            let Ok(()) = feeds.push(new_feed(facts)) else {
                return Err(OutOfMemory);
            };
        }
    }
    Ok(feeds)
}

/// The state of a new store of this bundle, which has these bots.
pub fn first_state(alloc: Global, bots: &[Facts], bundle: &Blob) -> Result<Base, OutOfMemory>
    ensures { IfOk result (λ base. base ≡ first bots.now bundle.now) }
{
    Ok(Base {
        steps: 0,
        next_message: 1,
        next_dump: 1,
        discarded: 0,
        latest: Moment(0),
        bundle_no: 1,
        bundle: bundle.copy(alloc)?,
        queues: WaitingList::new(alloc),
        hands: HandList::new(alloc),
        caches: CacheList::new(alloc),
        dumps: DumpList::new(alloc),
        outs: first_outs(alloc, bots)?,
        feeds: first_feeds(alloc, bots)?,
        halted: BotList::new(alloc),
    })
}
