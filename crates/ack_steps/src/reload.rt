//! Another bundle is put in force.
ghost use Rattle.std.specs.Prelude.{◌≡◌, ◌+◌, ◌≤◌, ◌<◌, ◌++◌, ◌∷◌, [], ℕ, List, Some, None, length, map, take, MatchOption, OnOk, OnErr, vec_capacity, if◌then◌else◌};
ghost use Rattle.std.specs.List.{AllByRecursion, list_any};
ghost use Rattle.base_types.specs.Number.{last_u64};
ghost use Rattle.step_code.specs.After.{all_given_back, falling, file_of, given_back, instances_of, keeps_file, reloaded, renewed, with_feeds, with_outs};
ghost use Rattle.step_code.specs.State.{is_feed, is_instance, is_out};
ghost use Rattle.ack_steps.specs.Entries.{new_feeds, new_outs};
ghost use Rattle.core_state.specs.Outputs.{HaveLengths, outs_of};
ghost use Rattle.core_state.specs.State.{HasFewSends, state_of};

use base_types::{Blob, BotName, OutOfMemory, Text};
use core_state::feeds::begin_round;
use core_state::outputs::{Written, has_output};
use core_state::state::State;
use std::alloc::Global;
use step_code::{Facts, Feed, bot_named, collects, is_collector, is_instance, writes};

// The file that a collector reads.
fn file_of<'f>(bots: &'f [Facts], bot: &BotName) -> Option<&'f Text>
    ensures { MatchOption result (file_of bots.now bot.now ≡ None) (λ file. file_of bots.now bot.now ≡ Some file.now) }
{
    match bot_named(bots, bot) {
        Some(
            Facts {
                feed: Some(feed),
                ..
            },
        ) => Some(&feed.file),
        _ => None,
    }
}

// Whether both bundles give the bot the same file.
fn keeps_file(old: &[Facts], new: &[Facts], bot: &BotName) -> bool
    ensures { result ≡ keeps_file old.now new.now bot.now }
{
    let Some(file) = file_of(new, bot) else {
        return false;
    };
    match file_of(old, bot) {
        Some(before) => *file == *before,
        None => false,
    }
}

// A collector whose file isn't the one that it had begins anew.
fn renew(feed: &mut Feed, old: &[Facts], new: &[Facts])
    requires { feed.old.round < last_u64 }
    ensures { feed.new ≡ renewed old.now new.now feed.old }
{
    if is_collector(new, &feed.bot) && !keeps_file(old, new, &feed.bot) {
        begin_round(feed);
    }
}

// The same for each feed.
fn renew_all(feeds: &mut Vec<Feed>, old: &[Facts], new: &[Facts])
    requires { AllByRecursion (λ f. f.round < last_u64) feeds.old.items }
    ensures feeds { feeds.new.items ≡ map (renewed old.now new.now) feeds.old.items }
    ensures room { vec_capacity feeds.new ≡ vec_capacity feeds.old }
{
    'feeds: for feed in feeds.iter_mut() {
        renew(feed, old, new);
    }
}

fn has_feed(feeds: &[Feed], bot: &BotName) -> bool
    ensures { result ≡ list_any (is_feed bot.now) feeds.now }
{
    feeds.iter().any(|feed| feed.bot == *bot)
}

// An entry at the end for a collector that has none among the first ones. It takes no memory.
fn add_feed(feeds: &mut Vec<Feed>, count: usize, facts: &Facts)
    requires first { count ≤ length feeds.old.items }
    requires room { length feeds.old.items < vec_capacity feeds.old }
    ensures feeds { feeds.new.items ≡ feeds.old.items ++ new_feeds (facts.now ∷ []) (take count feeds.old.items) }
    ensures room { vec_capacity feeds.new ≡ vec_capacity feeds.old }
{
    if collects(facts) && !has_feed(&feeds[..count], &facts.bot) {
        feeds.push_reserved(Feed {
            bot: facts.bot,
            round: 1,
            position: 0,
            finished: false,
        });
    }
}

// Entries at the end for the collectors that have none. It takes no memory.
fn add_feeds(feeds: &mut Vec<Feed>, bots: &[Facts])
    requires { length feeds.old.items + length bots.now ≤ vec_capacity feeds.old }
    ensures { feeds.new.items ≡ with_feeds bots.now feeds.old.items }
{
    let count = feeds.len();
    'bots: for facts in bots {
        add_feed(feeds, count, facts);
    }
}

// An entry at the end for a bot that writes and has none among the first ones. It takes no memory.
fn add_out(outs: &mut Vec<Written>, alloc: Global, count: usize, facts: &Facts)
    requires first { count ≤ length outs.old.items }
    requires room { length outs.old.items < vec_capacity outs.old }
    ensures outs { outs_of outs.new.items ≡ outs_of outs.old.items ++ new_outs (facts.now ∷ []) (outs_of (take count outs.old.items)) }
    ensures first { take count outs.new.items ≡ take count outs.old.items }
    ensures len { length outs.new.items ≤ length outs.old.items + 1 }
    ensures room { vec_capacity outs.new ≡ vec_capacity outs.old }
    ensures lengths { HaveLengths outs.old.items → HaveLengths outs.new.items }
{
    if writes(facts) && !has_output(&outs[..count], &facts.bot) {
        outs.push_reserved(Written::new(alloc, &facts.bot));
    }
}

// Entries at the end for the bots that write and have none. It takes no memory.
fn add_outs(outs: &mut Vec<Written>, alloc: Global, bots: &[Facts])
    requires { length outs.old.items + length bots.now ≤ vec_capacity outs.old }
    ensures outs { outs_of outs.new.items ≡ with_outs bots.now (outs_of outs.old.items) }
    ensures lengths { HaveLengths outs.old.items → HaveLengths outs.new.items }
{
    let count = outs.len();
    'bots: for facts in bots {
        add_out(outs, alloc, count, facts);
    }
}

// What an instance holds goes back to the front of its queue, unless the bots have the instance.
fn give_back(state: &mut State, bots: &[Facts], bot: &BotName, instance: u8)
    ensures given_back { state_of state.new ≡ (if is_instance bots.now bot.now instance then state_of state.old else given_back bot.now instance (state_of state.old)) }
    ensures same { state.new ≡ record state.old { broker = state.new.broker } }
    ensures pushed { state.new.broker.pushed ≡ state.old.broker.pushed }
{
    if is_instance(bots, bot, instance) {
        return;
    }
    state.broker.give_back(bot, instance);
}

// The same for the first instances of a bot, the last of them first.
fn give_back_all_of(state: &mut State, bots: &[Facts], bot: &BotName, instances: u8)
    ensures given_back { state_of state.new ≡ all_given_back bots.now (map (λ instance. (bot.now, instance)) (falling instances)) (state_of state.old) }
    ensures same { state.new ≡ record state.old { broker = state.new.broker } }
    ensures pushed { state.new.broker.pushed ≡ state.old.broker.pushed }
{
    let mut instance = instances;
    'instances: while instance > 0 {
        give_back(state, bots, bot, instance);
        instance -= 1;
    }
}

// The same for a bot, if it takes messages.
fn give_back_bot(state: &mut State, bots: &[Facts], facts: &Facts)
    ensures given_back { state_of state.new ≡ all_given_back bots.now (instances_of (facts.now ∷ [])) (state_of state.old) }
    ensures same { state.new ≡ record state.old { broker = state.new.broker } }
    ensures pushed { state.new.broker.pushed ≡ state.old.broker.pushed }
{
    if !collects(facts) {
        give_back_all_of(state, bots, &facts.bot, facts.instances);
    }
}

// The same for all instances of the bots of before, in their order.
fn give_back_all(state: &mut State, bots: &[Facts], before: &[Facts])
    ensures given_back { state_of state.new ≡ all_given_back bots.now (instances_of before.now) (state_of state.old) }
    ensures same { state.new ≡ record state.old { broker = state.new.broker } }
    ensures pushed { state.new.broker.pushed ≡ state.old.broker.pushed }
{
    'bots: for facts in before {
        give_back_bot(state, bots, facts);
    }
}

/// Makes room for entries of all these bots. The state stays.
pub fn make_entry_room(state: &mut State, bots: &[Facts]) -> Result<(), OutOfMemory>
    ensures same { state_of state.new ≡ state_of state.old }
    ensures outs { state.new.outs.items ≡ state.old.outs.items }
    ensures feeds { state.new.feeds.items ≡ state.old.feeds.items }
    ensures caches { state.new.caches ≡ state.old.caches }
    ensures pushed { state.new.broker.pushed ≡ state.old.broker.pushed }
    ensures feed_room { OnOk result (length state.new.feeds.items + length bots.now ≤ vec_capacity state.new.feeds) }
    ensures out_room { OnOk result (length state.new.outs.items + length bots.now ≤ vec_capacity state.new.outs) }
{
    state.feeds.reserve(bots.len())?;
    state.outs.reserve(bots.len())?;
    Ok(())
}

// Feeds and outputs of the new bots, and their bundle. It takes no memory.
fn make_entries(state: &mut State, alloc: Global, bots: &[Facts], before: &[Facts], bundle: Blob)
    requires rounds { AllByRecursion (λ f. f.round < last_u64) state.old.feeds.items }
    requires number { state.old.bundle_no < last_u64 }
    requires feed_room { length state.old.feeds.items + length bots.now ≤ vec_capacity state.old.feeds }
    requires out_room { length state.old.outs.items + length bots.now ≤ vec_capacity state.old.outs }
    ensures ok { state_of state.new ≡ record (state_of state.old) {
      bundle = bundle;
      bundle_no = state.old.bundle_no + 1;
      halted = [];
      feeds = with_feeds bots.now (map (renewed before.now bots.now) state.old.feeds.items);
      outs = with_outs bots.now (outs_of state.old.outs.items);
    } }
    ensures bundle { state.new.bundle ≡ bundle }
    ensures lengths { HaveLengths state.old.outs.items → HaveLengths state.new.outs.items }
    ensures few { HasFewSends state.old → HasFewSends state.new }
    ensures caches { state.new.caches ≡ state.old.caches }
    ensures steps { state.new.steps ≡ state.old.steps }
{
    renew_all(&mut state.feeds, before, bots);
    add_feeds(&mut state.feeds, bots);
    add_outs(&mut state.outs, alloc, bots);
    state.halted.clear();
    state.bundle = bundle;
    state.bundle_no += 1;
}

/// A bundle with these bots is put in force, where the bundle of before had those. It takes no memory.
pub fn reload(state: &mut State, alloc: Global, bots: &[Facts], before: &[Facts], bundle: Blob)
    requires rounds { AllByRecursion (λ f. f.round < last_u64) state.old.feeds.items }
    requires number { state.old.bundle_no < last_u64 }
    requires feed_room { length state.old.feeds.items + length bots.now ≤ vec_capacity state.old.feeds }
    requires out_room { length state.old.outs.items + length bots.now ≤ vec_capacity state.old.outs }
    ensures reloaded { state_of state.new ≡ reloaded before.now bots.now bundle (state_of state.old) }
    ensures bundle { state.new.bundle ≡ bundle }
    ensures lengths { HaveLengths state.old.outs.items → HaveLengths state.new.outs.items }
    ensures few { HasFewSends state.old → HasFewSends state.new }
    ensures caches { state.new.caches ≡ state.old.caches }
    ensures steps { state.new.steps ≡ state.old.steps }
{
    make_entries(state, alloc, bots, before, bundle);
    give_back_all(state, bots, before);
}
