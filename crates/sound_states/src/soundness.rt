//! Whether a stored state is one that the core may take in.
ghost use Rattle.std.specs.Prelude.{◌≡◌, ◌&&◌, ◌↔◌, true, nat_le, nat_lt, map, Some, IfOk};
ghost use Rattle.std.specs.List.{list_all, list_any};
ghost use Rattle.step_code.specs.Rules.{Meaning};
ghost use Rattle.step_code.specs.Sound.{IsSound};
ghost use Rattle.step_code.specs.State.{is_feed, is_out};
ghost use Rattle.stored_types.specs.Queue.{is_queue};
ghost use Rattle.sound_states.specs.SoundTests.{bots_have_places, counts_are_within, do_not_fall, dumps_are_sound, hands_are_sound, has_feed, has_output, is_sound_cache, is_short, is_sound_hand, is_sound_under, is_within, parts_are_within, rise};

use crate::distinct::{are_apart_below, hands_differ, keys_differ, names_differ};
use crate::standing::standing;
use base_types::{BotName, Moment, OutOfMemory, QueueName, queue_of};
use std::alloc::Global;
use step_code::{
    Base, BotCache, Facts, Feed, LAST_MOMENT, LONGEST_BASE, Output, collects, is_instance, writes,
};
use stored_types::{Coded, Dump, Hand, Mark, Queue};

/// No number in a state goes past this one, so that sums with lengths fit 64 bits.
const LAST_NUMBER: u64 = 4_611_686_018_427_387_905;

const MOST_TRIES: u32 = 100;

fn is_within(number: u64) -> bool
    ensures { result ≡ is_within number }
{
    number <= LAST_NUMBER
}

fn counts_are_within(base: &Base) -> bool
    ensures { result ≡ counts_are_within base.now }
{
    base.next_message >= 1
        && base.next_dump >= 1
        && base.latest.0 <= LAST_MOMENT
        && is_within(base.steps)
        && is_within(base.next_message)
        && is_within(base.next_dump)
        && is_within(base.discarded)
        && is_within(base.bundle_no)
}

fn hands_are_within(hands: &[Hand]) -> bool
    ensures { result ≡ list_all (λ h. is_within h.since.0) hands.now }
{
    hands.iter().all(|h| is_within(h.since.0))
}

fn dumps_are_within(dumps: &[Dump]) -> bool
    ensures { result ≡ list_all (λ d. is_within d.moment.0) dumps.now }
{
    dumps.iter().all(|d| is_within(d.moment.0))
}

fn outs_are_within(outs: &[Output]) -> bool
    ensures { result ≡ list_all (λ o. is_within o.sealed_bytes && is_within o.sealed_lines) outs.now }
{
    outs.iter()
        .all(|o| is_within(o.sealed_bytes) && is_within(o.sealed_lines))
}

fn feeds_are_within(feeds: &[Feed]) -> bool
    ensures { result ≡ list_all (λ f. is_within f.round && is_within f.position) feeds.now }
{
    feeds
        .iter()
        .all(|f| is_within(f.round) && is_within(f.position))
}

// Of the numbers that no other test bounds.
fn parts_are_within(base: &Base) -> bool
    ensures { result ≡ parts_are_within base.now }
{
    hands_are_within(base.hands.as_slice())
        && dumps_are_within(base.dumps.as_slice())
        && outs_are_within(base.outs.as_slice())
        && feeds_are_within(base.feeds.as_slice())
}

fn is_queue_there(queues: &[Queue], name: &QueueName) -> bool
    ensures { result ≡ list_any (is_queue name.now) queues.now }
{
    queues.iter().any(|q| q.name == *name)
}

fn is_sound_hand(bots: &[Facts], queues: &[Queue], hand: &Hand) -> bool
    ensures { result ≡ is_sound_hand bots.now queues.now hand.now }
{
    is_instance(bots, &hand.bot, hand.instance)
        && is_queue_there(queues, &queue_of(&hand.bot))
        && hand.tries <= MOST_TRIES
}

fn each_hand_is_sound(bots: &[Facts], queues: &[Queue], hands: &[Hand]) -> bool
    ensures { result ≡ list_all (is_sound_hand bots.now queues.now) hands.now }
{
    hands.iter().all(|hand| is_sound_hand(bots, queues, hand))
}

fn hands_are_sound(alloc: Global, bots: &[Facts], base: &Base) -> Result<bool, OutOfMemory>
    ensures { IfOk result (λ sound. sound ≡ hands_are_sound bots.now base.now) }
{
    let hands = base.hands.as_slice();
    let differ = hands_differ(alloc, hands)?;
    Ok(differ && each_hand_is_sound(bots, base.queues.as_slice(), hands))
}

// Whether no moment is before the one in front of it.
fn are_in_order(marks: &[Mark]) -> bool
    ensures { result ≡ do_not_fall 0 (map (λ mark. mark.moment.0) marks.now) }
{
    let mut last = 0;
    'marks: for mark in marks {
        if mark.moment.0 < last {
            return false;
        }
        last = mark.moment.0;
    }
    true
}

fn are_past(marks: &[Mark], latest: Moment) -> bool
    ensures { result ≡ list_all (λ mark. nat_le mark.moment.0 latest.0) marks.now }
{
    marks.iter().all(|mark| mark.moment.0 <= latest.0)
}

fn is_sound_cache(alloc: Global, latest: Moment, cache: &BotCache) -> Result<bool, OutOfMemory>
    ensures { IfOk result (λ sound. sound ≡ is_sound_cache latest.0 cache.now) }
{
    let marks = cache.marks.as_slice();
    let differ = keys_differ(alloc, marks)?;
    Ok(differ && are_in_order(marks) && are_past(marks, latest))
}

fn each_cache_is_sound(
    alloc: Global,
    latest: Moment,
    caches: &[BotCache],
) -> Result<bool, OutOfMemory>
    ensures { IfOk result (λ sound. sound ≡ list_all (is_sound_cache latest.0) caches.now) }
{
    'caches: for cache in caches {
        let sound = is_sound_cache(alloc, latest, cache)?;
        if !sound {
            return Ok(false);
        }
    }
    Ok(true)
}

// Whether the numbers of dumps are from 1 on, each above the one before it.
fn dumps_rise(dumps: &[Dump]) -> bool
    ensures { result ≡ rise 0 (map (λ d. d.no) dumps.now) }
{
    let mut last = 0;
    'dumps: for dump in dumps {
        if dump.no <= last {
            return false;
        }
        last = dump.no;
    }
    true
}

fn dumps_are_below(dumps: &[Dump], next: u64) -> bool
    ensures { result ≡ list_all (λ d. nat_lt d.no next) dumps.now }
{
    dumps.iter().all(|d| d.no < next)
}

fn dumps_are_sound(dumps: &[Dump], next: u64) -> bool
    ensures { result ≡ dumps_are_sound next dumps.now }
{
    dumps_rise(dumps) && dumps_are_below(dumps, next)
}

fn is_feed_there(feeds: &[Feed], bot: &BotName) -> bool
    ensures { result ≡ list_any (is_feed bot.now) feeds.now }
{
    feeds.iter().any(|f| f.bot == *bot)
}

// A bot that is no collector needs none.
fn has_feed(feeds: &[Feed], bot: &Facts) -> bool
    ensures { result ≡ has_feed feeds.now bot.now }
{
    !collects(bot) || is_feed_there(feeds, &bot.bot)
}

fn is_output_there(outs: &[Output], bot: &BotName) -> bool
    ensures { result ≡ list_any (is_out bot.now) outs.now }
{
    outs.iter().any(|o| o.bot == *bot)
}

// A bot that doesn't write needs none.
fn has_output(outs: &[Output], bot: &Facts) -> bool
    ensures { result ≡ has_output outs.now bot.now }
{
    !writes(bot) || is_output_there(outs, &bot.bot)
}

fn collectors_have_feeds(bots: &[Facts], feeds: &[Feed]) -> bool
    ensures { result ≡ list_all (has_feed feeds.now) bots.now }
{
    bots.iter().all(|bot| has_feed(feeds, bot))
}

fn writers_have_outputs(bots: &[Facts], outs: &[Output]) -> bool
    ensures { result ≡ list_all (has_output outs.now) bots.now }
{
    bots.iter().all(|bot| has_output(outs, bot))
}

fn bots_have_places(bots: &[Facts], base: &Base) -> bool
    ensures { result ≡ bots_have_places bots.now base.now }
{
    collectors_have_feeds(bots, base.feeds.as_slice())
        && writers_have_outputs(bots, base.outs.as_slice())
}

fn is_short(base: &Base) -> bool
    ensures { result ≡ is_short base.now }
{
    base.code_len() <= LONGEST_BASE
}

fn is_sound_under(alloc: Global, bots: &[Facts], base: &Base) -> Result<bool, OutOfMemory>
    ensures { IfOk result (λ sound. sound ≡ is_sound_under bots.now base.now) }
{
    let differ = names_differ(alloc, base)?;
    let hands = hands_are_sound(alloc, bots, base)?;
    let caches = each_cache_is_sound(alloc, base.latest, base.caches.as_slice())?;
    let numbers = standing(alloc, base)?;
    Ok(
        counts_are_within(base)
            && parts_are_within(base)
            && differ
            && hands
            && caches
            && are_apart_below(numbers, base.next_message)
            && dumps_are_sound(base.dumps.as_slice(), base.next_dump)
            && bots_have_places(bots, base)
            && is_short(base),
    )
}

/// Whether a store may hold this state, under the bots of its bundle.
pub fn is_sound(alloc: Global, bots: &[Facts], base: &Base) -> Result<bool, OutOfMemory>
    ensures { (m : Meaning) → m.facts base.now.bundle ≡ Some bots.now → IfOk result (λ sound. (sound ≡ true) ↔ IsSound m base.now) }
{
    is_sound_under(alloc, bots, base)
}
