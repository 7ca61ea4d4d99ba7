//! Whether the numbers and the names in a list differ from each other.
ghost use Rattle.std.specs.Prelude.{◌≡◌, map, nat_lt, IfOk};
ghost use Rattle.std.specs.Str.{bytes_eq};
ghost use Rattle.std.specs.List.{IsAllAdjacentAnswer, list_all};
ghost use Rattle.std.specs.Cmp.Lexicographic.{slice_cmp};
ghost use Rattle.std.specs.Ordering.{nat_cmp, is_lt};
ghost use Rattle.sound_states.specs.SoundTests.{are_apart_below, are_distinct, hand_key, names_differ, rise};
ghost use Rattle.step_code.specs.Sound.{is_same_hand};

use base_types::{Blob, BotName, OutOfMemory};
use std::alloc::Global;
use step_code::{Base, BotCache, Feed, Output};
use stored_types::{Hand, Mark, Queue};

// Whether each number is above the one before it, and the first above 0.
fn rise(numbers: &[u64]) -> bool
    ensures { result ≡ rise 0 numbers.now }
{
    let mut last = 0;
    'numbers: for number in numbers {
        if *number <= last {
            return false;
        }
        last = *number;
    }
    true
}

fn all_below(numbers: &[u64], next: u64) -> bool
    ensures { result ≡ list_all (λ n. nat_lt n next) numbers.now }
{
    numbers.iter().all(|n| *n < next)
}

/// Whether the numbers are from 1 on and below the next one, and none stands twice.
#[tactic(auto, using(crate::proofs::Apart::rises_as))]
pub fn are_apart_below(mut numbers: Vec<u64>, next: u64) -> bool
    ensures { result ≡ are_apart_below next numbers.items }
{
    let below = all_below(&numbers, next);
    numbers.sort_unstable();
    below && rise(&numbers)
}

// Whether each name is below the next, in byte order.
fn ascend(names: &[&[u8]]) -> bool
    ensures { IsAllAdjacentAnswer (λ x y b. b ≡ is_lt (slice_cmp nat_cmp x.now y.now)) names.now result }
{
    names.is_sorted_by(|a, b| a.cmp(b).is_lt())
}

// Whether no two names are the same.
fn are_distinct(mut names: Vec<&[u8]>) -> bool
    ensures { result ≡ are_distinct bytes_eq (map (λ name. name.now) names.entry.items) }
{
    names.sort_unstable();
    ascend(&names)
}

// The bytes that tell an instance's hand from another's.
fn hand_key(alloc: Global, hand: &Hand) -> Result<Blob, OutOfMemory>
    ensures { IfOk result (λ key. key ≡ hand_key hand.now) }
{
    let mut key = Blob::new(alloc, &[hand.instance])?;
    key.append(hand.bot.bytes())?;
    Ok(key)
}

fn hand_keys(alloc: Global, hands: &[Hand]) -> Result<Vec<Blob>, OutOfMemory>
    ensures { IfOk result (λ keys. keys.items ≡ map hand_key hands.now) }
{
    let mut keys = Vec::with_capacity(alloc, hands.len())?;
    'hands: for hand in hands {
        keys.push(hand_key(alloc, hand)?)?;
    }
    Ok(keys)
}

fn blobs_differ(alloc: Global, blobs: &[Blob]) -> Result<bool, OutOfMemory>
    ensures { IfOk result (λ differ. differ ≡ are_distinct bytes_eq blobs.now) }
{
    let mut names = Vec::new(alloc);
    'blobs: for blob in blobs {
        names.push(blob.bytes())?;
    }
    Ok(are_distinct(names))
}

/// Whether no instance has two hands.
#[tactic(auto, using(crate::proofs::Apart::keys_as))]
pub fn hands_differ(alloc: Global, hands: &[Hand]) -> Result<bool, OutOfMemory>
    ensures { IfOk result (λ differ. differ ≡ are_distinct is_same_hand hands.now) }
{
    let keys = hand_keys(alloc, hands)?;
    blobs_differ(alloc, &keys)
}

fn queues_differ(alloc: Global, queues: &[Queue]) -> Result<bool, OutOfMemory>
    ensures { IfOk result (λ differ. differ ≡ are_distinct bytes_eq (map (λ q. q.name) queues.now)) }
{
    let mut names = Vec::new(alloc);
    'queues: for queue in queues {
        names.push(queue.name.bytes())?;
    }
    Ok(are_distinct(names))
}

fn caches_differ(alloc: Global, caches: &[BotCache]) -> Result<bool, OutOfMemory>
    ensures { IfOk result (λ differ. differ ≡ are_distinct bytes_eq (map (λ c. c.bot) caches.now)) }
{
    let mut names = Vec::new(alloc);
    'caches: for cache in caches {
        names.push(cache.bot.bytes())?;
    }
    Ok(are_distinct(names))
}

fn outs_differ(alloc: Global, outs: &[Output]) -> Result<bool, OutOfMemory>
    ensures { IfOk result (λ differ. differ ≡ are_distinct bytes_eq (map (λ o. o.bot) outs.now)) }
{
    let mut names = Vec::new(alloc);
    'outs: for out in outs {
        names.push(out.bot.bytes())?;
    }
    Ok(are_distinct(names))
}

fn feeds_differ(alloc: Global, feeds: &[Feed]) -> Result<bool, OutOfMemory>
    ensures { IfOk result (λ differ. differ ≡ are_distinct bytes_eq (map (λ f. f.bot) feeds.now)) }
{
    let mut names = Vec::new(alloc);
    'feeds: for feed in feeds {
        names.push(feed.bot.bytes())?;
    }
    Ok(are_distinct(names))
}

fn bots_differ(alloc: Global, bots: &[BotName]) -> Result<bool, OutOfMemory>
    ensures { IfOk result (λ differ. differ ≡ are_distinct bytes_eq bots.now) }
{
    let mut names = Vec::new(alloc);
    'bots: for bot in bots {
        names.push(bot.bytes())?;
    }
    Ok(are_distinct(names))
}

/// Whether no queue, cache, output or feed stands twice, and no bot is halted twice.
pub fn names_differ(alloc: Global, base: &Base) -> Result<bool, OutOfMemory>
    ensures { IfOk result (λ differ. differ ≡ names_differ base.now) }
{
    let queues = queues_differ(alloc, base.queues.as_slice())?;
    let caches = caches_differ(alloc, base.caches.as_slice())?;
    let outs = outs_differ(alloc, base.outs.as_slice())?;
    let feeds = feeds_differ(alloc, base.feeds.as_slice())?;
    let halted = bots_differ(alloc, base.halted.as_slice())?;
    Ok(queues && caches && outs && feeds && halted)
}

/// Whether no key is marked twice.
pub fn keys_differ(alloc: Global, marks: &[Mark]) -> Result<bool, OutOfMemory>
    ensures { IfOk result (λ differ. differ ≡ are_distinct bytes_eq (map (λ mark. mark.key) marks.now)) }
{
    let mut keys = Vec::new(alloc);
    'marks: for mark in marks {
        keys.push(mark.key.bytes())?;
    }
    Ok(are_distinct(keys))
}
