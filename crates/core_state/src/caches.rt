//! The caches of bots that drop duplicates, and the keys that are marked in them.
ghost use Rattle.std.specs.Prelude.{◌≡◌, ◌≤◌, ◌<◌, ◌+◌, ◌-◌, ◌^◌, ◌++◌, ◌∷◌, [], List, ℕ, false, position, IfOk, OnOk, OnErr, Some, None};
ghost use Rattle.step_code.specs.declared.rules.CacheRule.{CacheRule};
ghost use Rattle.step_code.specs.After.{cached, marked};
ghost use Rattle.stored_types.specs.Mark.{fresh, is_marked};
ghost use Rattle.step_code.specs.State.{marks_of};
ghost use Rattle.dedup_cache.specs.Cache.{ArePast, DoNotFall, HaveOwnKeys};
ghost use Rattle.core_state.specs.Caches.{AreCaches, GotAtMost, cache_of, caches_of, has_bot};

use base_types::{Blob, BotName, Moment, OutOfMemory};
use dedup_cache::Cache;
use std::alloc::Global;
use step_code::{BotCache, CacheList, CacheRule};

/// A bot's marks.
#[derive(Debug, Drop)]
pub struct Marks {
    pub bot: BotName,
    pub marks: Cache,
}

fn place_of_cache(caches: &[Marks], bot: &BotName) -> Option<usize>
    ensures { result ≡ position (has_bot bot.now) caches.now }
{
    caches.iter().position(|cache| cache.bot == *bot)
}

// Old marks leave, and the key is marked.
fn mark_in(cache: &mut Cache, rule: &CacheRule, now: Moment, key: Blob) -> Result<(), OutOfMemory>
    requires past { ArePast now.0 cache.old.marks }
    requires new { is_marked key (fresh rule.now.ttl now.0 cache.old.marks) ≡ false }
    requires few { cache.old.pushed < 2 ^ 63 }
    ensures ok { OnOk result (cache.new.marks ≡ marked rule.now now key cache.old.marks) }
    ensures err { OnErr result (cache.new.marks ≡ cache.old.marks) }
    ensures got { OnOk result (cache.new.pushed ≡ cache.old.pushed + 1) }
    ensures kept { OnErr result (cache.new.pushed ≡ cache.old.pushed) }
{
    cache.reserve(&key)?;
    cache.due(now, rule.ttl);
    cache.trim(rule.cache_max);
    cache.mark(key, now);
    Ok(())
}

// A cache at the end, with its first mark.
fn add_cache(
    caches: &mut Vec<Marks>,
    alloc: Global,
    bot: &BotName,
    now: Moment,
    key: Blob,
) -> Result<(), OutOfMemory>
    ensures ok { OnOk result (caches_of caches.new.items ≡ caches_of caches.old.items ++ record { bot = bot.now; marks = record { key = key; moment = now } ∷ [] } ∷ []) }
    ensures err { OnErr result (caches_of caches.new.items ≡ caches_of caches.old.items) }
    ensures got { (n : ℕ) → GotAtMost n caches.old.items → OnOk result (GotAtMost (n + 1) caches.new.items) }
    ensures kept { (n : ℕ) → GotAtMost n caches.old.items → OnErr result (GotAtMost n caches.new.items) }
{
    let mut marks = Cache::new(alloc);
    marks.reserve(&key)?;
    caches.reserve(1)?;
    marks.mark(key, now);
    caches.push_reserved(Marks { bot: *bot, marks });
    Ok(())
}

// The key is marked in the bot's cache. One that isn't there is made.
fn mark_key(
    caches: &mut Vec<Marks>,
    alloc: Global,
    rule: &CacheRule,
    bot: &BotName,
    now: Moment,
    key: Blob,
) -> Result<(), OutOfMemory>
    requires past { ArePast now.0 (marks_of bot.now (caches_of caches.old.items)) }
    requires new { is_marked key (fresh rule.now.ttl now.0 (marks_of bot.now (caches_of caches.old.items))) ≡ false }
    requires few { GotAtMost (2 ^ 63 - 1) caches.old.items }
    ensures ok { OnOk result (caches_of caches.new.items ≡ cached (Some rule.now) bot.now now (Some key) (caches_of caches.old.items)) }
    ensures err { OnErr result (caches_of caches.new.items ≡ caches_of caches.old.items) }
    ensures got { (n : ℕ) → GotAtMost n caches.old.items → OnOk result (GotAtMost (n + 1) caches.new.items) }
    ensures kept { (n : ℕ) → GotAtMost n caches.old.items → OnErr result (GotAtMost n caches.new.items) }
{
    match place_of_cache(caches, bot) {
        Some(i) => mark_in(&mut caches[i].marks, rule, now, key),
        None => add_cache(caches, alloc, bot, now, key),
    }
}

// Marks of the bot that have expired leave.
fn drop_old(caches: &mut Vec<Marks>, rule: &CacheRule, bot: &BotName, now: Moment)
    ensures dropped { caches_of caches.new.items ≡ cached (Some rule.now) bot.now now None (caches_of caches.old.items) }
    ensures kept { (n : ℕ) → GotAtMost n caches.old.items → GotAtMost n caches.new.items }
{
    if let Some(i) = place_of_cache(caches, bot) {
        caches[i].marks.due(now, rule.ttl);
    }
}

/// What a message of a bot does to its cache: old marks leave, and a key is marked. Want of memory changes nothing.
pub fn mark(
    caches: &mut Vec<Marks>,
    alloc: Global,
    rule: Option<CacheRule>,
    bot: &BotName,
    now: Moment,
    key: Option<Blob>,
) -> Result<(), OutOfMemory>
    requires past { ArePast now.0 (marks_of bot.now (caches_of caches.old.items)) }
    requires new { (r : CacheRule) (k : List ℕ) → rule ≡ Some r → key ≡ Some k → is_marked k (fresh r.ttl now.0 (marks_of bot.now (caches_of caches.old.items))) ≡ false }
    requires few { GotAtMost (2 ^ 63 - 1) caches.old.items }
    ensures ok { OnOk result (caches_of caches.new.items ≡ cached rule bot.now now key (caches_of caches.old.items)) }
    ensures err { OnErr result (caches_of caches.new.items ≡ caches_of caches.old.items) }
    ensures got { (n : ℕ) → GotAtMost n caches.old.items → OnOk result (GotAtMost (n + 1) caches.new.items) }
    ensures kept { (n : ℕ) → GotAtMost n caches.old.items → OnErr result (GotAtMost n caches.new.items) }
{
    let Some(rule) = rule else {
        return Ok(());
    };
    match key {
        Some(key) => mark_key(caches, alloc, &rule, bot, now, key),
        None => {
            drop_old(caches, &rule, bot, now);
            Ok(())
        }
    }
}

/// Whether the key is marked, and the mark hasn't expired.
pub fn is_marked(caches: &[Marks], rule: &CacheRule, bot: &BotName, now: Moment, key: &Blob) -> bool
    ensures { result ≡ is_marked key.now (fresh rule.now.ttl now.0 (marks_of bot.now (caches_of caches.now))) }
{
    match place_of_cache(caches, bot) {
        Some(i) => caches[i].marks.is_live(key, now, rule.ttl),
        None => false,
    }
}

fn copy_of_cache(cache: &Marks, alloc: Global) -> Result<BotCache, OutOfMemory>
    ensures { IfOk result (λ copy. copy ≡ cache_of cache.now) }
{
    Ok(BotCache {
        bot: cache.bot,
        marks: cache.marks.copy(alloc)?,
    })
}

/// The caches as lists.
pub fn copies(caches: &[Marks], alloc: Global) -> Result<CacheList, OutOfMemory>
    ensures { IfOk result (λ list. list ≡ caches_of caches.now) }
{
    let mut list = Vec::with_capacity(alloc, caches.len())?;
    'caches: for cache in caches {
        list.push(copy_of_cache(cache, alloc)?)?;
    }
    Ok(CacheList::from(list))
}

fn from_list(cache: BotCache, alloc: Global) -> Result<Marks, OutOfMemory>
    requires order { DoNotFall cache.marks }
    requires keys { HaveOwnKeys cache.marks }
    ensures cache { IfOk result (λ marks. cache_of marks ≡ cache) }
    ensures few { IfOk result (λ marks. marks.marks.pushed ≤ 2 ^ 32) }
{
    Ok(Marks {
        bot: cache.bot,
        marks: Cache::from_list(cache.marks, alloc)?,
    })
}

/// The caches of these lists.
pub fn from_lists(list: CacheList, alloc: Global) -> Result<Vec<Marks>, OutOfMemory>
    requires { AreCaches list }
    ensures caches { IfOk result (λ caches. caches_of caches.items ≡ list) }
    ensures few { IfOk result (λ caches. GotAtMost (2 ^ 32) caches.items) }
{
    let mut caches = Vec::with_capacity(alloc, list.len())?;
    'caches: for cache in list.into_vec() {
        caches.push(from_list(cache, alloc)?)?;
    }
    Ok(caches)
}
