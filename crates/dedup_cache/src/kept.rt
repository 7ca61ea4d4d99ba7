//! Marks in a row, and the moments of their keys.
ghost use Rattle.std.specs.Prelude.{◌≡◌, ◌-◌, drop, nat_lt, List, ℕ, IfOk};
ghost use Rattle.stored_types.specs.Mark.{fresh};
ghost use Rattle.dedup_cache.specs.Cache.{HaveOwnKeys};
ghost use Rattle.dedup_cache.specs.Kept.{KeepMarks, HaveRoom, found, has_expired, moment_of};

use crate::moments::Moments;
use crate::row::Row;
use base_types::{Moment, OutOfMemory};
use std::alloc::Global;
use stored_types::Mark;

/// Whether a key that was marked at this moment, `ttl` seconds being its time to live, still counts.
pub fn is_fresh(moment: Moment, ttl: u64, now: Moment) -> bool
    ensures { result ≡ nat_lt (now.0 - moment.0) ttl }
{
    now.0.saturating_sub(moment.0) < ttl
}

// Whether the oldest mark has expired.
fn has_expired(marks: &Row, ttl: u64, now: Moment) -> bool
    ensures { result ≡ has_expired ttl now.0 marks.now.marks }
{
    match marks.oldest() {
        Some(mark) => !is_fresh(mark.moment, ttl, now),
        None => false,
    }
}

// The oldest mark leaves, and its key. It takes no memory.
fn drop_oldest(marks: &mut Row, moments: &mut Moments)
    requires kept { KeepMarks marks.old.marks moments.old }
    ensures marks { marks.new.marks ≡ drop 1 marks.old.marks }
    ensures pushed { marks.new.pushed ≡ marks.old.pushed }
    ensures kept { KeepMarks marks.new.marks moments.new }
    ensures room { HaveRoom marks.old moments.old → HaveRoom marks.new moments.new }
{
    if let Some(mark) = marks.pop() {
        moments.remove(mark.key.bytes());
    }
}

/// Marks that have expired leave. Since moments don't fall, they stand in front. It takes no memory.
pub fn drop_expired(marks: &mut Row, moments: &mut Moments, ttl: u64, now: Moment)
    requires kept { KeepMarks marks.old.marks moments.old }
    ensures fresh { marks.new.marks ≡ fresh ttl now.0 marks.old.marks }
    ensures kept { KeepMarks marks.new.marks moments.new }
    ensures room { HaveRoom marks.old moments.old → HaveRoom marks.new moments.new }
    ensures pushed { marks.new.pushed ≡ marks.old.pushed }
{
    'expired: while has_expired(marks, ttl, now) {
        drop_oldest(marks, moments);
    }
}

/// So many of the oldest marks leave, or all. It takes no memory.
pub fn drop_first(marks: &mut Row, moments: &mut Moments, count: usize)
    requires kept { KeepMarks marks.old.marks moments.old }
    ensures left { marks.new.marks ≡ drop count marks.old.marks }
    ensures kept { KeepMarks marks.new.marks moments.new }
    ensures room { HaveRoom marks.old moments.old → HaveRoom marks.new moments.new }
    ensures pushed { marks.new.pushed ≡ marks.old.pushed }
{
    'oldest: for _ in 0..count {
        drop_oldest(marks, moments);
    }
}

/// The moments of these marks' keys.
pub fn moments_of(alloc: Global, marks: &[Mark]) -> Result<Moments, OutOfMemory>
    requires keys { HaveOwnKeys marks.now }
    ensures { IfOk result (λ moments. (key : List ℕ) → found key moments ≡ moment_of key marks.now) }
{
    let mut moments = Moments::new(alloc);
    'marks: for mark in marks {
        let key = mark.key.bytes().to_vec(alloc)?;
        moments.reserve()?;
        moments.insert(key, mark.moment);
    }
    Ok(moments)
}
