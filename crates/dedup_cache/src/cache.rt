ghost use Rattle.std.specs.Prelude.{◌≡◌, ◌<◌, ◌+◌, ◌^◌, ◌++◌, ◌∷◌, [], length, false, IfOk, OnOk, OnErr, Some, None};
ghost use Rattle.stored_types.specs.Mark.{fresh, is_marked, trimmed};
ghost use Rattle.dedup_cache.specs.Cache.{ArePast, DoNotFall, HaveOwnKeys};

use crate::kept::{drop_expired, drop_first, is_fresh, moments_of};
use crate::moments::Moments;
use crate::row::Row;
use base_types::{Blob, Moment, OutOfMemory};
use std::alloc::Global;
use std::marker::Model;
use stored_types::{Mark, MarkList};

/// The marks of a bot, the oldest first, each with a key of its own; and the key that room is kept for. Moments don't fall.
#[derive(Debug, Drop)]
pub struct Cache {
    alloc: Global,
    marks: Row,
    // The moment of each key.
    moments: Moments,
    // A copy of the key that comes.
    ready: Option<Vec<u8>>,
}

impl Model for Cache {
    ghost use Rattle.std.specs.Prelude.{option_map, IsSome};
    ghost use Rattle.dedup_cache.specs.Cache.{CacheView};
    ghost use Rattle.dedup_cache.specs.Kept.{KeepMarks, HaveRoom};

    ghost Value = { CacheView };

    ghost view = { λ c. record { marks = c.marks.marks; ready = option_map (λ k. k.items) c.ready; pushed = c.marks.pushed } };

    ghost invariant = { λ c. KeepMarks c.marks.marks c.moments × (IsSome c.ready → HaveRoom c.marks c.moments) };
}

impl Cache {
    /// A cache with no marks. It takes no memory.
    pub fn new(alloc: Global) -> Cache
        ensures { result ≡ record { marks = []; ready = None; pushed = 0 } }
    {
        Cache {
            alloc,
            marks: Row::new(),
            moments: Moments::new(alloc),
            ready: None,
        }
    }

    /// The cache of these marks, which move. Their keys are copied for the map.
    ///
    /// # Errors
    ///
    /// `OutOfMemory`.
    pub fn from_list(marks: MarkList, alloc: Global) -> Result<Cache, OutOfMemory>
        requires order { DoNotFall marks }
        requires keys { HaveOwnKeys marks }
        ensures cache { IfOk result (λ cache. cache ≡ record { marks = marks; ready = None; pushed = length marks }) }
        ensures few { OnOk result (length marks < 2 ^ 32) }
    {
        let moments = moments_of(alloc, marks.as_slice())?;
        Ok(Cache {
            alloc,
            marks: Row::from_vec(alloc, marks.into_vec())?,
            moments,
            ready: None,
        })
    }

    /// The marks as a list.
    ///
    /// # Errors
    ///
    /// `OutOfMemory`.
    pub fn copy(&self, alloc: Global) -> Result<MarkList, OutOfMemory>
        ensures { IfOk result (λ marks. marks ≡ self.now.marks) }
    {
        self.marks.copy(alloc)
    }

    /// Whether the key is marked.
    pub fn seen(&self, key: &Blob) -> bool
        ensures { result ≡ is_marked key.now self.now.marks }
    {
        self.moments.get(key.bytes()).is_some()
    }

    /// Whether the key is marked, and its mark is younger than `ttl` seconds at the moment `now`.
    pub fn is_live(&self, key: &Blob, now: Moment, ttl: u64) -> bool
        ensures { result ≡ is_marked key.now (fresh ttl now.0 self.now.marks) }
    {
        match self.moments.get(key.bytes()) {
            Some(moment) => is_fresh(moment, ttl, now),
            None => false,
        }
    }

    /// Marks that have reached an age of `ttl` seconds at the moment `now` leave. It takes no memory.
    pub fn due(&mut self, now: Moment, ttl: u64)
        ensures { self.new ≡ record self.old { marks = fresh ttl now.0 self.old.marks } }
    {
        drop_expired(&mut self.marks, &mut self.moments, ttl, now);
    }

    /// The oldest marks leave until fewer than `below` are there, or none. It takes no memory.
    pub fn trim(&mut self, below: u32)
        ensures { self.new ≡ record self.old { marks = trimmed below self.old.marks } }
    {
        let left = below.saturating_sub(1) as usize;
        let count = self.marks.len().saturating_sub(left);
        drop_first(&mut self.marks, &mut self.moments, count);
    }

    /// Makes room for a mark of this key, in the place of room that was made before. The marks stay.
    ///
    /// # Errors
    ///
    /// `OutOfMemory`: nothing has changed.
    pub fn reserve(&mut self, key: &Blob) -> Result<(), OutOfMemory>
        ensures marks { self.new.marks ≡ self.old.marks }
        ensures pushed { self.new.pushed ≡ self.old.pushed }
        ensures ready { OnOk result (self.new.ready ≡ Some key.now) }
        ensures err { OnErr result (self.new ≡ self.old) }
    {
        let copy = key.bytes().to_vec(self.alloc)?;
        self.marks.reserve(self.alloc, 1)?;
        self.moments.reserve()?;
        self.ready = Some(copy);
        Ok(())
    }

    /// Marks a key that room was made for, which is used up. It takes no memory.
    pub fn mark(&mut self, key: Blob, now: Moment)
        requires ready { self.old.ready ≡ Some key }
        requires new { is_marked key self.old.marks ≡ false }
        requires past { ArePast now.0 self.old.marks }
        requires few { self.old.pushed < 2 ^ 63 }
        ensures { self.new ≡ record { marks = self.old.marks ++ record { key = key; moment = now } ∷ []; ready = None; pushed = self.old.pushed + 1 } }
    {
        let Some(copy) = self.ready.take() else {
            unreachable!()
        };
        self.moments.insert(copy, now);
        self.marks.push(Mark { key, moment: now });
    }
}
