//! The moments of keys, in a map that is ordered by the keys' bytes.
ghost use Rattle.std.specs.Prelude.{◌≡◌, List, ℕ, Some, None, OnOk};
ghost use Rattle.dedup_cache.specs.Kept.{found, is_last, Changes};

use base_types::{Moment, OutOfMemory};
use std::alloc::Global;
use std::collections::BTreeMap;

/// The moment of each key. The key that came last stands apart until room is made for another, so that it comes without
/// memory.
#[derive(Debug, Drop)]
pub struct Moments {
    map: BTreeMap<Vec<u8>, Moment>,
    last: Option<(Vec<u8>, Moment)>,
}

impl Moments {
    /// No moments. It takes no memory.
    pub fn new(alloc: Global) -> Moments
        ensures { (key : List ℕ) → found key result ≡ None }
    {
        Moments {
            map: BTreeMap::new(alloc),
            last: None,
        }
    }

    fn is_last(&self, key: &[u8]) -> bool
        ensures { result ≡ is_last key.now self.now.last }
    {
        match &self.last {
            Some((last, _)) => last.as_slice() == key,
            None => false,
        }
    }

    /// The moment of a key.
    pub fn get(&self, key: &[u8]) -> Option<Moment>
        ensures { result ≡ found key.now self.now }
    {
        match &self.last {
            Some((last, moment)) if last.as_slice() == key => Some(*moment),
            _ => self.map.get(key).copied(),
        }
    }

    /// A key leaves, if it is there. It takes no memory.
    pub fn remove(&mut self, key: &[u8])
        ensures gone { Changes key.now None self.old self.new }
        ensures room { self.old.last ≡ None → self.new.last ≡ None }
    {
        self.map.remove(key);
        if self.is_last(key) {
            self.last = None;
        }
    }

    /// Makes room for a key that comes, by a place in the map for the one that came last. All keys stay.
    ///
    /// # Errors
    ///
    /// `OutOfMemory`.
    pub fn reserve(&mut self) -> Result<(), OutOfMemory>
        ensures same { (key : List ℕ) → found key self.new ≡ found key self.old }
        ensures room { OnOk result (self.new.last ≡ None) }
        ensures kept { self.old.last ≡ None → self.new.last ≡ None }
    {
        let Some((key, moment)) = self.last.take() else {
            return Ok(());
        };
        match self.map.insert(key, moment) {
            Ok(_) => Ok(()),
            Err(failed) => {
                self.last = Some(failed.value);
                Err(OutOfMemory)
            }
        }
    }

    /// A key comes, for which room was made. It takes no memory.
    pub fn insert(&mut self, key: Vec<u8>, moment: Moment)
        requires { self.old.last ≡ None }
        ensures { Changes key.items (Some moment) self.old self.new }
    {
        self.last = Some((key, moment));
    }
}
