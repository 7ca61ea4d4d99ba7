//! A list of numbers that only grows.
ghost use Rattle.std.specs.Prelude.{◌≡◌, ◌++◌, ◌∷◌, [], OnOk, OnErr};
ghost use mathlib.Core.List.{IsPrefix};

use book_lock::Grows;
use std::alloc::AllocError;

/// Numbers, one behind the other.
#[derive(Drop)]
pub struct Numbers {
    pub list: Vec<u64>,
}

impl Grows for Numbers {
    ghost use Rattle.tests_lock.specs.Numbers.{entries_of};

    type Entry = u64;

    ghost entries = { entries_of };

    fn count(&self) -> u64 {
        self.list.len() as u64
    }
}

impl Numbers {
    pub fn add(&mut self, number: u64) -> Result<(), AllocError>
        ensures ok { OnOk result (self.new.list.items ≡ self.old.list.items ++ number ∷ []) }
        ensures err { OnErr result (self.new.list.items ≡ self.old.list.items) }
        ensures grows { IsPrefix self.old.list.items self.new.list.items }
    {
        self.list.push(number).map_err(|_| AllocError)
    }
}
