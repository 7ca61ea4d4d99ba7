ghost use Rattle.std.specs.Prelude.{◌≡◌, ◌==◌};
ghost use Rattle.std.specs.List.{list_any};
ghost use Rattle.edge_memory.specs.Calls.{counted, is_to_fail};

use base_types::NumberList;

/// The calls of an object, counted from 1, and the numbers of those that are to fail.
#[derive(Debug, Drop)]
pub struct CallCount {
    made: u64,
    fail: NumberList,
}

impl CallCount {
    ghost use Rattle.edge_memory.specs.CallCount.{calls_of};

    pub fn new(fail: NumberList) -> CallCount
        ensures { calls_of result ≡ record { made = 0; fail = fail } }
    {
        CallCount { made: 0, fail }
    }

    /// Counts a call, and says whether it is to fail.
    pub fn next_fails(&mut self) -> bool
        ensures answer { result ≡ is_to_fail (calls_of self.old) }
        ensures counted { calls_of self.new ≡ counted (calls_of self.old) }
    {
        self.made = self.made.saturating_add(1);
        has_number(&self.fail, self.made)
    }
}

pub fn has_number(numbers: &NumberList, number: u64) -> bool
    ensures { result ≡ list_any (λ n. n == number) numbers.now }
{
    numbers.as_slice().iter().any(|n| *n == number)
}
