ghost use Rattle.std.specs.Prelude.{◌≡◌, Some};

use edge_traits::Clock;

/// A clock that stands still.
#[derive(Clone, Copy, Debug)]
pub struct MemClock {
    now: u64,
}

impl MemClock {
    /// A clock at this moment, in seconds since 1970-01-01T00:00:00 UTC.
    pub fn new(now: u64) -> Self
        ensures { ⟦<MemClock as Clock>⟧.told result ≡ Some now }
    {
        MemClock { now }
    }
}

impl Clock for MemClock {
    ghost told = { λ clock. Some clock.now };

    fn now(&self) -> u64 {
        self.now
    }
}
