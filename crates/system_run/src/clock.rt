ghost use Rattle.std.specs.Prelude.{None};

use edge_traits::Clock;
use std::rt;
use std::time::{SystemTime, UNIX_EPOCH};

/// The system's clock. It tells no moment.
#[derive(Drop)]
pub struct SystemClock<'a, R> {
    system: &'a R,
}

impl<'a, R: rt::Clock> SystemClock<'a, R> {
    pub fn new(system: &'a R) -> Self {
        SystemClock { system }
    }
}

impl<R: rt::Clock> Clock for SystemClock<'_, R> {
    ghost told = { λ _. None };

    /// 0 where the system tells no time.
    fn now(&self) -> u64 {
        let Ok(now) = SystemTime::now(self.system) else {
            return 0;
        };
        now.duration_since(UNIX_EPOCH)
            .map_or(0, |time| time.as_secs())
    }
}
