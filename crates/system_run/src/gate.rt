use base_types::BotName;
use edge_traits::{Gate, When};
use std::rt::Clock;
use std::thread;
use std::time::Duration;

/// A gate over a system: all workers pass, and they rest by sleeping.
#[derive(Drop)]
pub struct SystemGate<'a, R> {
    system: &'a R,
}

impl<'a, R: Clock> SystemGate<'a, R> {
    pub fn new(system: &'a R) -> Self {
        SystemGate { system }
    }
}

impl<R: Clock> Gate for SystemGate<'_, R> {
    fn at(&self, _bot: &BotName, _instance: u8, _when: When) {}

    /// Of no milliseconds: another thread may go first.
    fn rest(&self, millis: u64) {
        if millis == 0 {
            thread::yield_now();
        } else {
            thread::sleep(self.system, Duration::from_millis(millis));
        }
    }

    fn pause(&self) {
        thread::sleep(self.system, Duration::from_micros(50));
    }
}
