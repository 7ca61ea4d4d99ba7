//! A gate at which two bots meet.
use base_types::BotName;
use edge_traits::{Gate, When};
use std::rt::Clock;
use std::sync::atomic::{AtomicU64, Ordering};
use std::thread;
use std::time::Duration;

// So many rests of a millisecond the first bot waits for another.
const MOST_RESTS: u64 = 10_000;

/// Holds the first bot that comes to it before its rules until another bot has committed a step.
#[derive(Drop)]
pub struct MeetGate<'a, T> {
    system: &'a T,
    // The first bot, by a number of its name; 0 before one has come.
    first: AtomicU64,
    // How many steps other bots have committed since then.
    others: AtomicU64,
    rests: AtomicU64,
}

// The bytes of a name as a number, the same for the same name.
fn number_of(bot: &BotName) -> u64 {
    let mut number = 1u64;
    'bytes: for byte in bot.bytes() {
        number = number.wrapping_mul(257).wrapping_add(u64::from(*byte));
    }
    number
}

impl<'a, T: Clock> MeetGate<'a, T> {
    pub fn new(system: &'a T) -> Self {
        MeetGate {
            system,
            first: AtomicU64::new(0),
            others: AtomicU64::new(0),
            rests: AtomicU64::new(0),
        }
    }

    /// Whether another bot committed a step while the first was held.
    pub fn have_met(&self) -> bool {
        self.others.load(Ordering::SeqCst) > 0 && self.rests.load(Ordering::SeqCst) < MOST_RESTS
    }

    fn hold(&self) {
        'rests: for _ in 0..MOST_RESTS {
            if self.others.load(Ordering::SeqCst) > 0 {
                break;
            }
            self.rests.fetch_add(1, Ordering::SeqCst);
            thread::sleep(self.system, Duration::from_millis(1));
        }
    }
}

impl<T: Clock> Gate for MeetGate<'_, T> {
    fn at(&self, bot: &BotName, _instance: u8, when: When) {
        let number = number_of(bot);
        match when {
            When::BeforeRules => {
                let first = self
                    .first
                    .compare_exchange(0, number, Ordering::SeqCst, Ordering::SeqCst);
                if first.is_ok() {
                    self.hold();
                }
            }
            When::AfterCommit => {
                let first = self.first.load(Ordering::SeqCst);
                if first != 0 && first != number {
                    self.others.fetch_add(1, Ordering::SeqCst);
                }
            }
        }
    }

    fn rest(&self, millis: u64) {
        thread::sleep(self.system, Duration::from_millis(millis));
    }

    fn pause(&self) {
        thread::yield_now();
    }
}
