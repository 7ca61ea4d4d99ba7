//! A message that an instance of a bot holds.

use base_types::{BotName, Moment};

/// An instance of a bot, the number of the message that it holds, and the moment of the step.
#[derive(Clone, Copy)]
pub struct Held {
    pub bot: BotName,
    pub instance: u8,
    pub message: u64,
    pub now: Moment,
}
