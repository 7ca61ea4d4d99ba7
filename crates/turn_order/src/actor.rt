use base_types::BotName;

/// A bot that takes messages and may step.
#[derive(Clone, Copy, Debug, PartialEq, Eq)]
pub enum Actor {
    /// This instance, from 1, holds a message.
    Full { bot: BotName, instance: u8 },
    /// A message waits for the bot, and its hands are empty.
    Take { bot: BotName },
}
