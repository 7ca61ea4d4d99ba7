use base_types::BotName;
use collector_feeds::Found;
use turn_order::Actor;

/// Whose turn it is.
#[derive(Debug, Drop)]
pub enum Turn {
    /// A bot that takes messages steps.
    Acts { actor: Actor },
    /// A collector finds this at its position in its feed, in bytes.
    Finds { bot: BotName, at: u64, what: Found },
    /// No bot may step.
    Nobody,
}
