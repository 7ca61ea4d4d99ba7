//! What a broker keeps of a queue and of a full hand beside their messages.
ghost use Rattle.std.specs.Prelude.{◌≡◌, ◌<◌, ◌^◌, ◌&&◌, ◌==◌, length, position};
ghost use Rattle.std.specs.Str.{bytes_eq};

use base_types::{BotName, Moment, Msg, QueueName};

/// A queue: its name, the number of its list, and the lengths of the bodies in it together.
#[derive(Clone, Copy, Debug)]
pub struct LinkedQueue {
    pub name: QueueName,
    pub list: u32,
    pub bytes: u128,
}

/// A full hand: whose it is, the number of its list, how often its message was tried, and the moment at which it was taken.
#[derive(Clone, Copy, Debug)]
pub struct FullHand {
    pub bot: BotName,
    pub instance: u8,
    pub list: u32,
    pub tries: u32,
    pub since: Moment,
}

/// Where the queue of this name is.
pub fn queue_place(queues: &[LinkedQueue], name: &QueueName) -> Option<usize>
    ensures { result ≡ position (λ q. bytes_eq q.name name.now) queues.now }
{
    queues.iter().position(|q| q.name == *name)
}

/// Where the full hand of an instance is.
pub fn hand_place(hands: &[FullHand], bot: &BotName, instance: u8) -> Option<usize>
    ensures { result ≡ position (λ h. bytes_eq h.bot bot.now && (h.instance == instance)) hands.now }
{
    hands
        .iter()
        .position(|h| h.bot == *bot && h.instance == instance)
}

/// The length of a message's body.
pub fn body_len(message: &Msg) -> u64
    ensures bytes { result ≡ length message.now.body }
    ensures short { length message.now.body < 2 ^ 64 }
{
    message.body.bytes().len() as u64
}
