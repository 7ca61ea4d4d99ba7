ghost use Rattle.std.specs.Prelude.{◌≡◌};
ghost use Rattle.runtime_config.specs.declared.fault.LoadFault.TheVariants.{OutOfMemory as NoMemory};

use base_types::{BotName, OutOfMemory, Text};
use sieve_reader::SieveFault;
use std::alloc::AllocError;

/// What is wrong with a bundle, and with which bot.
#[derive(Debug, Drop, PartialEq)]
pub enum LoadFault {
    /// The runtime text is too long, or no JSON object (RFC 8259) whose members are objects under names of bots or
    /// under `global`.
    Json,
    /// `module` is there and is no module.
    Module { bot: BotName },
    /// A parameter has a value of another form, or `parameters`, `destination_queues` or `enabled` has; the first in
    /// byte order.
    Parameter { bot: BotName, name: Text },
    /// `module`, a parameter or the path `_default` must be given and isn't; the first in byte order.
    Missing { bot: BotName, name: Text },
    /// The bundle has no file of the name that the bot gives.
    File { bot: BotName },
    /// The bot's file is no sieve.
    Sieve { bot: BotName, fault: SieveFault },
    /// The path whose name stands at this offset of the bot's file, in bytes, is none of the bot's; the first such.
    Path { bot: BotName, at: u64 },
    /// What the bot sends comes back to it.
    Cycle { bot: BotName },
    /// A number of the bot is above its limit, or a sum over it and the bots before it.
    Limit { bot: BotName },
    /// A destination isn't the queue of a bot that is no collector.
    Queue { bot: BotName },
    /// The line of the bot's file, from 1, is no header or row; the first such.
    Table { bot: BotName, line: u64 },
    /// The rule with this number of the bot's file, from 1, is none; the first such. 0 where the file is no JSON list.
    Rules { bot: BotName, rule: u32 },
    OutOfMemory,
}

impl From<AllocError> for LoadFault {
    ghost from_gives = { λ _ fault. fault ≡ NoMemory };

    fn from(_: AllocError) -> Self {
        LoadFault::OutOfMemory
    }
}

impl From<OutOfMemory> for LoadFault {
    ghost from_gives = { λ _ fault. fault ≡ NoMemory };

    fn from(_: OutOfMemory) -> Self {
        LoadFault::OutOfMemory
    }
}
