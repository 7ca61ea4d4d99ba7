//! Faults of bundles, as statuses print them.
ghost use Rattle.std.specs.Prelude.{◌≡◌};
ghost use Rattle.std.specs.Option.{option_copied};
ghost use Rattle.status_texts.specs.StatusText.{fault_bot, fault_number};

use base_types::BotName;
use runtime_config::LoadFault;

/// The number of a fault. Want of memory is none, and has 0.
pub fn fault_number(fault: &LoadFault) -> u8
    ensures { result ≡ fault_number fault.now }
{
    match fault {
        LoadFault::Json => 1,
        LoadFault::Module { .. } => 2,
        LoadFault::Parameter { .. } => 3,
        LoadFault::Missing { .. } => 4,
        LoadFault::File { .. } => 5,
        LoadFault::Sieve { .. } => 6,
        LoadFault::Path { .. } => 7,
        LoadFault::Cycle { .. } => 8,
        LoadFault::Limit { .. } => 9,
        LoadFault::Queue { .. } => 10,
        LoadFault::Table { .. } => 11,
        LoadFault::Rules { .. } => 13,
        LoadFault::OutOfMemory => 0,
    }
}

/// The bot that has the fault.
pub(crate) fn fault_bot(fault: &LoadFault) -> Option<&BotName>
    ensures { option_copied result ≡ fault_bot fault.now }
{
    match fault {
        LoadFault::Module { bot }
        | LoadFault::Parameter { bot, .. }
        | LoadFault::Missing { bot, .. }
        | LoadFault::File { bot }
        | LoadFault::Sieve { bot, .. }
        | LoadFault::Path { bot, .. }
        | LoadFault::Cycle { bot }
        | LoadFault::Limit { bot }
        | LoadFault::Queue { bot }
        | LoadFault::Table { bot, .. }
        | LoadFault::Rules { bot, .. } => Some(bot),
        LoadFault::Json | LoadFault::OutOfMemory => None,
    }
}
