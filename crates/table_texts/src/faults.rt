//! Faults of bundles.
use base_types::{BotName, OutOfMemory, Text};
use runtime_config::LoadFault;
use sieve_reader::SieveFault;
use std::alloc::Global;

/// A fault, by the name of its variant, the bot, and a name or a number. That of a sieve is a bad field at an offset.
pub fn fault(alloc: Global, text: &str) -> Result<Option<LoadFault>, OutOfMemory> {
    let (word, rest) = text.split_once(' ').unwrap_or((text, ""));
    let (bot, more) = rest.split_once(' ').unwrap_or((rest, ""));
    match (word, BotName::new(bot.as_bytes())) {
        ("Json", _) => Ok(Some(LoadFault::Json)),
        ("Parameter" | "Missing", Ok(bot)) => named(alloc, word, bot, more),
        (_, Ok(bot)) => Ok(of_number(word, bot, more.parse().unwrap_or(0))),
        _ => Ok(None),
    }
}

fn named(
    alloc: Global,
    word: &str,
    bot: BotName,
    name: &str,
) -> Result<Option<LoadFault>, OutOfMemory> {
    let name = Text::from(String::from_str(alloc, name)?);
    Ok(Some(match word {
        "Parameter" => LoadFault::Parameter { bot, name },
        _ => LoadFault::Missing { bot, name },
    }))
}

fn of_number(word: &str, bot: BotName, number: u32) -> Option<LoadFault> {
    match word {
        "Module" => Some(LoadFault::Module { bot }),
        "File" => Some(LoadFault::File { bot }),
        "Sieve" => Some(LoadFault::Sieve {
            bot,
            fault: SieveFault::Field { at: number },
        }),
        "Path" => Some(LoadFault::Path {
            bot,
            at: u64::from(number),
        }),
        "Cycle" => Some(LoadFault::Cycle { bot }),
        "Limit" => Some(LoadFault::Limit { bot }),
        "Queue" => Some(LoadFault::Queue { bot }),
        "Table" => Some(LoadFault::Table {
            bot,
            line: u64::from(number),
        }),
        "Rules" => Some(LoadFault::Rules { bot, rule: number }),
        _ => None,
    }
}
