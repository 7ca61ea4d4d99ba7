//! The sieves of bots.
ghost use Rattle.std.specs.Prelude.{◌≡◌, length, nat_lt, option_map, Some};
ghost use Rattle.runtime_config.specs.SieveIn.{sieve_in, IsReadAs};
ghost use Rattle.runtime_config.specs.Faults.{bot_sieve, has_path, most_patterns, sieve_fault, unknown_spot};
ghost use Rattle.runtime_config.specs.Found.{IsSieveOf};
ghost use Rattle.runtime_text.specs.Read.{entry_of, members_of};
ghost use Rattle.runtime_text.specs.Runtime.{routes};
ghost use Rattle.runtime_config.specs.Sieves.{fault_with, refusal_of, sieve_of};
ghost use Rattle.runtime_config.specs.declared.fault.LoadFault.TheVariants as fault;

use crate::LoadFault;
use crate::rules::sieve_text;
use base_types::{Text, TextList};
use config_bundle::Bundle;
use runtime_text::{Bot, Object};
use sieve_reader::{SieveFault, read_sieve};
use sieve_tree::Sieve;
use std::alloc::Global;

// A text of so many bytes isn't read.
const TOO_LONG: usize = 0x1_0000_0000;

const MOST_PATTERNS: usize = 32;

// The sieve that a text writes. One that is too long to be read counts as want of memory; a bundle with such a file has no
// code.
fn sieve_in(alloc: Global, text: &[u8]) -> Result<Sieve, SieveFault>
    ensures { IsReadAs (sieve_in text.now) result }
{
    if text.len() >= TOO_LONG {
        return Err(SieveFault::OutOfMemory);
    }
    read_sieve(alloc, text)
}

fn fault_with(bot: &Bot, why: SieveFault) -> LoadFault
    ensures { result ≡ fault_with (entry_of bot.now).0 why }
{
    match why {
        SieveFault::Token { .. }
        | SieveFault::Expected { .. }
        | SieveFault::Field { .. }
        | SieveFault::Value { .. }
        | SieveFault::Pattern { .. }
        | SieveFault::Deep { .. } => LoadFault::Sieve {
            bot: bot.name(),
            fault: why,
        },
        SieveFault::OutOfMemory => LoadFault::OutOfMemory,
    }
}

// The sieve that the text of the bot's file writes, or that it writes none.
fn sieve_of(alloc: Global, bot: &Bot, text: &[u8]) -> Result<Sieve, LoadFault>
    ensures { IsSieveOf (option_map (fault.Sieve (entry_of bot.now).0) (refusal_of (Some text.now))) (sieve_of (Some text.now)) result }
{
    match sieve_in(alloc, text) {
        Ok(sieve) => Ok(sieve),
        Err(why) => Err(fault_with(bot, why)),
    }
}

/// The bot's sieve, one with nothing in it where the bot has none; or that its file writes none.
#[tactic(auto, unfolding(crate::specs::Faults::bot_sieve))]
pub(crate) fn bot_sieve(
    alloc: Global,
    bundle: &Bundle,
    global: &Object,
    bot: &Bot,
) -> Result<Sieve, LoadFault>
    ensures { IsSieveOf (sieve_fault bundle.now (members_of global.now) (entry_of bot.now)) (bot_sieve bundle.now (members_of global.now) (entry_of bot.now)) result }
{
    match sieve_text(alloc, bundle, global, bot)? {
        Some(text) => sieve_of(alloc, bot, text),
        None => Ok(Sieve::new(alloc)),
    }
}

// ---- paths

fn has_path(routes: &[(Text, TextList)], name: &Text) -> bool
    ensures { result ≡ has_path name.now routes.now }
{
    routes.iter().any(|route| route.0 == *name)
}

// Where the first of these names of paths stands that is none of the bot's.
fn unknown_spot(routes: &[(Text, TextList)], spots: &[(Text, u32)]) -> Option<u32>
    ensures { result ≡ unknown_spot routes.now spots.now }
{
    'spots: for spot in spots {
        if !has_path(routes, &spot.0) {
            return Some(spot.1);
        }
    }
    None
}

/// The sieve, or that it sends events on a path that the bot hasn't.
pub(crate) fn with_known_paths(bot: &Bot, sieve: Sieve) -> Result<Sieve, LoadFault>
    ensures { IsSieveOf (option_map (fault.Path (entry_of bot.now).0) (unknown_spot (routes (entry_of bot.now)) sieve.paths)) sieve result }
{
    match unknown_spot(bot.routes(), sieve.paths()) {
        Some(at) => Err(LoadFault::Path {
            bot: bot.name(),
            at: u64::from(at),
        }),
        None => Ok(sieve),
    }
}

// ---- patterns

/// Whether the sieve has more patterns than it may have.
pub(crate) fn has_many_patterns(sieve: &Sieve) -> bool
    ensures { result ≡ nat_lt most_patterns (length sieve.now.patterns) }
{
    sieve.patterns().len() > MOST_PATTERNS
}
