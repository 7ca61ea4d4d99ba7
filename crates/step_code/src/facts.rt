//! Bots of a plan, looked up by name.
ghost use Rattle.std.specs.Prelude.{◌≡◌, ◌&&◌, true, false, not, find, position, Some, None, MatchOption, nat_le};
ghost use Rattle.step_code.specs.Rules.{bot_named, collects, writes, is_collector, passes};
ghost use Rattle.std.specs.Str.{bytes_eq};
ghost use Rattle.step_code.specs.State.{is_instance, is_live_queue};
ghost use Rattle.base_types.specs.Name.{queue_name};

use crate::rules::{Facts, Role};
use base_types::{BotName, QueueName, queue_of};

fn place_of_bot(bots: &[Facts], name: &BotName) -> Option<usize>
    ensures { result ≡ position (λ f. bytes_eq f.bot name.now) bots.now }
{
    bots.iter().position(|f| f.bot == *name)
}

#[tactic(auto, using(base_types::proofs::Found::find_placed, base_types::proofs::Found::find_missing))]
pub fn bot_named<'f>(bots: &'f [Facts], name: &BotName) -> Option<&'f Facts>
    ensures { MatchOption result (bot_named name.now bots.now ≡ None) (λ f. bot_named name.now bots.now ≡ Some f.now) }
{
    match place_of_bot(bots, name) {
        Some(i) => Some(&bots[i]),
        None => None,
    }
}

pub fn collects(facts: &Facts) -> bool
    ensures { result ≡ collects facts.now }
{
    matches!(facts.role, Role::Collector)
}

pub fn writes(facts: &Facts) -> bool
    ensures { result ≡ writes facts.now }
{
    matches!(facts.role, Role::Output)
}

pub fn is_collector(bots: &[Facts], bot: &BotName) -> bool
    ensures { result ≡ is_collector bots.now bot.now }
{
    match bot_named(bots, bot) {
        Some(facts) => collects(facts),
        None => false,
    }
}

pub fn is_instance(bots: &[Facts], bot: &BotName, instance: u8) -> bool
    ensures { result ≡ is_instance bots.now bot.now instance }
{
    match bot_named(bots, bot) {
        Some(facts) => !collects(facts) && instance >= 1 && instance <= facts.instances,
        None => false,
    }
}

fn is_queue_of(facts: &Facts, name: &QueueName) -> bool
    ensures { result ≡ (not (collects facts.now) && bytes_eq (queue_name facts.now.bot) name.now) }
{
    !collects(facts) && queue_of(&facts.bot) == *name
}

/// Whether the queue is that of a bot that takes messages.
pub fn is_live_queue(bots: &[Facts], name: &QueueName) -> bool
    ensures { result ≡ is_live_queue bots.now name.now }
{
    bots.iter().any(|f| is_queue_of(f, name))
}
