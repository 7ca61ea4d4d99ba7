ghost use Rattle.std.specs.Prelude.{◌≡◌, ◌+◌, ◌≤◌, ◌&&◌, ◌==◌, not, is_some, length, find, MatchOption, None, Some};
ghost use Rattle.std.specs.List.{list_all};
ghost use Rattle.base_types.specs.Name.{queue_name};
ghost use Rattle.step_code.specs.Fits.{is_empty};
ghost use Rattle.step_code.specs.State.{bots_in_force, has_finished, held, is_halted, waiting};
ghost use Rattle.turn_order.specs.Order.{first_among, worker_of};
ghost use Rattle.turn_order.specs.Turn.{actor_of, first_actor, is_done, is_idle, lowest_full, may_take};

use crate::Actor;
use ack_steps::Core;
use base_types::BotName;
use step_code::{Facts, Rules, collects};

/// What the first bot does, in byte order, that takes messages and may step.
pub fn first_actor<R: Rules>(core: &Core<R>) -> Option<Actor>
    ensures { result ≡ first_actor R.meaning core.now.state }
{
    first_of(core, bots(core))
}

/// Whether nothing is left to do: each collector of the bundle has read its feed, each hand is empty, and nothing waits for
/// a bot of the bundle.
pub fn is_idle<R: Rules>(core: &Core<R>) -> bool
    ensures { result ≡ is_idle R.meaning core.now.state }
{
    core.hands_len() == 0 && all_done(core, bots(core))
}

// The bots of the bundle in force, in byte order.
fn bots<R: Rules>(core: &Core<R>) -> &[Facts]
    ensures { result.now ≡ bots_in_force R.meaning core.now.state }
{
    core.rules().facts(core.plan()).as_slice()
}

fn all_done<R: Rules>(core: &Core<R>, bots: &[Facts]) -> bool
    ensures { result ≡ list_all (is_done core.now.state) bots.now }
{
    bots.iter().all(|f| is_done(core, f))
}

// What the first of these bots does that takes messages and may step.
fn first_of<R: Rules>(core: &Core<R>, bots: &[Facts]) -> Option<Actor>
    ensures { result ≡ first_among core.now.state bots.now }
{
    'bots: for facts in bots {
        if let Some(actor) = worker_of(core, facts) {
            return Some(actor);
        }
    }
    None
}

// What a bot does next, unless it is a collector.
fn worker_of<R: Rules>(core: &Core<R>, facts: &Facts) -> Option<Actor>
    ensures { result ≡ worker_of core.now.state facts.now }
{
    if collects(facts) {
        None
    } else {
        actor_of(core, facts)
    }
}

fn actor_of<R: Rules>(core: &Core<R>, facts: &Facts) -> Option<Actor>
    ensures { result ≡ actor_of core.now.state facts.now }
{
    let bot = facts.bot;
    match lowest_full(core, &facts.bot, facts.instances) {
        Some(instance) => Some(Actor::Full { bot, instance }),
        None if may_take(core, &facts.bot) => Some(Actor::Take { bot }),
        None => None,
    }
}

// The lowest of so many instances of a bot that holds a message.
fn lowest_full<R: Rules>(core: &Core<R>, bot: &BotName, instances: u8) -> Option<u8>
    ensures { result ≡ lowest_full bot.now 1 instances core.now.state }
{
    let mut instance = 0;
    'instances: while instance < instances {
        instance += 1;
        if is_full(core, bot, instance) {
            return Some(instance);
        }
    }
    None
}

fn is_full<R: Rules>(core: &Core<R>, bot: &BotName, instance: u8) -> bool
    ensures { result ≡ is_some (held bot.now instance core.now.state) }
{
    core.in_hand(bot, instance).is_some()
}

fn may_take<R: Rules>(core: &Core<R>, bot: &BotName) -> bool
    ensures { result ≡ may_take core.now.state bot.now }
{
    !core.is_halted(bot) && has_waiting(core, bot)
}

// Whether a message waits for the bot.
fn has_waiting<R: Rules>(core: &Core<R>, bot: &BotName) -> bool
    ensures { result ≡ not (is_empty (waiting (queue_name bot.now) core.now.state)) }
{
    core.front_no(bot).is_some()
}

/// Whether a collector has read its feed to the end.
pub fn has_finished<R: Rules>(core: &Core<R>, bot: &BotName) -> bool
    ensures { result ≡ has_finished bot.now core.now.state }
{
    match core.feed_of(bot) {
        Some(feed) => feed.finished,
        None => false,
    }
}

fn is_done<R: Rules>(core: &Core<R>, facts: &Facts) -> bool
    ensures { result ≡ is_done core.now.state facts.now }
{
    if collects(facts) {
        has_finished(core, &facts.bot)
    } else {
        !has_waiting(core, &facts.bot)
    }
}
