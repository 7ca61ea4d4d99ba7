//! What a stored step shows of its content without asking the rules what they give.
ghost use Rattle.std.specs.Prelude.{◌≡◌, ◌↔◌, ◌≤◌, ◌&&◌, option_and_then, true, false, List, ℕ, Bool, Option, Some, None, IsSome, IsTrue, unwrap_or};
ghost use Rattle.step_code.specs.declared.rules.CacheRule.{CacheRule};
ghost use Rattle.step_code.specs.Content.{IsFront, IsInTime, IsMarkAndLine, IsPiece, Shows, is_duplicate, live_marks};
ghost use Rattle.step_code.specs.Rules.{Meaning, bot_named, last_moment, passes, writes};
ghost use Rattle.stored_types.specs.Mark.{is_marked};
ghost use Rattle.base_types.specs.Name.{queue_name};
ghost use Rattle.step_code.specs.State.{waiting};
ghost use Rattle.step_code.specs.After.{cache_rule};
ghost use Rattle.core_state.specs.State.{state_of};

use base_types::{Blob, BotName, Moment, queue_of};
use core_state::caches::is_marked;
use core_state::state::State;
use step_code::{CacheRule, Facts, LAST_MOMENT, LONGEST_FEED, StepKind, bot_named, writes};

/// Whether the moment isn't before the latest, and can be written as a date.
pub fn is_in_time(latest: Moment, moment: Moment) -> bool
    ensures { (result ≡ true) ↔ ((latest.0 ≤ moment.0) × (moment.0 ≤ last_moment)) }
{
    latest.0 <= moment.0 && moment.0 <= LAST_MOMENT
}

fn is_piece(from: u64, upto: u64) -> bool
    ensures { (result ≡ true) ↔ IsPiece from upto }
{
    from < upto && upto <= LONGEST_FEED
}

fn is_front(state: &State, bot: &BotName, message: u64) -> bool
    ensures { (result ≡ true) ↔ IsFront message (waiting (queue_name bot.now) (state_of state.now)) }
{
    state.broker.front_no(&queue_of(bot)) == Some(message)
}

/// The rule of a bot that drops duplicates.
pub fn rule_of(bots: &[Facts], bot: &BotName) -> Option<CacheRule>
    ensures { result ≡ option_and_then (λ f. f.cache) (bot_named bot.now bots.now) }
{
    match bot_named(bots, bot) {
        Some(facts) => facts.cache,
        None => None,
    }
}

/// Whether the key is that of a message that the bot let through not long before the moment.
pub fn is_duplicate(
    state: &State,
    bots: &[Facts],
    bot: &BotName,
    now: Moment,
    key: &Option<Blob>,
) -> bool
    ensures { (m : Meaning) → m.facts state.now.bundle ≡ Some bots.now
        → result ≡ is_duplicate m (state_of state.now) bot.now now.0 key.now }
{
    let Some(key) = key else {
        return false;
    };
    match rule_of(bots, bot) {
        Some(rule) => is_marked(&state.caches, &rule, bot, now, key),
        None => false,
    }
}

// A mark is made only by a bot that drops duplicates, and for no duplicate.
fn is_new_mark(
    state: &State,
    bots: &[Facts],
    bot: &BotName,
    now: Moment,
    key: &Option<Blob>,
) -> bool
    ensures { (m : Meaning) → m.facts state.now.bundle ≡ Some bots.now
        → (result ≡ true) ↔ ((IsSome key.now → IsSome (cache_rule m (state_of state.now) bot.now)) × (is_duplicate m (state_of state.now) bot.now now.0 key.now ≡ false)) }
{
    let Some(key) = key else {
        return true;
    };
    match rule_of(bots, bot) {
        Some(rule) => !is_marked(&state.caches, &rule, bot, now, key),
        None => false,
    }
}

fn writes_lines(bots: &[Facts], bot: &BotName) -> bool
    ensures { result ≡ passes writes (bot_named bot.now bots.now) }
{
    match bot_named(bots, bot) {
        Some(facts) => writes(facts),
        None => false,
    }
}

fn is_mark_and_line(
    state: &State,
    bots: &[Facts],
    bot: &BotName,
    now: Moment,
    key: &Option<Blob>,
    line: bool,
) -> bool
    ensures { (m : Meaning) → m.facts state.now.bundle ≡ Some bots.now → (result ≡ true) ↔ IsMarkAndLine m (state_of state.now) bot.now now.0 key.now line }
{
    is_new_mark(state, bots, bot, now, key) && (!line || writes_lines(bots, bot))
}

/// Whether what shows of the step's content is right.
pub fn shows(state: &State, bots: &[Facts], now: Moment, what: &StepKind) -> bool
    ensures { (m : Meaning) → m.facts state.now.bundle ≡ Some bots.now → (result ≡ true) ↔ Shows m (state_of state.now) now.0 what.now }
{
    match what {
        StepKind::Collect { from, upto, .. } => is_piece(*from, *upto),
        StepKind::Take { bot, message, .. } => is_front(state, bot, *message),
        StepKind::Done { bot, key, line, .. } => is_mark_and_line(
            state, bots, bot, now, key, *line,
        ),
        StepKind::Start
        | StepKind::FeedEnd { .. }
        | StepKind::Retry { .. }
        | StepKind::Fail { .. }
        | StepKind::Reload { .. }
        | StepKind::Redo { .. }
        | StepKind::Round { .. } => true,
    }
}
