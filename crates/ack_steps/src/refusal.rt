//! Whether a step fits the state, and which part of the table it fails where it doesn't.
ghost use Rattle.std.specs.Prelude.{◌≡◌, ◌≤◌, true, false, not, ℕ, Bool, Option, List, IfOk, Some, None, OnErr, ◌<◌, [], ◌∷◌};
ghost use Rattle.step_code.specs.declared.step.StepKind.TheVariants as kind;
ghost use Rattle.step_code.specs.declared.step.StepRefusal.TheVariants as refusal;
ghost use Rattle.step_code.specs.Fits.{first_failing, in_hand_parts, may_retry, parts, retries_of};
ghost use Rattle.step_code.specs.Rules.{Meaning};
ghost use Rattle.step_code.specs.State.{held, tries_of};
ghost use Rattle.step_code.specs.declared.base.Base.{Base};
ghost use Rattle.core_state.specs.State.{state_of};

use crate::failing::is_halted;
use base_types::{Blob, BotName, OutOfMemory, queue_of};
use core_state::backlog::live_bytes;
use core_state::feeds::{has_finished, position_of};
use core_state::state::State;
use std::alloc::Global;
use step_code::{
    BACKLOG_LIMIT, Facts, PlanFault, Rules, StepKind, StepRefusal, bot_named, is_collector,
    is_instance,
};

/// What refuses the step, if it doesn't fit. The bots are those of the bundle in force.
pub fn refusal<R: Rules>(
    rules: &R,
    alloc: Global,
    state: &State,
    bots: &[Facts],
    what: &StepKind,
) -> Result<Option<StepRefusal>, OutOfMemory>
    requires { R.meaning.facts state.now.bundle ≡ Some bots.now }
    ensures { IfOk result (λ refusal. refusal ≡ first_failing (parts R.meaning (state_of state.now) what.now)) }
{
    match what {
        StepKind::Start => Ok(None),
        StepKind::Collect { bot, from, .. } => refusal_of_piece(state, bots, bot, *from),
        StepKind::FeedEnd { bot, position } => Ok(refusal_of_feed(state, bots, bot, *position)),
        StepKind::Take { bot, instance, .. } => Ok(refusal_of_take(state, bots, bot, *instance)),
        StepKind::Done {
            bot,
            instance,
            message,
            bundle,
            ..
        } => Ok(refusal_of_held(state, bots, bot, *instance, *message, *bundle)),
        StepKind::Retry {
            bot,
            instance,
            message,
            bundle,
            ..
        } => {
            let held = refusal_of_held(state, bots, bot, *instance, *message, *bundle);
            let may = may_retry(state, bots, bot, *instance);
            Ok(held.or(refusal_of_tries(state, bot, *instance, may)))
        }
        StepKind::Fail {
            bot,
            instance,
            message,
            bundle,
            ..
        } => {
            let held = refusal_of_held(state, bots, bot, *instance, *message, *bundle);
            let may = !may_retry(state, bots, bot, *instance);
            Ok(held.or(refusal_of_tries(state, bot, *instance, may)))
        }
        StepKind::Reload { bundle } => refusal_of_bundle(rules, alloc, bundle),
        StepKind::Redo { dump } => Ok(refusal_of_dump(state, *dump)),
        StepKind::Round { bot } => Ok(refusal_of_round(state, bots, bot)),
    }
}

fn refusal_of_bundle<R: Rules>(
    rules: &R,
    alloc: Global,
    bundle: &Blob,
) -> Result<Option<StepRefusal>, OutOfMemory>
    ensures { (s : Base) → IfOk result (λ refusal. refusal ≡ first_failing (parts R.meaning s (kind.Reload bundle.now))) }
{
    match rules.plan(alloc, bundle) {
        Ok(_) => Ok(None),
        Err(PlanFault::Refused) => Ok(Some(StepRefusal::Refused)),
        Err(PlanFault::OutOfMemory) => Err(OutOfMemory),
    }
}

fn refusal_of_piece(
    state: &State,
    bots: &[Facts],
    bot: &BotName,
    from: u64,
) -> Result<Option<StepRefusal>, OutOfMemory>
    ensures { (m : Meaning) (upto : ℕ) (piece : List ℕ) → m.facts state.now.bundle ≡ Some bots.now
        → IfOk result (λ refusal. refusal ≡ first_failing (parts m (state_of state.now) (kind.Collect bot.now from upto piece))) }
{
    if let Some(refusal) = refusal_of_feed(state, bots, bot, from) {
        return Ok(Some(refusal));
    }
    let bytes = live_bytes(&state.broker, bots);
    if bytes == u64::MAX {
        // A sum that may be greater isn't told.
        return Err(OutOfMemory);
    }
    if bytes < BACKLOG_LIMIT {
        Ok(None)
    } else {
        Ok(Some(StepRefusal::Backlog { bytes }))
    }
}

fn refusal_of_feed(state: &State, bots: &[Facts], bot: &BotName, at: u64) -> Option<StepRefusal>
    ensures { (m : Meaning) → m.facts state.now.bundle ≡ Some bots.now
        → result ≡ first_failing (parts m (state_of state.now) (kind.FeedEnd bot.now at)) }
{
    if !is_collector(bots, bot) {
        return Some(StepRefusal::NotLive);
    }
    if has_finished(&state.feeds, bot) {
        return Some(StepRefusal::Finished);
    }
    let position = position_of(&state.feeds, bot);
    if at == position {
        None
    } else {
        Some(StepRefusal::Behind { position })
    }
}

fn refusal_of_take(
    state: &State,
    bots: &[Facts],
    bot: &BotName,
    instance: u8,
) -> Option<StepRefusal>
    ensures { (m : Meaning) (message : ℕ) → m.facts state.now.bundle ≡ Some bots.now
        → result ≡ first_failing (parts m (state_of state.now) (kind.Take bot.now instance message)) }
{
    if !is_instance(bots, bot, instance) {
        return Some(StepRefusal::NotLive);
    }
    if is_halted(&state.halted, bot) {
        return Some(StepRefusal::Halted);
    }
    if let Some(no) = number_in_hand(state, bot, instance) {
        return Some(StepRefusal::HandFull { no });
    }
    match state.broker.front_no(&queue_of(bot)) {
        Some(_) => None,
        None => Some(StepRefusal::Empty),
    }
}

// The parts that steps on a message in a hand have in common.
fn refusal_of_held(
    state: &State,
    bots: &[Facts],
    bot: &BotName,
    instance: u8,
    message: u64,
    bundle: u64,
) -> Option<StepRefusal>
    ensures { (m : Meaning) → m.facts state.now.bundle ≡ Some bots.now
        → result ≡ first_failing (in_hand_parts m (state_of state.now) bot.now instance message bundle) }
{
    if !is_instance(bots, bot, instance) {
        return Some(StepRefusal::NotLive);
    }
    if bundle != state.bundle_no {
        return Some(StepRefusal::Stale {
            now: state.bundle_no,
        });
    }
    let no = number_in_hand(state, bot, instance);
    if no == Some(message) {
        None
    } else {
        Some(StepRefusal::NotInHand { no })
    }
}

fn number_in_hand(state: &State, bot: &BotName, instance: u8) -> Option<u64>
    ensures { result ≡ held bot.now instance (state_of state.now) }
{
    match state.broker.in_hand(bot, instance) {
        Some(hand) => Some(hand.message.no),
        None => None,
    }
}

fn tries_of(state: &State, bot: &BotName, instance: u8) -> u32
    ensures { result ≡ tries_of bot.now instance (state_of state.now) }
{
    match state.broker.in_hand(bot, instance) {
        Some(hand) => hand.tries,
        None => 0,
    }
}

fn retries_of(bots: &[Facts], bot: &BotName) -> u32
    ensures { (m : Meaning) (s : Base) → m.facts s.bundle ≡ Some bots.now → result ≡ retries_of m s bot.now }
{
    match bot_named(bots, bot) {
        Some(facts) => facts.retries,
        None => 0,
    }
}

fn may_retry(state: &State, bots: &[Facts], bot: &BotName, instance: u8) -> bool
    ensures { (m : Meaning) → m.facts state.now.bundle ≡ Some bots.now → result ≡ may_retry m (state_of state.now) bot.now instance }
{
    tries_of(state, bot, instance) < retries_of(bots, bot)
}

// The message was tried as often as it may be for what is to be done with it, or not.
fn refusal_of_tries(state: &State, bot: &BotName, instance: u8, may: bool) -> Option<StepRefusal>
    ensures { result ≡ first_failing ((may, refusal.Tries (tries_of bot.now instance (state_of state.now))) ∷ []) }
{
    if may {
        None
    } else {
        Some(StepRefusal::Tries {
            tries: tries_of(state, bot, instance),
        })
    }
}

fn refusal_of_dump(state: &State, dump: u64) -> Option<StepRefusal>
    ensures { (m : Meaning) → result ≡ first_failing (parts m (state_of state.now) (kind.Redo dump)) }
{
    match state.dumps.get(dump) {
        Some(_) => None,
        None => Some(StepRefusal::NoDump),
    }
}

fn refusal_of_round(state: &State, bots: &[Facts], bot: &BotName) -> Option<StepRefusal>
    ensures { (m : Meaning) → m.facts state.now.bundle ≡ Some bots.now → result ≡ first_failing (parts m (state_of state.now) (kind.Round bot.now)) }
{
    if !is_collector(bots, bot) {
        return Some(StepRefusal::NotLive);
    }
    if has_finished(&state.feeds, bot) {
        None
    } else {
        Some(StepRefusal::Unfinished)
    }
}
