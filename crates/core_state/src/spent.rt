//! The first number past the last one that may be given.
ghost use Rattle.std.specs.Prelude.{◌≡◌, ◌+◌, ◌-◌, ◌<◌, ℕ, List, [], ◌∷◌, Some, None, find, map, min, length, take, drop, get_or};
ghost use Rattle.std.specs.Option.{option_or};
ghost use Rattle.base_types.specs.declared.message.Moment.{Moment};
ghost use Rattle.step_code.specs.After.{body_in_hand};
ghost use Rattle.step_code.specs.Rules.{Meaning};
ghost use Rattle.core_state.specs.declared.outputs.Written.{Written};
ghost use Rattle.core_state.specs.declared.state.State.{State};
ghost use Rattle.step_code.specs.declared.step.Step.{Step};
ghost use Rattle.step_code.specs.Spent.{is_past, last_given, spent, up_to_spent};
ghost use Rattle.base_types.specs.Number.{last_u64};
ghost use Rattle.core_state.specs.Outputs.{HaveLengths, outs_of};
ghost use Rattle.core_state.specs.Spent.{bots_coming, bundles_by, dumps_by, line_by, messages_by, new_writers, with_line};
ghost use Rattle.core_state.specs.State.{state_of};

use crate::outputs::{Written, has_output, place_of_output};
use crate::state::State;
use base_types::BotName;
use step_code::{Facts, LAST_GIVEN, StepKind, bot_named, writes};

fn first_past(numbers: &[u64]) -> Option<u64>
    ensures { result ≡ find is_past numbers.now }
{
    'numbers: for number in numbers {
        if *number > LAST_GIVEN {
            return Some(*number);
        }
    }
    None
}

fn first_long(outs: &[Written]) -> Option<u64>
    ensures { result ≡ find is_past (map (λ w. w.length) outs.now) }
{
    'outs: for out in outs {
        if out.length > LAST_GIVEN {
            return Some(out.length);
        }
    }
    None
}

// The same, where the output at this place gets a line of so many bytes.
fn first_long_at(outs: &[Written], place: usize, bytes: u64) -> Option<u64>
    requires { place < length outs.now }
    ensures { (d : Written) → result ≡ option_or (find is_past (map (λ w. w.length) (take place outs.now)))
        (option_or (find is_past (min ((get_or outs.now place d).length + (bytes + 1)) last_u64 ∷ [])) (find is_past (map (λ w. w.length) (drop (place + 1) outs.now)))) }
{
    if let Some(length) = first_long(&outs[..place]) {
        return Some(length);
    }
    let length = outs[place].length.saturating_add(bytes).saturating_add(1);
    if length > LAST_GIVEN {
        return Some(length);
    }
    first_long(&outs[place + 1..])
}

// The first length past the last one, where a bot may write a line of so many bytes.
fn first_long_with(outs: &[Written], line: &Option<(BotName, u64)>) -> Option<u64>
    ensures { result ≡ find is_past (map (λ w. w.length) (with_line line.now outs.now)) }
{
    let Some((bot, bytes)) = line else {
        return first_long(outs);
    };
    match place_of_output(outs, bot) {
        Some(place) => first_long_at(outs, place, *bytes),
        None => first_long(outs),
    }
}

// The last of the numbers that are given one by one, where so many are given.
fn last_of(next: u64, count: u64) -> u64
    ensures { result ≡ up_to_spent ((next + count) - 1) }
{
    next.saturating_add(count)
        .saturating_sub(1)
        .min(LAST_GIVEN + 1)
}

// A call, since the prover sees the bound of what a call returns, and not that of a field behind a reference.
fn bundle_no(state: &State) -> u64
    ensures { result ≡ state.now.bundle_no }
{
    state.bundle_no
}

fn messages_by(bots: &[Facts], what: &StepKind) -> u64
    ensures { (m : Meaning) (state : State) (now : Moment) → m.facts state.bundle ≡ Some bots.now → result ≡ min (messages_by m (state_of state) now what.now) last_u64 }
{
    match what {
        StepKind::Collect { bot, .. } => match bot_named(bots, bot) {
            Some(facts) => facts.defaults.len() as u64,
            None => 0,
        },
        StepKind::Done { sends, dumps, .. } => {
            (sends.len() as u64).saturating_add(dumps.len() as u64)
        }
        StepKind::Fail { queues, .. } => queues.len() as u64,
        StepKind::Start
        | StepKind::FeedEnd { .. }
        | StepKind::Take { .. }
        | StepKind::Retry { .. }
        | StepKind::Reload { .. }
        | StepKind::Redo { .. }
        | StepKind::Round { .. } => 0,
    }
}

fn dumps_by(what: &StepKind) -> u64
    ensures { result ≡ dumps_by what.now }
{
    match what {
        StepKind::Done { dumps, .. } => dumps.len() as u64,
        StepKind::Fail { .. } => 1,
        StepKind::Start
        | StepKind::Collect { .. }
        | StepKind::FeedEnd { .. }
        | StepKind::Take { .. }
        | StepKind::Retry { .. }
        | StepKind::Reload { .. }
        | StepKind::Redo { .. }
        | StepKind::Round { .. } => 0,
    }
}

fn bundles_by(what: &StepKind) -> u64
    ensures { result ≡ bundles_by what.now }
{
    match what {
        StepKind::Reload { .. } => 1,
        _ => 0,
    }
}

fn body_length(state: &State, bot: &BotName, instance: u8) -> u64
    ensures { result ≡ length (body_in_hand bot.now instance (state_of state.now)) }
{
    match state.broker.in_hand(bot, instance) {
        Some(hand) => hand.message.body.bytes().len() as u64,
        None => 0,
    }
}

// The bot that writes a line, and the length of its body in bytes.
fn line_by(state: &State, what: &StepKind) -> Option<(BotName, u64)>
    ensures { result ≡ line_by (state_of state.now) what.now }
{
    match what {
        StepKind::Done {
            bot,
            instance,
            line: true,
            ..
        } => Some((*bot, body_length(state, bot, *instance))),
        _ => None,
    }
}

// The place of the last of so many, and of so many more.
fn last_place(count: u64, more: u64) -> u64
    ensures { result ≡ min ((count + more) - 1) last_u64 }
{
    match count.checked_add(more) {
        Some(count) => count.saturating_sub(1),
        None => u64::MAX,
    }
}

// How many outputs are made for these bots.
fn new_outs(outs: &[Written], bots: &[Facts]) -> u64
    ensures { result ≡ length (new_writers bots.now (outs_of outs.now)) }
{
    bots.iter()
        .filter(|facts| writes(facts) && !has_output(outs, &facts.bot))
        .count() as u64
}

/// The first number that a step would bring past the last one that may be given, if it brings one. Where another bundle is
/// put in force, `coming` are its bots.
pub fn first_spent(state: &State, bots: &[Facts], coming: &[Facts], what: &StepKind) -> Option<u64>
    ensures { (m : Meaning) (now : Moment) → m.facts state.now.bundle ≡ Some bots.now → coming.now ≡ bots_coming m what.now → HaveLengths state.now.outs.items
        → result ≡ spent m (state_of state.now) (record { moment = now; what = what.now }) }
{
    let numbers = [
        state.steps.saturating_add(1),
        last_of(state.next_message, messages_by(bots, what)),
        last_of(state.next_dump, dumps_by(what)),
        bundle_no(state).saturating_add(bundles_by(what)),
        last_place(state.outs.len() as u64, new_outs(&state.outs, coming)),
    ];
    if let Some(number) = first_past(&numbers) {
        return Some(number);
    }
    first_long_with(&state.outs, &line_by(state, what))
}
