//! What a step carries of a bot's work, beside what the bot gives.
ghost use Rattle.std.specs.Prelude.{◌≡◌, ◌↔◌, true, [], None};
ghost use Rattle.step_code.specs.Content.{Carries, on_error_of, stops};
ghost use Rattle.step_code.specs.declared.rules.Given.TheVariants.{Fault};
ghost use Rattle.step_checks.specs.Carried.{IsPassOf};

use ack_steps::Core;
use base_types::{Blob, BotName, FaultNote, Moment, NoteList, QueueList, SendList};
use step_code::{Given, Rules, bot_named};

/// What a step carries of a bot's work on a message: bodies for queues, parts that could not be processed, a key for its
/// cache, and whether it writes a line.
#[derive(Clone, Copy)]
pub(crate) struct Carried<'s> {
    pub sends: &'s SendList,
    pub dumps: &'s NoteList,
    pub key: &'s Option<Blob>,
    pub line: bool,
}

fn are_same_sends(given: &SendList, sends: &SendList) -> bool
    ensures { (result ≡ true) ↔ (sends.now ≡ given.now) }
{
    *sends == *given
}

fn are_same_dumps(given: &NoteList, dumps: &NoteList) -> bool
    ensures { (result ≡ true) ↔ (given.now ≡ dumps.now) }
{
    *given == *dumps
}

fn is_same_key(given: &Option<Blob>, key: &Option<Blob>) -> bool
    ensures { (result ≡ true) ↔ (key.now ≡ given.now) }
{
    *key == *given
}

fn are_same_queues(queues: &QueueList, others: &QueueList) -> bool
    ensures { (result ≡ true) ↔ (queues.now ≡ others.now) }
{
    *queues == *others
}

fn is_same_note(given: &FaultNote, note: &FaultNote) -> bool
    ensures { (result ≡ true) ↔ (given.now ≡ note.now) }
{
    *given == *note
}

// Whether nothing of it is carried: no successor, and no mark.
fn is_bare(carried: Carried<'_>) -> bool
    ensures { (result ≡ true) ↔ ((carried.entry.sends.now ≡ []) × (carried.entry.key.now ≡ None)) }
{
    carried.sends.is_empty() && carried.key.is_none()
}

// Whether these successors and this mark are carried, and none of a duplicate.
fn carries(
    is_duplicate: bool,
    given_sends: &SendList,
    given_key: &Option<Blob>,
    carried: Carried<'_>,
) -> bool
    ensures { (result ≡ true) ↔ Carries is_duplicate given_sends.now given_key.now carried.entry.sends.now carried.entry.key.now }
{
    if is_duplicate {
        is_bare(carried)
    } else {
        are_same_sends(given_sends, carried.sends) && is_same_key(given_key, carried.key)
    }
}

/// Whether the bot gave what is carried: a pass, with its parts and its line, and its successors and its key, which a
/// duplicate leaves without.
pub(crate) fn is_pass<R: Rules>(
    core: &Core<R>,
    bot: &BotName,
    now: Moment,
    given: &Given,
    carried: Carried<'_>,
) -> bool
    ensures { (result ≡ true) ↔ IsPassOf R.meaning core.now.state bot.now now.0 given.now carried.entry.sends.now carried.entry.dumps.now carried.entry.key.now carried.entry.line }
{
    match given {
        Given::Pass {
            sends,
            dumps,
            key,
            line,
        } => {
            are_same_dumps(dumps, carried.dumps)
                && *line == carried.line
                && carries(core.is_duplicate(bot, now, key), sends, key, carried)
        }
        Given::Fault(_) => false,
    }
}

/// Whether the bot gave this fault.
pub(crate) fn is_fault(given: &Given, note: &FaultNote) -> bool
    ensures { (result ≡ true) ↔ (given.now ≡ Fault note.now) }
{
    match given {
        Given::Fault(gave) => is_same_note(gave, note),
        Given::Pass { .. } => false,
    }
}

/// Whether a failure goes the way that the bot's plan has for it: to these queues, and whether the bot is halted then.
pub(crate) fn is_way<R: Rules>(
    core: &Core<R>,
    bot: &BotName,
    queues: &QueueList,
    halts: bool,
) -> bool
    ensures { (result ≡ true) ↔ ((queues.now ≡ on_error_of R.meaning core.now.state bot.now) × (halts ≡ stops R.meaning core.now.state bot.now)) }
{
    match bot_named(core.rules().facts(core.plan()).as_slice(), bot) {
        Some(facts) => are_same_queues(queues, &facts.on_error) && halts == facts.stop,
        None => queues.is_empty() && !halts,
    }
}
