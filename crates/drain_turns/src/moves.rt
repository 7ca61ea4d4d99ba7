//! What a turn comes to.
ghost use Rattle.std.specs.Prelude.{◌≡◌, ℕ, nat_lt, Some, None, IfOk, IsSome, MatchOption, MatchResult, if◌then◌else◌};
ghost use Rattle.step_code.specs.After.{file_of};
ghost use Rattle.step_code.specs.State.{bots_in_force, hand_of};
ghost use Rattle.step_code.specs.declared.rules.Given.TheVariants as given;
ghost use Rattle.collector_feeds.specs.declared.found.Found.TheVariants as found;
ghost use Rattle.turn_order.specs.Turn.{IsFreeToTake, MayAct};
ghost use Rattle.bot_works.specs.Given.{IsGivenOf};
ghost use Rattle.bot_works.specs.Works.{AreReady};
ghost use Rattle.drain_turns.specs.Moves.{IsEndOf, IsMoveOf, IsMoveThat};
ghost use Rattle.drain_turns.specs.Turn.{IsFindOf, IsTakeOf, IsWorkOf};
ghost use Rattle.drain_turns.specs.declared.turn.Turn.TheVariants.{Acts};

use crate::TurnsEnd;
use ack_steps::Core;
use base_types::{BotName, FaultNote, OutOfMemory, Text};
use bot_works::{Ready, give};
use collector_feeds::Found;
use error_policy::{Next, Policy, decide};
use journal_book::Move;
use report_cut::Cut;
use std::alloc::Global;
use step_code::{Facts, Given, Rules, StepKind, bot_named};
use stored_types::Coded;
use turn_order::Actor;

/// What a bot does that may step.
pub fn actor_move<R: Rules>(
    alloc: Global,
    core: &Core<R>,
    works: &mut Vec<Ready<R::Work>>,
    actor: Actor,
) -> Result<Move, OutOfMemory>
    requires actor { MayAct R.meaning core.now.state actor }
    requires ready { AreReady R.task_of core.now.state.bundle works.old.items }
    ensures ready { AreReady R.task_of core.now.state.bundle works.new.items }
    ensures is { IfOk result (IsMoveOf R.meaning core.now.state (Acts actor)) }
{
    match actor {
        Actor::Full { bot, instance } => work_move(alloc, core, works, bot, instance),
        Actor::Take { bot } => Ok(take_move(core, bot, 1)),
    }
}

/// An instance takes the message at the front of its bot's queue.
pub fn take_move<R: Rules>(core: &Core<R>, bot: BotName, instance: u8) -> Move
    requires free { IsFreeToTake R.meaning core.now.state bot instance }
    ensures is { IsMoveThat R.meaning core.now.state (IsTakeOf bot instance) result }
{
    match core.front_no(&bot) {
        Some(message) => StepKind::Take {
            bot,
            instance,
            message,
        },
        None => unreachable!(),
    }
}

/// An instance ends its work on the message in its hand. Its bot is made ready for work where it isn't yet.
pub fn work_move<R: Rules>(
    alloc: Global,
    core: &Core<R>,
    works: &mut Vec<Ready<R::Work>>,
    bot: BotName,
    instance: u8,
) -> Result<Move, OutOfMemory>
    requires full { IsSome (hand_of bot instance core.now.state) }
    requires ready { AreReady R.task_of core.now.state.bundle works.old.items }
    ensures ready { AreReady R.task_of core.now.state.bundle works.new.items }
    ensures is { IfOk result (IsMoveThat R.meaning core.now.state (IsWorkOf bot instance)) }
{
    let given = give(alloc, core, works, &bot, instance)?;
    given_move(alloc, core, bot, instance, given)
}

/// An instance ends its work on the message in its hand, of which its bot gave this.
pub fn given_move<R: Rules>(
    alloc: Global,
    core: &Core<R>,
    bot: BotName,
    instance: u8,
    given: Given,
) -> Result<Move, OutOfMemory>
    requires full { IsSome (hand_of bot instance core.now.state) }
    requires gave { IsGivenOf R.meaning core.now.state bot instance given }
    ensures is { IfOk result (IsMoveThat R.meaning core.now.state (IsWorkOf bot instance)) }
{
    let _ = core.plan();
    let Some(hand) = core.in_hand(&bot, instance) else {
        unreachable!()
    };
    match given {
        Given::Pass {
            sends,
            dumps,
            key,
            line,
        } => Ok(StepKind::Done {
            bot,
            instance,
            message: hand.message.no,
            bundle: core.bundle_no(),
            sends,
            dumps,
            key,
            line,
        }),
        Given::Fault(note) => fault_move(alloc, core, bot, instance, note),
    }
}

// An instance couldn't process the message in its hand, for this cause.
fn fault_move<R: Rules>(
    alloc: Global,
    core: &Core<R>,
    bot: BotName,
    instance: u8,
    note: FaultNote,
) -> Result<Move, OutOfMemory>
    requires full { IsSome (hand_of bot instance core.now.state) }
    requires gave { IsGivenOf R.meaning core.now.state bot instance (given.Fault note) }
    ensures is { IfOk result (IsMoveThat R.meaning core.now.state (IsWorkOf bot instance)) }
{
    let Some(hand) = core.in_hand(&bot, instance) else {
        unreachable!()
    };
    let bots = core.rules().facts(core.plan()).as_slice();
    let Some(facts) = bot_named(bots, &bot) else {
        unreachable!()
    };
    let message = hand.message.no;
    let bundle = core.bundle_no();
    match gives_up(policy_of(facts), hand.tries) {
        None => Ok(StepKind::Retry {
            bot,
            instance,
            message,
            bundle,
            note,
        }),
        Some(halts) => Ok(StepKind::Fail {
            bot,
            instance,
            message,
            bundle,
            note,
            queues: facts.on_error.copy(alloc)?,
            halts,
        }),
    }
}

// Whether the bot stops with this failure; none where the message is tried again.
fn gives_up(policy: Policy, tries: u32) -> Option<bool>
    ensures { result ≡ (if nat_lt tries policy.retries then None else Some policy.stop) }
{
    match decide(policy, tries) {
        Next::Retry => None,
        Next::Fail => Some(false),
        Next::FailAndStop => Some(true),
    }
}

fn policy_of(facts: &Facts) -> Policy
    ensures stop { result.stop ≡ facts.now.stop }
    ensures retries { result.retries ≡ facts.now.retries }
{
    Policy {
        stop: facts.stop,
        retries: facts.retries,
    }
}

/// What a collector does that finds this at an offset of its feed, or why the turns end there.
pub fn found_move<R: Rules>(
    alloc: Global,
    core: &Core<R>,
    bot: BotName,
    at: u64,
    what: Found,
) -> Result<Move, TurnsEnd>
    requires { IsSome (file_of (bots_in_force R.meaning core.now.state) bot) }
    ensures { MatchResult result (IsFindOf bot at what) (IsEndOf (bots_in_force R.meaning core.now.state) bot at what) }
{
    match what {
        Found::Piece {
            cut: Cut { piece, upto },
        } => Ok(StepKind::Collect {
            bot,
            from: at,
            upto,
            piece,
        }),
        Found::End => Ok(StepKind::FeedEnd { bot, position: at }),
        Found::Absent => Err(absent(alloc, core, &bot)),
        Found::Short { have } => Err(TurnsEnd::Short { have, need: at }),
        Found::LongLine { at } => Err(TurnsEnd::LongLine { bot, at }),
        Found::LongFeed => Err(TurnsEnd::LongFeed { bot }),
    }
}

// The turns end, since the shelf has no feed of the collector's name.
fn absent<R: Rules>(alloc: Global, core: &Core<R>, bot: &BotName) -> TurnsEnd
    requires { IsSome (file_of (bots_in_force R.meaning core.now.state) bot.now) }
    ensures { (at : ℕ) → IsEndOf (bots_in_force R.meaning core.now.state) bot.now at found.Absent result }
{
    match file_of(core.rules().facts(core.plan()).as_slice(), bot) {
        Some(file) => match file.copy(alloc) {
            Ok(name) => TurnsEnd::Absent { name },
            Err(OutOfMemory) => TurnsEnd::Memory,
        },
        None => unreachable!(),
    }
}

// The name of the feed that a bot reads, if it reads one.
fn file_of<'f>(bots: &'f [Facts], bot: &BotName) -> Option<&'f Text>
    ensures { MatchOption result (file_of bots.now bot.now ≡ None) (λ file. file_of bots.now bot.now ≡ Some file.now) }
{
    match bot_named(bots, bot) {
        Some(facts) => match &facts.feed {
            Some(feed) => Some(&feed.file),
            None => None,
        },
        None => None,
    }
}
