//! The hold of an instance: it ends its work on the message in its hand, and takes the next one.
ghost use Rattle.std.specs.Prelude.{◌≡◌, ◌≢◌, ◌⊎◌, ◌<◌, ◌≤◌, ◌↔◌, true, false, length, Some, None, IfOk, IfErr, IfSome, OnOk, OnErr, IsSome, IsSomeAnd, MatchOption, MatchResult};
ghost use Rattle.step_code.specs.Rules.{is_worker};
ghost use Rattle.step_code.specs.State.{bots_in_force, hand_of};
ghost use Rattle.turn_order.specs.Turn.{IsFreeToTake};
ghost use Rattle.worker_turns.specs.Holds.{Adds, EndsOrAdds, HasNoStep, IsDelay, IsDone, IsEnd, IsInHand, IsInstanceStep, IsJob, IsReadyFor, IsReadyNow, IsTurned, delay_of};

use crate::commits::commit_own;
use crate::{Done, HoldEnd, Job, Ready, Turned};
use ack_steps::Core;
use base_types::{BotName, Msg, OutOfMemory};
use drain_turns::{given_move, take_move};
use edge_traits::{Clock, Disk};
use journal_book::Move;
use locked_book::Locked;
use std::alloc::Global;
use step_code::{Rules, StepKind, bot_named, is_instance};
use turn_order::is_idle;

/// An instance of a bot that takes messages, as it is between its holds: the bot that is ready for work, and the numbers of the steps
/// that it made.
#[derive(Drop)]
pub struct Instance<W> {
    pub bot: BotName,
    /// From 1.
    pub number: u8,
    pub ready: Option<Ready<W>>,
    pub steps: Vec<u64>,
}

/// The hold of an instance. Where something was computed of the message that is in its hand still, under the bundle in force, it ends its
/// work on that. Then it takes the next message, and answers it.
pub fn instance_turn<D: Disk, R: Rules, C: Clock>(
    alloc: Global,
    locked: &mut Locked<D, R>,
    worker: &mut Instance<R::Work>,
    done: Option<Done>,
    clock: &C,
    left: Option<u64>,
) -> Turned
    requires ready { IfSome worker.old.ready (IsReadyFor R.meaning R.task_of locked.old worker.old.bot) }
    requires done { IfSome done (IsDone R.meaning locked.old worker.old.bot) }

    // Nothing is done once the round has a mark.
    ensures still { locked.old.mark ≢ None → (locked.new ≡ locked.old) × (worker.new ≡ worker.old) }
    ensures adds { locked.old.mark ≡ None → Adds R.meaning (IsInstanceStep (C.told clock.now) worker.old.bot worker.old.number) locked.old locked.new worker.old.steps.items worker.new.steps.items }
    ensures worker { (worker.new.bot ≡ worker.old.bot) × (worker.new.number ≡ worker.old.number) }
    ensures ready { IfSome worker.new.ready (IsReadyFor R.meaning R.task_of locked.new worker.old.bot) }
    ensures few { IfSome left (λ most. (locked.new.made ≡ locked.old.made) ⊎ (length locked.new.made ≤ most)) }
    ensures turned { IsTurned R.meaning R.task_of left locked.old locked.new worker.new.bot worker.new.number worker.new.ready result }

    // What was computed of the message in the hand isn't dropped.
    ensures moves { locked.old.mark ≡ None → IfSome done (λ did. IsInHand locked.old.book.state worker.old.bot worker.old.number did.job → EndsOrAdds locked.old locked.new result) }
{
    if let Some(mark) = locked.mark() {
        return Turned::Ended(HoldEnd::Found(mark));
    }
    match end_work(alloc, locked, worker, done, clock, left) {
        Ok(None) => {}
        Ok(Some(delay)) => return Turned::Retried { delay },
        Err(end) => return Turned::Ended(end),
    }
    match next_message(alloc, locked, worker, clock, left) {
        Ok(Some(job)) => Turned::Holds(job),
        Ok(None) => Turned::Nothing {
            at: locked.core().steps(),
            idle: is_idle(locked.core()),
        },
        Err(end) => Turned::Ended(end),
    }
}

// Ends the work on the message of which something was computed, if there is one. Where the message is to be tried again, answers after how
// many seconds.
fn end_work<D: Disk, R: Rules, C: Clock>(
    alloc: Global,
    locked: &mut Locked<D, R>,
    worker: &mut Instance<R::Work>,
    done: Option<Done>,
    clock: &C,
    left: Option<u64>,
) -> Result<Option<u64>, HoldEnd>
    requires unmarked { locked.old.mark ≡ None }
    requires done { IfSome done (IsDone R.meaning locked.old worker.old.bot) }
    ensures adds { Adds R.meaning (IsInstanceStep (C.told clock.now) worker.old.bot worker.old.number) locked.old locked.new worker.old.steps.items worker.new.steps.items }
    ensures worker { worker.new ≡ record worker.old { steps = worker.new.steps } }
    ensures few { IfSome left (λ most. (locked.new.made ≡ locked.old.made) ⊎ (length locked.new.made ≤ most)) }
    ensures unmarked { OnOk result (locked.new.mark ≡ None) }
    ensures delay { IfOk result (λ again. IfSome again (IsDelay R.meaning locked.old.book.state worker.old.bot)) }
    ensures end { IfErr result (IsEnd left locked.old locked.new) }
    ensures moves { IfSome done (λ did. IsInHand locked.old.book.state worker.old.bot worker.old.number did.job → OnOk result (length locked.old.made < length locked.new.made)) }
{
    match done {
        Some(done) => end_message(alloc, locked, worker, done, clock, left),
        None => Ok(None),
    }
}

// Ends the work on a message, if that is in the hand still and the bundle is in force under which its bot gave this. Where the message is
// to be tried again, answers after how many seconds.
fn end_message<D: Disk, R: Rules, C: Clock>(
    alloc: Global,
    locked: &mut Locked<D, R>,
    worker: &mut Instance<R::Work>,
    done: Done,
    clock: &C,
    left: Option<u64>,
) -> Result<Option<u64>, HoldEnd>
    requires unmarked { locked.old.mark ≡ None }
    requires done { IsDone R.meaning locked.old worker.old.bot done }
    ensures adds { Adds R.meaning (IsInstanceStep (C.told clock.now) worker.old.bot worker.old.number) locked.old locked.new worker.old.steps.items worker.new.steps.items }
    ensures worker { worker.new ≡ record worker.old { steps = worker.new.steps } }
    ensures few { IfSome left (λ most. (locked.new.made ≡ locked.old.made) ⊎ (length locked.new.made ≤ most)) }
    ensures unmarked { OnOk result (locked.new.mark ≡ None) }
    ensures delay { IfOk result (λ again. IfSome again (IsDelay R.meaning locked.old.book.state worker.old.bot)) }
    ensures end { IfErr result (IsEnd left locked.old locked.new) }
    ensures moves { IsInHand locked.old.book.state worker.old.bot worker.old.number done.job → OnOk result (length locked.old.made < length locked.new.made) }
{
    let core = locked.core();
    let Done { job, given } = done;
    if !is_in_hand(core, &worker.bot, worker.number, &job) {
        return Ok(None);
    }
    let what = match given_move(alloc, core, worker.bot, worker.number, given) {
        Ok(what) => what,
        Err(OutOfMemory) => return Err(HoldEnd::OutOfMemory),
    };
    let delay = delay_of(core, &worker.bot, &what);
    match commit_own(locked, &mut worker.steps, clock, left, what) {
        Ok(()) => Ok(delay),
        Err(end) => Err(end),
    }
}

// Whether the message is in the hand still, and the bundle of its number is in force.
fn is_in_hand<R: Rules>(core: &Core<R>, bot: &BotName, instance: u8, job: &Job) -> bool
    ensures there { result ≡ true → IsInHand core.now.state bot.now instance job.now }
    ensures other { result ≡ false → IsInHand core.now.state bot.now instance job.now → ⊥ }
{
    match core.in_hand(bot, instance) {
        Some(hand) => {
            core.bundle_no() == job.bundle
                && hand.since == job.since
                && *hand.message == job.message
        }
        None => false,
    }
}

// After how many seconds the message is tried again, if it is.
fn delay_of<R: Rules>(core: &Core<R>, bot: &BotName, what: &Move) -> Option<u64>
    ensures { result ≡ delay_of R.meaning core.now.state bot.now what.now }
{
    if !matches!(what, StepKind::Retry { .. }) {
        return None;
    }
    match bot_named(core.rules().facts(core.plan()).as_slice(), bot) {
        Some(facts) => Some(facts.delay),
        None => None,
    }
}

// The message in the hand, or else the one at the front of the queue, which is taken, if the instance may.
fn next_message<D: Disk, R: Rules, C: Clock>(
    alloc: Global,
    locked: &mut Locked<D, R>,
    worker: &mut Instance<R::Work>,
    clock: &C,
    left: Option<u64>,
) -> Result<Option<Job>, HoldEnd>
    requires unmarked { locked.old.mark ≡ None }
    requires ready { IfSome worker.old.ready (IsReadyFor R.meaning R.task_of locked.old worker.old.bot) }
    ensures adds { Adds R.meaning (IsInstanceStep (C.told clock.now) worker.old.bot worker.old.number) locked.old locked.new worker.old.steps.items worker.new.steps.items }
    ensures worker { (worker.new.bot ≡ worker.old.bot) × (worker.new.number ≡ worker.old.number) }
    ensures ready { IfSome worker.new.ready (IsReadyFor R.meaning R.task_of locked.new worker.old.bot) }
    ensures few { IfSome left (λ most. (locked.new.made ≡ locked.old.made) ⊎ (length locked.new.made ≤ most)) }
    ensures unmarked { OnOk result (locked.new.mark ≡ None) }
    ensures next { IfOk result (λ next. MatchOption next (HasNoStep R.meaning locked.new.book.state worker.old.bot worker.old.number)
        (IsJob R.meaning R.task_of locked.new worker.old.bot worker.old.number worker.new.ready)) }
    ensures end { IfErr result (IsEnd left locked.old locked.new) }
{
    match take_next(locked, worker, clock, left) {
        Ok(true) => match job_in_hand(alloc, locked, worker) {
            Ok(job) => Ok(Some(job)),
            Err(OutOfMemory) => Err(HoldEnd::OutOfMemory),
        },
        Ok(false) => Ok(None),
        Err(end) => Err(end),
    }
}

// Takes the message at the front of the queue, where the hand is empty and the instance may. Answers whether the hand is full then.
fn take_next<D: Disk, R: Rules, C: Clock>(
    locked: &mut Locked<D, R>,
    worker: &mut Instance<R::Work>,
    clock: &C,
    left: Option<u64>,
) -> Result<bool, HoldEnd>
    requires unmarked { locked.old.mark ≡ None }
    ensures adds { Adds R.meaning (IsInstanceStep (C.told clock.now) worker.old.bot worker.old.number) locked.old locked.new worker.old.steps.items worker.new.steps.items }
    ensures worker { worker.new ≡ record worker.old { steps = worker.new.steps } }
    ensures few { IfSome left (λ most. (locked.new.made ≡ locked.old.made) ⊎ (length locked.new.made ≤ most)) }
    ensures unmarked { OnOk result (locked.new.mark ≡ None) }
    ensures full { IfOk result (λ full. full ≡ true → IsSome (hand_of worker.old.bot worker.old.number locked.new.book.state)) }
    ensures nothing { IfOk result (λ full. full ≡ false → HasNoStep R.meaning locked.new.book.state worker.old.bot worker.old.number) }
    ensures end { IfErr result (IsEnd left locked.old locked.new) }
{
    let core = locked.core();
    if core.in_hand(&worker.bot, worker.number).is_some() {
        return Ok(true);
    }
    if !may_take(core, &worker.bot, worker.number) {
        return Ok(false);
    }
    let what = take_move(core, worker.bot, worker.number);
    match commit_own(locked, &mut worker.steps, clock, left, what) {
        Ok(()) => Ok(true),
        Err(end) => Err(end),
    }
}

// Whether an instance with an empty hand may take a message.
fn may_take<R: Rules>(core: &Core<R>, bot: &BotName, instance: u8) -> bool
    requires { hand_of bot.now instance core.now.state ≡ None }
    ensures free { result ≡ true → IsFreeToTake R.meaning core.now.state bot.now instance }
    ensures bound { result ≡ false → HasNoStep R.meaning core.now.state bot.now instance }
{
    is_instance(core.rules().facts(core.plan()).as_slice(), bot, instance)
        && !core.is_halted(bot)
        && core.front_no(bot).is_some()
}

// The message in the hand, with the bot ready for work on it.
fn job_in_hand<D: Disk, R: Rules>(
    alloc: Global,
    locked: &Locked<D, R>,
    worker: &mut Instance<R::Work>,
) -> Result<Job, OutOfMemory>
    requires full { IsSome (hand_of worker.old.bot worker.old.number locked.now.book.state) }
    requires ready { IfSome worker.old.ready (IsReadyFor R.meaning R.task_of locked.now worker.old.bot) }
    ensures worker { worker.new ≡ record worker.old { ready = worker.new.ready } }
    ensures ready { IfSome worker.new.ready (IsReadyFor R.meaning R.task_of locked.now worker.old.bot) }
    ensures job { IfOk result (IsJob R.meaning R.task_of locked.now worker.old.bot worker.old.number worker.new.ready) }
{
    make_ready(alloc, locked, worker)?;
    let core = locked.core();
    let Some(hand) = core.in_hand(&worker.bot, worker.number) else {
        unreachable!()
    };
    Ok(Job {
        bundle: core.bundle_no(),
        message: Msg {
            no: hand.message.no,
            body: hand.message.body.copy(alloc)?,
        },
        since: hand.since,
    })
}

// Makes the bot ready for work under the bundle in force, where it isn't.
fn make_ready<D: Disk, R: Rules>(
    alloc: Global,
    locked: &Locked<D, R>,
    worker: &mut Instance<R::Work>,
) -> Result<(), OutOfMemory>
    requires full { IsSome (hand_of worker.old.bot worker.old.number locked.now.book.state) }
    requires ready { IfSome worker.old.ready (IsReadyFor R.meaning R.task_of locked.now worker.old.bot) }
    ensures worker { worker.new ≡ record worker.old { ready = worker.new.ready } }
    ensures ready { IfSome worker.new.ready (IsReadyFor R.meaning R.task_of locked.now worker.old.bot) }
    ensures now { OnOk result (IsSomeAnd worker.new.ready (IsReadyNow R.task_of locked.now.book.state worker.old.bot)) }
{
    let core = locked.core();
    let bundle = core.bundle_no();
    if is_ready(&worker.ready, bundle) {
        return Ok(());
    }
    let work = new_work(alloc, core, &worker.bot)?;
    worker.ready = Some(Ready { bundle, work });
    Ok(())
}

// Whether the bot is ready for work under the bundle of this number.
fn is_ready<W>(ready: &Option<Ready<W>>, bundle: u64) -> bool
    ensures ready { result ≡ true → IsSomeAnd ready.now (λ r. r.bundle ≡ bundle) }
    ensures other { result ≡ false → IfSome ready.now (λ r. r.bundle ≢ bundle) }
{
    match ready {
        Some(ready) => ready.bundle == bundle,
        None => false,
    }
}

// A bot, ready for work under the bundle in force.
fn new_work<R: Rules>(alloc: Global, core: &Core<R>, bot: &BotName) -> Result<R::Work, OutOfMemory>
    requires worker { is_worker (bots_in_force R.meaning core.now.state) bot.now ≡ true }
    ensures task { IfOk result (λ work. R.task_of work ≡ record { bundle = core.now.state.bundle; bot = bot.now }) }
{
    core.rules().work(alloc, core.plan(), bot)
}
