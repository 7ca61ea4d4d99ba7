//! The part of an instance in a round.
ghost use Rattle.std.specs.Prelude.{◌≡◌, ℕ, Option, None, IfOk, IfSome, IsSomeAnd, MatchOption};
ghost use Rattle.book_lock.specs.Seats.{knows, opening, IsSeatOf};
ghost use Rattle.worker_turns.specs.Holds.{IsInstanceStep};
ghost use Rattle.bot_runner.specs.Round.{InstanceEnds};
ghost use Rattle.bot_runner.specs.Parts.{HasActed, HasEnded, HasHeld, HasLooked, IsAtWork, IsNew};

use crate::Why;
use crate::ends::{QUIET_LOOKS, why_of};
use crate::outside::Outside;
use crate::turns::{rest_behind, take_turn};
use base_types::{BotName, OutOfMemory};
use book_lock::{BookLock, Seat};
use edge_traits::{Clock, Disk, Gate, When};
use locked_book::{EndMark, Locked};
use std::sync::Wait;
use step_code::Rules;
use worker_turns::{Done, HoldEnd, Instance, Job, Turned, compute, instance_turn};

// How often in a second a bot that waits looks whether the round has ended.
const LOOKS_A_SECOND: u64 = 10;

const LOOK_MILLIS: u64 = 100;

/// An instance between two holds: what it computed, how many looks in a row found nothing, and for how many looks it waits before it tries
/// its message again.
#[derive(Drop)]
pub struct Work<W> {
    pub worker: Instance<W>,
    pub done: Option<Done>,
    pub quiet: u32,
    pub waits: u64,
}

// The part of this instance. Answers the numbers of its steps, and why it ended.
pub(crate) fn instance_part<T: Wait, D: Disk, R: Rules, C: Clock, G: Gate>(
    rt: &T,
    rules: &R,
    lock: &BookLock<Locked<D, R>>,
    seat: Seat<Locked<D, R>>,
    bot: BotName,
    number: u8,
    outside: &Outside<'_, C, G>,
) -> (Seat<Locked<D, R>>, Vec<u64>, Why)
    requires lock { IsSeatOf lock.now seat }
    requires new { IsNew R.meaning (opening lock.now) (knows seat) }
    ensures lock { IsSeatOf lock.now result.0 }
    ensures parts { (knows result.0).parts ≡ (knows seat).parts }
    ensures ended { HasEnded R.meaning (IsInstanceStep (C.told outside.now.clock.now) bot number) outside.now.left (InstanceEnds R.meaning bot number) (opening lock.now).opening (knows result.0) result.1.items result.2 }
{
    let mut seat = seat;
    let mut work = Work {
        worker: Instance {
            bot,
            number,
            ready: None,
            steps: Vec::new(outside.alloc),
        },
        done: None,
        quiet: 0,
        waits: 0,
    };
    'acts: for _ in rt.forever() {
        let (back, why) = act(rt, rules, lock, seat, &mut work, outside);
        seat = back;
        if let Some(why) = why {
            return (seat, steps_of(work), why);
        }
    }
    unreachable!()
}

fn steps_of<W: Drop>(work: Work<W>) -> Vec<u64>
    ensures { result ≡ work.worker.steps }
{
    work.worker.steps
}

// One look or hold of an instance, and what it computes after it. Answers why its part ends, if it does.
fn act<T: Wait, D: Disk, R: Rules, C: Clock, G: Gate>(
    rt: &T,
    rules: &R,
    lock: &BookLock<Locked<D, R>>,
    seat: Seat<Locked<D, R>>,
    work: &mut Work<R::Work>,
    outside: &Outside<'_, C, G>,
) -> (Seat<Locked<D, R>>, Option<Why>)
    requires lock { IsSeatOf lock.now seat }
    requires at_work { IsAtWork R.meaning R.task_of (C.told outside.now.clock.now) outside.now.left (opening lock.now).opening work.old.worker.bot work.old.worker.number (knows seat) work.old.worker work.old.done }
    ensures lock { IsSeatOf lock.now result.0 }
    ensures parts { (knows result.0).parts ≡ (knows seat).parts }
    ensures acted { HasActed R.meaning R.task_of (C.told outside.now.clock.now) outside.now.left (opening lock.now).opening work.old.worker.bot work.old.worker.number (knows result.0) work.new result.1 }
{
    if work.waits > 0 {
        work.waits -= 1;
        work.done = None;
        outside.gate.rest(LOOK_MILLIS);
        let (seat, mark) = look(rt, lock, seat, &work.worker, outside.gate);
        return match mark {
            Some(mark) => (seat, Some(why_of(HoldEnd::Found(mark)))),
            None => (seat, None),
        };
    }
    let (seat, turned) = hold(rt, lock, seat, &mut work.worker, work.done.take(), outside);
    match turned {
        Turned::Holds(job) => {
            work.quiet = 0;
            match work_on(rules, &mut work.worker, job, outside) {
                Ok(done) => {
                    work.done = Some(done);
                    (seat, None)
                }
                Err(OutOfMemory) => (seat, Some(Why::Memory)),
            }
        }
        Turned::Retried { delay } => {
            work.waits = delay.saturating_mul(LOOKS_A_SECOND);
            (seat, None)
        }
        Turned::Nothing { at, idle } => {
            work.quiet = work.quiet.saturating_add(1);
            if work.quiet >= QUIET_LOOKS {
                return (seat, Some(Why::Quiet { at }));
            }
            rest_behind(outside.gate, work.quiet, idle);
            (seat, None)
        }
        Turned::Ended(end) => (seat, Some(why_of(end))),
    }
}

// A hold of an instance.
fn hold<T: Wait, D: Disk, R: Rules, C: Clock, G: Gate>(
    rt: &T,
    lock: &BookLock<Locked<D, R>>,
    seat: Seat<Locked<D, R>>,
    worker: &mut Instance<R::Work>,
    done: Option<Done>,
    outside: &Outside<'_, C, G>,
) -> (Seat<Locked<D, R>>, Turned)
    requires lock { IsSeatOf lock.now seat }
    requires at_work { IsAtWork R.meaning R.task_of (C.told outside.now.clock.now) outside.now.left (opening lock.now).opening worker.old.bot worker.old.number (knows seat) worker.old done }
    ensures lock { IsSeatOf lock.now result.0 }
    ensures parts { (knows result.0).parts ≡ (knows seat).parts }
    ensures held { HasHeld R.meaning R.task_of (C.told outside.now.clock.now) outside.now.left (opening lock.now).opening worker.old.bot worker.old.number (knows result.0) worker.new result.1 }
{
    let before = worker.steps.len();
    let mut held = take_turn(rt, lock, seat, outside.gate);
    let locked = held.value();
    let _ = locked.core();
    let turned = instance_turn(
        outside.alloc,
        locked,
        worker,
        done,
        outside.clock,
        outside.left,
    );
    let seat = BookLock::unlock(held);
    if worker.steps.len() > before {
        outside
            .gate
            .at(&worker.bot, worker.number, When::AfterCommit);
    }
    (seat, turned)
}

// A look at the round, in which nothing is done. Answers its mark, if it has one.
fn look<T: Wait, D: Disk, R: Rules, G: Gate>(
    rt: &T,
    lock: &BookLock<Locked<D, R>>,
    seat: Seat<Locked<D, R>>,
    worker: &Instance<R::Work>,
    gate: &G,
) -> (Seat<Locked<D, R>>, Option<EndMark>)
    requires lock { IsSeatOf lock.now seat }
    ensures lock { IsSeatOf lock.now result.0 }
    ensures parts { (knows result.0).parts ≡ (knows seat).parts }
    ensures looked { (clock left : Option ℕ) → IsAtWork R.meaning R.task_of clock left (opening lock.now).opening worker.now.bot worker.now.number (knows seat) worker.now None
        → HasLooked R.meaning R.task_of clock left (opening lock.now).opening worker.now.bot worker.now.number (knows result.0) worker.now result.1 }
{
    let mut held = take_turn(rt, lock, seat, gate);
    let locked = held.value();
    let _ = locked.core();
    let mark = locked.mark();
    (BookLock::unlock(held), mark)
}

// What the bot gives of a message, between two holds.
fn work_on<R: Rules, C: Clock, G: Gate>(
    rules: &R,
    worker: &mut Instance<R::Work>,
    job: Job,
    outside: &Outside<'_, C, G>,
) -> Result<Done, OutOfMemory>
    requires ready { IsSomeAnd worker.old.ready (λ r. r.bundle ≡ job.bundle) }
    ensures worker { worker.new ≡ record worker.old { ready = worker.new.ready } }
    ensures ready { IsSomeAnd worker.old.ready (λ old. IsSomeAnd worker.new.ready (λ new. (new.bundle ≡ old.bundle) × (R.task_of new.work ≡ R.task_of old.work)
        × IfOk result (λ done. (done.job ≡ job) × (done.given ≡ R.meaning.give (R.task_of old.work) job.message.body job.since.0)))) }
{
    outside
        .gate
        .at(&worker.bot, worker.number, When::BeforeRules);
    match &mut worker.ready {
        Some(ready) => compute(outside.alloc, rules, ready, job),
        None => unreachable!(),
    }
}
