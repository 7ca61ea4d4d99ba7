//! The part of who waits for the workers.
ghost use Rattle.std.specs.Prelude.{◌≡◌, [], None, Err, MatchResult};
ghost use Rattle.book_lock.specs.Seats.{knows, opening, IsSeatOf};
ghost use Rattle.collector_feeds.specs.Open.{GoesOn};
ghost use Rattle.bot_runner.specs.Parts.{HasEnded, HasWaited, IsNew, IsWaiting};
ghost use Rattle.bot_runner.specs.Round.{WaiterEnds};

use crate::Why;
use crate::ends::{QUIET_LOOKS, why_of};
use crate::outside::Outside;
use crate::turns::take_turn;
use crate::watching::has_grown;
use book_lock::{BookLock, Seat};
use edge_traits::{Disk, Gate, Source};
use locked_book::Locked;
use std::sync::Wait;
use std::sync::atomic::{AtomicU64, Ordering};
use step_code::Rules;
use worker_turns::{HoldEnd, caller_turn, stop_turn};

/// How many workers there are, how many of them began, and how many ended.
#[derive(Drop)]
pub(crate) struct Counts {
    pub(crate) all: usize,
    pub(crate) began: AtomicU64,
    pub(crate) ended: AtomicU64,
}

// Whether no worker is at work: each that began has ended, and each began, or has had the time to.
fn are_done(counts: &Counts, rests: u32) -> bool {
    let ended = counts.ended.load(Ordering::SeqCst);
    let began = counts.began.load(Ordering::SeqCst);
    began == ended && (began >= counts.all as u64 || rests >= QUIET_LOOKS)
}

// The part of who waits for the workers: steps are made durable while no more come, and the round is ended where control has grown. It
// ends once no worker is at work. Where no thread can be made it runs before all of them, so it waits only for a time for those that
// haven't begun. Answers why it ended.
pub(crate) fn caller_part<T: Wait, D: Disk, R: Rules, K: Source, C, G: Gate>(
    rt: &T,
    lock: &BookLock<Locked<D, R>>,
    seat: Seat<Locked<D, R>>,
    control: &mut K,
    outside: &Outside<'_, C, G>,
    counts: &Counts,
) -> (Seat<Locked<D, R>>, Why)
    requires lock { IsSeatOf lock.now seat }
    requires new { IsNew R.meaning (opening lock.now) (knows seat) }
    ensures lock { IsSeatOf lock.now result.0 }
    ensures parts { (knows result.0).parts ≡ (knows seat).parts }
    ensures ended { HasEnded R.meaning (λ s step. ⊥) None WaiterEnds (opening lock.now).opening (knows result.0) [] result.1 }
    ensures control { GoesOn (K.source control.old) (K.source control.new) }
{
    let mut seat = seat;
    let mut seen = u64::MAX;
    let mut rests = 0u32;
    'looks: for _ in rt.forever() {
        if has_grown(control, outside.control) {
            let (back, end) = stop_hold(rt, lock, seat, outside.gate);
            return (back, why_of(end));
        }
        let (back, looked) = flush_hold(rt, lock, seat, outside.gate, seen);
        seat = back;
        match looked {
            Ok(at) => {
                if are_done(counts, rests) {
                    return (seat, Why::Quiet { at });
                }
                seen = at;
            }
            Err(end) => return (seat, why_of(end)),
        }
        rests = rests.saturating_add(1);
        outside.gate.rest(1);
    }
    unreachable!()
}

// A hold in which steps are made durable, if none came since the one before it.
fn flush_hold<T: Wait, D: Disk, R: Rules, G: Gate>(
    rt: &T,
    lock: &BookLock<Locked<D, R>>,
    seat: Seat<Locked<D, R>>,
    gate: &G,
    seen: u64,
) -> (Seat<Locked<D, R>>, Result<u64, HoldEnd>)
    requires lock { IsSeatOf lock.now seat }
    requires waiting { IsWaiting R.meaning (opening lock.now).opening (knows seat) }
    ensures lock { IsSeatOf lock.now result.0 }
    ensures parts { (knows result.0).parts ≡ (knows seat).parts }
    ensures waited { HasWaited R.meaning (opening lock.now).opening (knows result.0) result.1 }
{
    let mut held = take_turn(rt, lock, seat, gate);
    let locked = held.value();
    let _ = locked.core();
    let looked = caller_turn(locked, seen);
    (BookLock::unlock(held), looked)
}

// A hold in which the round is ended. Answers how.
fn stop_hold<T: Wait, D: Disk, R: Rules, G: Gate>(
    rt: &T,
    lock: &BookLock<Locked<D, R>>,
    seat: Seat<Locked<D, R>>,
    gate: &G,
) -> (Seat<Locked<D, R>>, HoldEnd)
    requires lock { IsSeatOf lock.now seat }
    requires waiting { IsWaiting R.meaning (opening lock.now).opening (knows seat) }
    ensures lock { IsSeatOf lock.now result.0 }
    ensures parts { (knows result.0).parts ≡ (knows seat).parts }
    ensures waited { HasWaited R.meaning (opening lock.now).opening (knows result.0) (Err result.1) }
{
    let mut held = take_turn(rt, lock, seat, gate);
    let locked = held.value();
    let _ = locked.core();
    let mark = stop_turn(locked);
    (BookLock::unlock(held), HoldEnd::Found(mark))
}
