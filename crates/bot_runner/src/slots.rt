//! All workers, each in a slot of its own.
ghost use Rattle.std.specs.Prelude.{◌≡◌, ◌≢◌, ◌≤◌, ◌<◌, ◌+◌, ℕ, Option, List, [], length, slice_index_or, None, Some, IfSome, IsSomeAnd, vec_len, vec_capacity};
ghost use Rattle.std.specs.List.{AllByRecursion};
ghost use Rattle.book_lock.specs.Seats.{knows, opening, IsSeatOf};
ghost use Rattle.collector_feeds.specs.Open.{GoesOn};
ghost use Rattle.bot_runner.specs.Parts.{AreEach, HasEnded, HasJoined, HasWorked, IsNew};
ghost use Rattle.bot_runner.specs.Round.{WaiterEnds};
ghost use Rattle.bot_runner.specs.declared.worker.Worker.{Worker};

use crate::caller_part::{Counts, caller_part};
use crate::calls::call_each_beside;
use crate::outside::Outside;
use crate::worker_part::worker_part;
use crate::{Why, Worker, WorkerEnd};
use book_lock::{BookLock, Grows, Seat};
use edge_traits::{Clock, Disk, Gate, Source};
use locked_book::Locked;
use std::sync::Wait;
use std::sync::atomic::{AtomicU64, Ordering};
use std::thread::Threads;
use step_code::Rules;

/// A worker with its seat, and its end once it has worked.
pub(crate) struct Slot<V: Grows, S: Source> {
    pub(crate) seat: Option<Seat<V>>,
    pub(crate) worker: Option<Worker<S>>,
    pub(crate) end: Option<WorkerEnd<S>>,
}

/// Who waits for the workers, with its seat, and why it ended.
pub(crate) struct Waiter<V: Grows> {
    pub(crate) seat: Option<Seat<V>>,
    pub(crate) why: Option<Why>,
}

// Gives each worker a slot with a seat.
pub(crate) fn fill<D: Disk, R: Rules, S: Source>(
    lock: &BookLock<Locked<D, R>>,
    seat: Seat<Locked<D, R>>,
    workers: Vec<Worker<S>>,
    slots: &mut Vec<Slot<Locked<D, R>, S>>,
) -> Seat<Locked<D, R>>
    requires lock { IsSeatOf lock.now seat }
    requires new { IsNew R.meaning (opening lock.now) (knows seat) }
    requires parts { vec_len workers < (knows seat).parts }
    requires empty { slots.old.items ≡ [] }
    requires room { vec_len workers ≤ vec_capacity slots.old }
    ensures lock { IsSeatOf lock.now result }
    ensures new { IsNew R.meaning (opening lock.now) (knows result) }
    ensures parts { (knows result).parts + vec_len workers ≡ (knows seat).parts }
    ensures capacity { vec_capacity slots.new ≡ vec_capacity slots.old }
    ensures len { vec_len slots.new ≡ vec_len workers }
    ensures slots { AreEach (λ worker slot. (slot.worker ≡ Some worker) × (slot.end ≡ None) × IsSomeAnd slot.seat (λ s. IsSeatOf lock.now s × ((knows s).parts ≡ 1) × IsNew R.meaning (opening lock.now) (knows s))) workers.items slots.new.items }
{
    let mut workers = workers;
    match workers.pop() {
        Some(worker) => {
            let (left, new) = lock.split(seat);
            let seat = fill(lock, left, workers, slots);
            slots.push_reserved(Slot {
                seat: Some(new),
                worker: Some(worker),
                end: None,
            });
            seat
        }
        None => {
            workers.destroy_empty();
            seat
        }
    }
}

// Joins the seats of all workers with that of who waited for them, who ended for this. The ends are in the order of the slots.
pub(crate) fn gather<D: Disk, R: Rules, S: Source>(
    lock: &BookLock<Locked<D, R>>,
    seat: Seat<Locked<D, R>>,
    last: Why,
    slots: Vec<Slot<Locked<D, R>, S>>,
    ends: &mut Vec<WorkerEnd<S>>,
) -> Seat<Locked<D, R>>
    requires lock { IsSeatOf lock.now seat }
    requires waited { HasEnded R.meaning (λ s step. ⊥) None WaiterEnds (opening lock.now).opening (knows seat) [] last }
    requires each { AllByRecursion (λ slot. IsSomeAnd slot.seat (λ s. IsSeatOf lock.now s × ((knows s).parts ≡ 1)) × (slot.worker ≡ None) × (slot.end ≢ None)) slots.items }
    requires empty { ends.old.items ≡ [] }
    requires room { vec_len slots ≤ vec_capacity ends.old }
    ensures lock { IsSeatOf lock.now result }
    ensures parts { (knows result).parts ≡ (knows seat).parts + vec_len slots }
    ensures capacity { vec_capacity ends.new ≡ vec_capacity ends.old }
    ensures len { vec_len ends.new ≡ vec_len slots }
    ensures joined { (clock left : Option ℕ) (workers : List (Worker S))
        → AreEach (λ worker slot. IsSomeAnd slot.seat (λ s. IsSomeAnd slot.end (HasWorked S.source R.meaning clock left (opening lock.now).opening worker (knows s)))) workers slots.items
        → HasJoined S.source R.meaning clock left (opening lock.now).opening last (knows result) workers ends.new.items }
{
    let mut slots = slots;
    match slots.pop() {
        Some(slot) => {
            let all = gather(lock, seat, last, slots, ends);
            let Slot { seat, worker, end } = slot;
            let Some(seat) = seat else { unreachable!() };
            let None = worker else { unreachable!() };
            let Some(end) = end else { unreachable!() };
            ends.push_reserved(end);
            lock.join(all, seat)
        }
        None => {
            slots.destroy_empty();
            seat
        }
    }
}

// The part of the worker in a slot.
fn work_at<T: Wait, D: Disk, R: Rules, S: Source, C: Clock, G: Gate>(
    rt: &T,
    rules: &R,
    lock: &BookLock<Locked<D, R>>,
    slot: &mut Slot<Locked<D, R>, S>,
    outside: &Outside<'_, C, G>,
    counts: &Counts,
)
    requires worker { slot.old.worker ≢ None }
    requires unended { slot.old.end ≡ None }
    requires seat { IsSomeAnd slot.old.seat (λ s. IsSeatOf lock.now s × ((knows s).parts ≡ 1) × IsNew R.meaning (opening lock.now) (knows s)) }
    ensures { IfSome slot.old.worker (λ worker. IsSomeAnd slot.new.seat (λ s. IsSeatOf lock.now s × ((knows s).parts ≡ 1)
        × IsSomeAnd slot.new.end (HasWorked S.source R.meaning (C.told outside.now.clock.now) outside.now.left (opening lock.now).opening worker (knows s)))) × (slot.new.worker ≡ None) }
{
    let Some(seat) = slot.seat.take() else {
        unreachable!()
    };
    let Some(worker) = slot.worker.take() else {
        unreachable!()
    };
    counts.began.fetch_add(1, Ordering::SeqCst);
    let (seat, end) = worker_part(rt, rules, lock, seat, worker, outside);
    counts.ended.fetch_add(1, Ordering::SeqCst);
    let before = slot.seat.replace(seat);
    let None = before else { unreachable!() };
    let before = slot.end.replace(end);
    let None = before else { unreachable!() };
}

// The part of who waits for the workers.
fn wait_at<T: Wait, D: Disk, R: Rules, K: Source, C: Clock, G: Gate>(
    rt: &T,
    lock: &BookLock<Locked<D, R>>,
    waiter: &mut Waiter<Locked<D, R>>,
    control: &mut K,
    outside: &Outside<'_, C, G>,
    counts: &Counts,
)
    requires seat { IsSomeAnd waiter.old.seat (λ s. IsSeatOf lock.now s × IsNew R.meaning (opening lock.now) (knows s)) }
    ensures waited { IfSome waiter.old.seat (λ old. IsSomeAnd waiter.new.seat (λ s. IsSeatOf lock.now s × ((knows s).parts ≡ (knows old).parts)
        × IsSomeAnd waiter.new.why (HasEnded R.meaning (λ s step. ⊥) None WaiterEnds (opening lock.now).opening (knows s) []))) }
    ensures control { GoesOn (K.source control.old) (K.source control.new) }
{
    let Some(seat) = waiter.seat.take() else {
        unreachable!()
    };
    let (seat, why) = caller_part(rt, lock, seat, control, outside, counts);
    let before = waiter.seat.replace(seat);
    let None = before else { unreachable!() };
    waiter.why = Some(why);
}

// All workers, and who waits for them.
pub(crate) fn run_all<T, D, R, S, K, C, G>(
    rt: &T,
    rules: &R,
    lock: &BookLock<Locked<D, R>>,
    slots: &mut [Slot<Locked<D, R>, S>],
    waiter: &mut Waiter<Locked<D, R>>,
    control: &mut K,
    outside: &Outside<'_, C, G>,
)
where
    T: Threads + Wait + Sync,
    D: Disk + Send,
    R: Rules + Send + Sync,
    R::Plan: Send,
    R::Work: Send,
    S: Source + Send,
    K: Source,
    C: Clock + Sync,
    G: Gate + Sync,
    requires worker { (i : ℕ) (d : _) → i < length slots.old → (slice_index_or slots.old i d).worker ≢ None }
    requires unended { (i : ℕ) (d : _) → i < length slots.old → (slice_index_or slots.old i d).end ≡ None }
    requires seat { (i : ℕ) (d : _) → i < length slots.old → IsSomeAnd (slice_index_or slots.old i d).seat (λ s. IsSeatOf lock.now s × ((knows s).parts ≡ 1) × IsNew R.meaning (opening lock.now) (knows s)) }
    requires waiter { IsSomeAnd waiter.old.seat (λ s. IsSeatOf lock.now s × IsNew R.meaning (opening lock.now) (knows s)) }
    ensures worked { (i : ℕ) (d : _) → i < length slots.old → IfSome (slice_index_or slots.old i d).worker (λ worker. IsSomeAnd (slice_index_or slots.new i d).seat (λ s. IsSeatOf lock.now s × ((knows s).parts ≡ 1)
        × IsSomeAnd (slice_index_or slots.new i d).end (HasWorked S.source R.meaning (C.told outside.now.clock.now) outside.now.left (opening lock.now).opening worker (knows s)))) × ((slice_index_or slots.new i d).worker ≡ None) }
    ensures waited { IfSome waiter.old.seat (λ old. IsSomeAnd waiter.new.seat (λ s. IsSeatOf lock.now s × ((knows s).parts ≡ (knows old).parts)
        × IsSomeAnd waiter.new.why (HasEnded R.meaning (λ s step. ⊥) None WaiterEnds (opening lock.now).opening (knows s) []))) }
    ensures control { GoesOn (K.source control.old) (K.source control.new) }
{
    let counts = Counts {
        all: slots.len(),
        began: AtomicU64::new(0),
        ended: AtomicU64::new(0),
    };
    run_both(rt, rules, lock, outside, &counts, slots, waiter, control);
}

// The workers on threads, and who waits for them on this one. All that the two are lent is a parameter.
fn run_both<T, D, R, S, K, C, G>(
    rt: &T,
    rules: &R,
    lock: &BookLock<Locked<D, R>>,
    outside: &Outside<'_, C, G>,
    counts: &Counts,
    slots: &mut [Slot<Locked<D, R>, S>],
    waiter: &mut Waiter<Locked<D, R>>,
    control: &mut K,
)
where
    T: Threads + Wait + Sync,
    D: Disk + Send,
    R: Rules + Send + Sync,
    R::Plan: Send,
    R::Work: Send,
    S: Source + Send,
    K: Source,
    C: Clock + Sync,
    G: Gate + Sync,
    requires worker { (i : ℕ) (d : _) → i < length slots.old → (slice_index_or slots.old i d).worker ≢ None }
    requires unended { (i : ℕ) (d : _) → i < length slots.old → (slice_index_or slots.old i d).end ≡ None }
    requires seat { (i : ℕ) (d : _) → i < length slots.old → IsSomeAnd (slice_index_or slots.old i d).seat (λ s. IsSeatOf lock.now s × ((knows s).parts ≡ 1) × IsNew R.meaning (opening lock.now) (knows s)) }
    requires waiter { IsSomeAnd waiter.old.seat (λ s. IsSeatOf lock.now s × IsNew R.meaning (opening lock.now) (knows s)) }
    ensures worked { (i : ℕ) (d : _) → i < length slots.old → IfSome (slice_index_or slots.old i d).worker (λ worker. IsSomeAnd (slice_index_or slots.new i d).seat (λ s. IsSeatOf lock.now s × ((knows s).parts ≡ 1)
        × IsSomeAnd (slice_index_or slots.new i d).end (HasWorked S.source R.meaning (C.told outside.now.clock.now) outside.now.left (opening lock.now).opening worker (knows s)))) × ((slice_index_or slots.new i d).worker ≡ None) }
    ensures waited { IfSome waiter.old.seat (λ old. IsSomeAnd waiter.new.seat (λ s. IsSeatOf lock.now s × ((knows s).parts ≡ (knows old).parts)
        × IsSomeAnd waiter.new.why (HasEnded R.meaning (λ s step. ⊥) None WaiterEnds (opening lock.now).opening (knows s) []))) }
    ensures control { GoesOn (K.source control.old) (K.source control.new) }
{
    call_each_beside(
        rt,
        &|_: usize, slot: &mut Slot<Locked<D, R>, S>|
            requires { (slot.old.worker ≢ None) × (slot.old.end ≡ None) × IsSomeAnd slot.old.seat (λ s. IsSeatOf lock.now s × ((knows s).parts ≡ 1) × IsNew R.meaning (opening lock.now) (knows s)) }
            ensures { IfSome slot.old.worker (λ worker. IsSomeAnd slot.new.seat (λ s. IsSeatOf lock.entry.now s × ((knows s).parts ≡ 1)
                × IsSomeAnd slot.new.end (HasWorked S.source R.meaning (C.told outside.entry.now.clock.now) outside.entry.now.left (opening lock.entry.now).opening worker (knows s)))) × (slot.new.worker ≡ None) }
        { work_at(rt, rules, lock, slot, outside, counts) },
        &|waiter: &mut Waiter<Locked<D, R>>, control: &mut K|
            requires { IsSomeAnd waiter.old.seat (λ s. IsSeatOf lock.now s × IsNew R.meaning (opening lock.now) (knows s)) }
            ensures { IfSome waiter.old.seat (λ old. IsSomeAnd waiter.new.seat (λ s. IsSeatOf lock.entry.now s × ((knows s).parts ≡ (knows old).parts)
                × IsSomeAnd waiter.new.why (HasEnded R.meaning (λ s step. ⊥) None WaiterEnds (opening lock.entry.now).opening (knows s) [])))
                × GoesOn (K.source control.old) (K.source control.new) }
        { wait_at(rt, lock, waiter, control, outside, counts) },
        slots,
        waiter,
        control,
    );
}
