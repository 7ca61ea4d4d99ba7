//! A round of all workers.
ghost use Rattle.std.specs.Prelude.{◌≡◌, ◌<◌, ◌≤◌, ◌+◌, ◌≢◌, ℕ, Option, List, [], false, None, IfOk, IfErr, IsSomeAnd, length, vec_len, vec_capacity};
ghost use Rattle.std.specs.List.{AllByRecursion};
ghost use Rattle.book_lock.specs.Seats.{knows, opening, IsSeatOf};
ghost use Rattle.collector_feeds.specs.Open.{GoesOn};
ghost use Rattle.bot_runner.specs.Round.{HasRun, WaiterEnds};
ghost use Rattle.bot_runner.specs.Parts.{AreEach, HasEnded, HasWorked};
ghost use Rattle.bot_runner.specs.declared.worker.Worker.{Worker};

use crate::outside::Outside;
use crate::slots::{Slot, Waiter, fill, gather, run_all};
use crate::{RoundEnd, Until, Why, Worker, WorkerEnd};
use base_types::OutOfMemory;
use book_lock::{BookLock, Seat};
use edge_traits::{Clock, Disk, Gate, Source};
use journal_book::Book;
use locked_book::Locked;
use std::alloc::Global;
use std::sync::Wait;
use std::thread::Threads;
use step_code::Rules;

/// Runs all workers until each of them has nothing to do or has to end: each on a thread of its own, or one after the other where no thread
/// can be made. At most so many steps are made as are left, and where control grows the round ends.
///
/// # Errors
///
/// `OutOfMemory`, before the first step, with the book and the workers.
pub fn run_round<T, D, R, S, K, C, G>(
    rt: &T,
    alloc: Global,
    rules: &R,
    book: Book<D, R>,
    workers: Vec<Worker<S>>,
    control: &mut K,
    clock: &C,
    gate: &G,
    until: Until,
) -> Result<RoundEnd<D, R, S>, (OutOfMemory, Book<D, R>, Vec<Worker<S>>)>
where
    T: Threads + Wait + Sync,
    D: Disk + Send,
    R: Rules + Send + Sync,
    R::Plan: Send,
    R::Work: Send,
    S: Source + Send,
    K: Source,
    C: Clock + Sync,
    G: Gate + Sync,
    requires whole { book.broken ≡ false }
    requires few { length workers.items < 4294967296 }
    ensures ok { IfOk result (λ r. HasRun D.disk S.source R.meaning (C.told clock.now) until.left book r.book workers.items r.ends.items) }
    ensures err { IfErr result (λ e. (e.1 ≡ book) × (e.2.items ≡ workers.items)) }
    ensures control { GoesOn (K.source control.old) (K.source control.new) }
{
    let count = workers.len();
    let Ok(mut slots) = Vec::with_capacity(alloc, count) else {
        return Err((OutOfMemory, book, workers));
    };
    let Ok(ends) = Vec::with_capacity(alloc, count + 1) else {
        slots.destroy_empty();
        return Err((OutOfMemory, book, workers));
    };
    let (lock, seat) = match BookLock::start(alloc, Locked::open(book)) {
        Ok(made) => made,
        Err((OutOfMemory, locked)) => {
            slots.destroy_empty();
            ends.destroy_empty();
            return Err((OutOfMemory, locked.into_book(), workers));
        }
    };
    let outside = Outside {
        alloc,
        clock,
        gate,
        left: until.left,
        control: until.control,
    };
    let seat = fill(&lock, seat, workers, &mut slots);
    let mut waiter = Waiter {
        seat: Some(seat),
        why: None,
    };
    run_all(
        rt,
        rules,
        &lock,
        slots.as_mut_slice(),
        &mut waiter,
        control,
        &outside,
    );
    let Waiter { seat, why } = waiter;
    let Some(seat) = seat else { unreachable!() };
    let Some(why) = why else { unreachable!() };
    Ok(finish(alloc, lock, seat, why, slots, ends))
}

// Joins all seats, and closes the lock.
fn finish<D: Disk, R: Rules, S: Source>(
    alloc: Global,
    lock: BookLock<Locked<D, R>>,
    seat: Seat<Locked<D, R>>,
    last: Why,
    slots: Vec<Slot<Locked<D, R>, S>>,
    ends: Vec<WorkerEnd<S>>,
) -> RoundEnd<D, R, S>
    requires lock { IsSeatOf lock seat }
    requires parts { (knows seat).parts + vec_len slots ≡ 4294967296 }
    requires begun { opening lock ≡ record { opening = (opening lock).opening; made = []; book = (opening lock).opening; mark = None } }
    requires waited { HasEnded R.meaning (λ s step. ⊥) None WaiterEnds (opening lock).opening (knows seat) [] last }
    requires each { AllByRecursion (λ slot. IsSomeAnd slot.seat (λ s. IsSeatOf lock s × ((knows s).parts ≡ 1)) × (slot.worker ≡ None) × (slot.end ≢ None)) slots.items }
    requires empty { ends.items ≡ [] }
    requires room { vec_len slots < vec_capacity ends }
    ensures { (clock left : Option ℕ) (workers : List (Worker S))
        → AreEach (λ worker slot. IsSomeAnd slot.seat (λ s. IsSomeAnd slot.end (HasWorked S.source R.meaning clock left (opening lock).opening worker (knows s)))) workers slots.items
        → HasRun D.disk S.source R.meaning clock left (opening lock).opening result.book workers result.ends.items }
{
    let mut ends = ends;
    let seat = gather(&lock, seat, last, slots, &mut ends);
    ends.push_reserved(WorkerEnd {
        steps: Vec::new(alloc),
        why: last,
        worker: None,
    });
    let book = lock.close(seat).into_book();
    RoundEnd { book, ends }
}
