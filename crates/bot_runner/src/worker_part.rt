//! The part of a worker in a round.
ghost use Rattle.std.specs.Prelude.{◌≡◌};
ghost use Rattle.book_lock.specs.Seats.{knows, opening, IsSeatOf};
ghost use Rattle.bot_runner.specs.Parts.{HasWorked, IsNew};

use crate::collector_part::collector_part;
use crate::instance_part::instance_part;
use crate::outside::Outside;
use crate::{Worker, WorkerEnd};
use book_lock::{BookLock, Seat};
use edge_traits::{Clock, Disk, Gate, Source};
use locked_book::Locked;
use std::sync::Wait;
use step_code::Rules;

// The part of this worker. Answers how it ended.
pub(crate) fn worker_part<T: Wait, D: Disk, R: Rules, S: Source, C: Clock, G: Gate>(
    rt: &T,
    rules: &R,
    lock: &BookLock<Locked<D, R>>,
    seat: Seat<Locked<D, R>>,
    worker: Worker<S>,
    outside: &Outside<'_, C, G>,
) -> (Seat<Locked<D, R>>, WorkerEnd<S>)
    requires lock { IsSeatOf lock.now seat }
    requires new { IsNew R.meaning (opening lock.now) (knows seat) }
    ensures lock { IsSeatOf lock.now result.0 }
    ensures parts { (knows result.0).parts ≡ (knows seat).parts }
    ensures worked { HasWorked S.source R.meaning (C.told outside.now.clock.now) outside.now.left (opening lock.now).opening worker (knows result.0) result.1 }
{
    let Worker {
        bot,
        instance,
        feed,
    } = worker;
    match feed {
        None => {
            let (seat, steps, why) = instance_part(rt, rules, lock, seat, bot, instance, outside);
            let worker = Worker {
                bot,
                instance,
                feed: None,
            };
            (
                seat,
                WorkerEnd {
                    steps,
                    why,
                    worker: Some(worker),
                },
            )
        }
        Some(feed) => {
            let (seat, feed, steps, why) = collector_part(rt, lock, seat, bot, feed, outside);
            let worker = Worker {
                bot,
                instance,
                feed: Some(feed),
            };
            (
                seat,
                WorkerEnd {
                    steps,
                    why,
                    worker: Some(worker),
                },
            )
        }
    }
}
