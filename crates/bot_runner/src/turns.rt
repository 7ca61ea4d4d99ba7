//! The turn for a worker, and its rests between looks.
ghost use Rattle.std.specs.Prelude.{◌≡◌};
ghost use mathlib.Core.List.{IsPrefix};
ghost use Rattle.book_lock.specs.Lock.{AllAt};
ghost use Rattle.book_lock.specs.Seats.{knows, knew, found, IsSeatOf, IsTurnOf};

use book_lock::{BookLock, Busy, Grows, Held, Seat};
use edge_traits::Gate;
use std::sync::Wait;

// How often a worker that finds the turn taken tries again at once, before it rests.
const TRIES: u32 = 20;

// How many rests in a row are short.
const SHORT_RESTS: u32 = 20;

// Rests behind so many looks in a row that found nothing; where nothing is left to do at all, only so that others go first.
pub(crate) fn rest_behind<G: Gate>(gate: &G, looks: u32, idle: bool) {
    if idle {
        gate.rest(0);
    } else if looks < SHORT_RESTS {
        gate.pause();
    } else {
        gate.rest(1);
    }
}

// Takes the turn as soon as it is free: it tries some times, and then rests between its tries.
pub(crate) fn take_turn<'l, T: Wait, V: Grows, G: Gate>(
    rt: &T,
    lock: &'l BookLock<V>,
    seat: Seat<V>,
    gate: &G,
) -> Held<'l, V>
    requires lock { IsSeatOf lock.now seat }
    ensures turn { IsTurnOf lock.now result × (knew result ≡ knows seat) × (found result ≡ V.entries result.value) }
    ensures seen { IsPrefix (knows seat).seen (found result) }
    ensures mine { AllAt (found result) (knows seat).mine }
{
    let mut seat = seat;
    let mut tries = 0u32;
    'tries: for _ in rt.forever() {
        match lock.try_lock(seat) {
            Ok(held) => return held,
            Err(Busy { seat: back }) => seat = back,
        }
        tries = tries.saturating_add(1);
        if tries < TRIES {
            gate.rest(0);
        } else {
            gate.pause();
        }
    }
    unreachable!()
}
