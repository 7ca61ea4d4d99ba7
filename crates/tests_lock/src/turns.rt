//! Seats that take turns.
ghost use Rattle.std.specs.Prelude.{◌≡◌};
ghost use Rattle.book_lock.specs.Seats.{knows, IsSeatOf};

use crate::numbers::Numbers;
use book_lock::{BookLock, Busy, Seat};
use std::process::Abort;

// A lock over the list of 5, split in two seats: each adds a number in a turn of its own, while the other finds the turn taken. Joined
// again they close the lock.
#[test]
fn two_seats_add_a_number_each(rt: HostRuntime) {
    let mut list = Vec::new(rt.alloc());
    list.push(5).expect(&rt, "memory");
    let Ok((lock, seat)) = BookLock::start(rt.alloc(), Numbers { list }) else {
        panic!(&rt; "memory")
    };
    assert!(&rt; seat.parts() == 4_294_967_296, "a first seat has all parts");
    let (one, two) = lock.split(seat);
    assert!(&rt; one.parts() == 4_294_967_295, "it gave one away");
    assert!(&rt; two.parts() == 1, "a new seat has one part");
    let mut held = lock.lock(&rt, one);
    held.value().add(6).expect(&rt, "memory");
    let mut was_busy = false;
    let two = match lock.try_lock(two) {
        Err(Busy { seat }) => {
            was_busy = true;
            seat
        }
        Ok(other) => BookLock::unlock(other),
    };
    assert!(&rt; was_busy, "the turn was taken");
    let one = BookLock::unlock(held);
    let mut held = lock.lock(&rt, two);
    held.value().add(7).expect(&rt, "memory");
    let two = BookLock::unlock(held);
    let all = lock.join(one, two);
    assert!(&rt; all.parts() == 4_294_967_296, "all parts are back");
    let numbers = lock.close(all);
    assert!(&rt;
        numbers.list.as_slice() == [5, 6, 7].as_slice(),
        "both numbers stand behind the first"
    );
}

// Takes the turn and gives it back. Answers whether it was free.
fn take_turn(lock: &BookLock<Numbers>, seat: Seat<Numbers>) -> (Seat<Numbers>, bool)
    requires { IsSeatOf lock.now seat }
    ensures lock { IsSeatOf lock.now result.0 }
    ensures parts { (knows result.0).parts ≡ (knows seat).parts }
{
    match lock.try_lock(seat) {
        Ok(held) => (BookLock::unlock(held), true),
        Err(Busy { seat: back }) => (back, false),
    }
}

// A free turn is taken without waiting, and again once it was given back.
#[test]
fn free_turns_are_taken(rt: HostRuntime) {
    let list = Vec::new(rt.alloc());
    let Ok((lock, seat)) = BookLock::start(rt.alloc(), Numbers { list }) else {
        panic!(&rt; "memory")
    };
    let (seat, was_free) = take_turn(&lock, seat);
    assert!(&rt; was_free, "nobody else has a seat");
    let (seat, was_free) = take_turn(&lock, seat);
    assert!(&rt; was_free, "the turn was given back");
    let numbers = lock.close(seat);
    assert!(&rt; numbers.list.is_empty(), "nothing was added");
}
