//! The lock, its seats, and the turn.
ghost use Rattle.std.specs.Prelude.{◌≡◌, ◌<◌, ◌+◌, [], ◌∷◌, true, false, None, length, IfOk, IfErr};
ghost use mathlib.Core.List.{IsPrefix};
ghost use Rattle.book_lock.specs.Lock.{AllAt, AreApart, AreAllFrom};

use crate::acts::{Claim, Look, Part, Raise, Release, Unite};
use crate::grows::Grows;
use crate::rule::Turns;
use crate::view::View;
use atomic_table::{Refused, Table};
use base_types::OutOfMemory;
use std::alloc::Global;
use std::snapshot::Snapshot;
use std::sync::Wait;
use std::thread;

// How many parts all seats of a lock have together.
const ALL_PARTS: u64 = 4_294_967_296;

/// A lock over a value whose list only grows. One seat at a time has the turn, and with it the value.
pub struct BookLock<V: Grows> {
    table: Table<Option<V>, View<V::Entry>, Snapshot<V>, Turns<V>, Global>,
    ghost sized: { (table.shared.table_id.words ≡ 2) × (table.shared.table_id.slots ≡ 1) },
}

/// The right to ask for the turn. All seats of a lock have 4,294,967,296 parts together, each at least one. A seat can't be dropped:
/// it is joined with another, or closes the lock.
pub struct Seat<V: Grows> {
    pass: atomic_table::Seat<Option<V>, View<V::Entry>>,
    parts: u64,
    ghost idle: { (pass.me.1 ≡ []) × (pass.me.0.has_turn ≡ false) },
    ghost live: { (0 < parts) × (pass.me.0.parts ≡ parts) },
}

/// The turn was taken. The seat is as it was.
pub struct Busy<V: Grows> {
    pub seat: Seat<V>,
}

/// The turn, with the value. It can't be dropped: it is given back.
pub struct Held<'l, V: Grows> {
    lock: &'l BookLock<V>,
    pass: atomic_table::Seat<Option<V>, View<V::Entry>>,
    found: u64,
    parts: u64,
    pub value: V,
    ghost here: { pass.table_id ≡ lock.now.table.shared.table_id },
    ghost out: { (pass.me.1 ≡ (0, None) ∷ []) × (pass.me.0.has_turn ≡ true) × (found ≡ length pass.me.0.list) },
    ghost live: { (0 < parts) × (pass.me.0.parts ≡ parts) },
}

impl<V: Grows> Seat<V> {
    ghost use Rattle.book_lock.specs.Seats.{knows};

    /// How many of the 4,294,967,296 parts the seat has.
    pub fn parts(&self) -> u64
        ensures { result ≡ (knows self.now).parts }
    {
        self.parts
    }
}

impl<V: Grows> BookLock<V> {
    ghost use Rattle.book_lock.specs.Seats.{knows, knew, found, grown, lessened, begun, together, opening, IsSeatOf, IsTurnOf};

    /// A lock over this value, and its first seat, which has every part.
    ///
    /// # Errors
    ///
    /// `OutOfMemory`, with the value.
    pub fn start(alloc: Global, value: V) -> Result<(BookLock<V>, Seat<V>), (OutOfMemory, V)>
        ensures ok { IfOk result (λ l. IsSeatOf l.0 l.1 × (opening l.0 ≡ value) × (knows l.1 ≡ record { parts = 4294967296; seen = V.entries value; mine = [] })) }
        ensures err { IfErr result (λ e. e.1 ≡ value) }
    {
        let Ok(mut slots) = Vec::with_capacity(alloc, 1) else {
            return Err((OutOfMemory, value));
        };
        let about = Snapshot::of(&value);
        let count = value.count();
        slots.push_reserved(Some(value));
        match Table::new(alloc, &[0, count], slots, &about) {
            Ok((table, pass)) => Ok((
                BookLock { table },
                Seat {
                    pass,
                    parts: ALL_PARTS,
                },
            )),
            Err(Refused { mut slots }) => {
                let Some(Some(value)) = slots.pop() else {
                    unreachable!()
                };
                slots.destroy_empty();
                Err((OutOfMemory, value))
            }
        }
    }

    /// Takes the turn, and the value, if it is free. It takes no memory. The list begins with what the seat has seen, and has its
    /// entries at their positions.
    ///
    /// # Errors
    ///
    /// `Busy`, with the seat.
    pub fn try_lock(&self, seat: Seat<V>) -> Result<Held<'_, V>, Busy<V>>
        requires { IsSeatOf self.now seat }
        ensures turn { IfOk result (λ held. IsTurnOf self.now held × (knew held ≡ knows seat) × (found held ≡ V.entries held.value)) }
        ensures seen { IfOk result (λ held. IsPrefix (knows seat).seen (found held)) }
        ensures mine { IfOk result (λ held. AllAt (found held) (knows seat).mine) }
        ensures busy { IfErr result (λ busy. IsSeatOf self.now busy.seat × (knows busy.seat ≡ knows seat)) }
    {
        let Seat { mut pass, parts } = seat;
        let shared = &self.table.shared;
        if shared.compare_exchange::<Claim>(&mut pass, 0, 0, 1) != 0 {
            return Err(Busy {
                seat: Seat { pass, parts },
            });
        }
        let value = shared.exchange(&mut pass, 0, None).unwrap();
        let found = value.count();
        Ok(Held {
            lock: self,
            pass,
            found,
            parts,
            value,
        })
    }

    /// Takes the turn as soon as it is free: it tries again and again, and lets other threads go on in between.
    pub fn lock<R: Wait>(&self, rt: &R, seat: Seat<V>) -> Held<'_, V>
        requires { IsSeatOf self.now seat }
        ensures turn { IsTurnOf self.now result × (knew result ≡ knows seat) × (found result ≡ V.entries result.value) }
        ensures seen { IsPrefix (knows seat).seen (found result) }
        ensures mine { AllAt (found result) (knows seat).mine }
    {
        let mut seat = seat;
        'tries: for _ in rt.forever() {
            match self.try_lock(seat) {
                Ok(held) => return held,
                Err(busy) => {
                    let Busy { seat: back } = busy;
                    seat = back;
                }
            }
            thread::yield_now();
        }
        unreachable!()
    }

    /// Gives the turn back, and the value, whose list begins with the one that was found. The seat has seen all of it then, and what
    /// was added counts as its own. It takes no memory.
    pub fn unlock(held: Held<'_, V>) -> Seat<V>
        requires { IsPrefix (found held) (V.entries held.value) }
        ensures lock { IsTurnOf held.entry.lock.now held.entry → IsSeatOf held.entry.lock.now result }
        ensures seat { knows result ≡ grown (knew held.entry) (found held.entry) (V.entries held.entry.value) }
    {
        let Held {
            lock,
            mut pass,
            found,
            parts,
            value,
        } = held;
        let shared = &lock.table.shared;
        let count = value.count();
        let slot = Some(value);
        shared.compare_exchange_with::<Raise>(&mut pass, 1, found, count, &slot);
        let nothing = shared.exchange(&mut pass, 0, slot);
        let None = nothing else { unreachable!() };
        shared.store::<Release>(&mut pass, 0, 0);
        Seat { pass, parts }
    }

    /// Gives one part to a new seat, which has seen what this one has seen. It takes no memory.
    pub fn split(&self, seat: Seat<V>) -> (Seat<V>, Seat<V>)
        requires lock { IsSeatOf self.now seat }
        requires parts { 1 < (knows seat).parts }
        ensures lock { IsSeatOf self.now result.0 × IsSeatOf self.now result.1 }
        ensures left { knows result.0 ≡ lessened (knows seat) }
        ensures new { knows result.1 ≡ begun (knows seat) }
    {
        let Seat { mut pass, parts } = seat;
        let new = self.table.shared.split_seat::<Part>(&mut pass);
        (
            Seat {
                pass,
                parts: parts - 1,
            },
            Seat {
                pass: new,
                parts: 1,
            },
        )
    }

    /// Puts two seats together: their parts, and the entries that they added. Each of the two has seen a beginning of what the one has
    /// seen that is left. It takes no memory.
    pub fn join(&self, a: Seat<V>, b: Seat<V>) -> Seat<V>
        requires first { IsSeatOf self.now a }
        requires second { IsSeatOf self.now b }
        ensures lock { IsSeatOf self.now result }
        ensures both { knows result ≡ together (knows a) (knows b) }
        ensures apart { AreApart (knows result).mine }
        ensures seen { IsPrefix (knows a).seen (knows result).seen × IsPrefix (knows b).seen (knows result).seen }
    {
        let Seat { mut pass, parts } = a;
        let Seat {
            pass: other,
            parts: more,
        } = b;
        let shared = &self.table.shared;
        shared.join_seat::<Unite>(&mut pass, other);
        shared.load::<Look>(&mut pass, 0);
        Seat {
            pass,
            parts: parts + more,
        }
    }

    /// The value, once every other seat was taken in. Each entry behind those of the opening value is one that a seat added, once.
    pub fn close(self, seat: Seat<V>) -> V
        requires lock { IsSeatOf self seat }
        requires parts { (knows seat).parts ≡ 4294967296 }
        ensures seen { IsPrefix (knows seat).seen (V.entries result) }
        ensures mine { AllAt (V.entries result) (knows seat).mine }
        ensures all { AreAllFrom (length (V.entries (opening self))) (length (V.entries result)) (knows seat).mine }
    {
        let BookLock { table } = self;
        let Seat { pass, parts: _ } = seat;
        let mut closed = table.close_with(pass);
        let Some(value) = closed.take(0) else {
            unreachable!()
        };
        closed.free();
        value
    }
}
