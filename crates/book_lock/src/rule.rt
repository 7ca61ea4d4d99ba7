use crate::grows::Grows;
use crate::view::View;
use atomic_table::TableRule;
use std::marker::PhantomData;
use std::snapshot::Snapshot;

/// What holds between any two steps on a lock. Its table has two words, whether the turn is taken and how many entries the list has,
/// and a slot, in which the value is at home.
pub struct Turns<V> {
    marker: PhantomData<V>,
}

impl<V: Grows> TableRule<Option<V>, View<V::Entry>, Snapshot<V>> for Turns<V> {
    ghost use Rattle.std.specs.Prelude.{length};
    ghost use Rattle.book_lock.specs.Lock.{Kept, opening_view};

    ghost holds = { λ key. Kept V.entries (length (V.entries key.value)) };

    ghost first = { λ key. opening_view (V.entries key.value) };
}
