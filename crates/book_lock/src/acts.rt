//! The steps on a lock's table, and what each of them tells.
ghost use Rattle.book_lock.specs.Lock.{Claimed, Looked, Raised, Released, fewer, merged, newcomer, spent};

use crate::grows::Grows;
use crate::view::View;
use atomic_table::{Join, Play, Split};

/// The turn is taken, if it is free.
pub struct Claim;

impl<V: Grows> Play<Option<V>, View<V::Entry>> for Claim {
    ghost then = { Claimed V.entries };
}

/// The count of entries becomes that of the value that is given back.
pub struct Raise;

impl<V: Grows> Play<Option<V>, View<V::Entry>> for Raise {
    ghost then = { Raised V.entries };
}

/// The turn is free again.
pub struct Release;

impl<V: Grows> Play<Option<V>, View<V::Entry>> for Release {
    ghost then = { Released V.entries };
}

/// Nothing changes: what holds of a seat is told.
pub struct Look;

impl<V: Grows> Play<Option<V>, View<V::Entry>> for Look {
    ghost then = { Looked V.entries };
}

/// A seat gives a part to a new one.
pub struct Part;

impl<E> Split<View<E>> for Part {
    ghost left = { fewer };

    ghost right = { newcomer };
}

/// A seat takes another one in.
pub struct Unite;

impl<E> Join<View<E>> for Unite {
    ghost both = { merged };

    ghost spent = { spent };
}
