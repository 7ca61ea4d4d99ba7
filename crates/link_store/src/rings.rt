//! Slots are joined out of rings and into them.
ghost use Rattle.std.specs.Prelude.{◌≡◌, ◌≢◌, ◌<◌, ◌+◌, ◌^◌, ℕ, List, [], ◌∷◌, ◌++◌, length, slice_set};
ghost use Rattle.link_store.specs.Slots.{nexts, prevs, rings, cells};
ghost use Rattle.base_types.specs.Lists.{IsIn};
ghost use Rattle.link_store.specs.Rings.{AreRings, IsAdded, IsRemoved, IsShifted, at, ring_of};

use crate::slots::{Slot, join, next_of, prev_of, set_ring};

/// Joins a slot out of its ring.
fn detach<T>(slots: &mut [Slot<T>], heads: &[usize], lens: &mut [usize], j: usize, x: usize)
    requires kept { AreRings (nexts slots.old) (prevs slots.old) (rings slots.old) heads.now lens.old (length (nexts slots.old)) }
    requires there { j < length heads.now }
    requires stands { IsIn x (ring_of (nexts slots.old) heads.now lens.old j) }
    ensures removed { (ps qs : List ℕ) → ring_of (nexts slots.old) heads.now lens.old j ≡ ps ++ x ∷ qs
        → IsRemoved (nexts slots.old) (prevs slots.old) (rings slots.old) heads.now lens.old j x ps qs (nexts slots.new) (prevs slots.new) lens.new }
    ensures rings { rings slots.new ≡ rings slots.old }
    ensures cells { cells slots.new ≡ cells slots.old }
{
    let before = prev_of(slots, x);
    let behind = next_of(slots, x);
    join(slots, before, behind);
    lens[j] -= 1;
}

/// Joins a slot that is in no ring in at the end of a ring.
pub fn attach_last<T>(
    slots: &mut [Slot<T>],
    heads: &[usize],
    lens: &mut [usize],
    j: usize,
    x: usize,
)
    requires kept { AreRings (nexts slots.old) (prevs slots.old) (rings slots.old) heads.now lens.old x }
    requires there { j < length heads.now }
    requires slot { x < length slots.old }
    requires few { length slots.old < 2 ^ 63 }
    ensures added { IsAdded (nexts slots.old) (prevs slots.old) (rings slots.old) heads.now lens.old j (ring_of (nexts slots.old) heads.now lens.old j ++ x ∷ [])
        (nexts slots.new) (prevs slots.new) (rings slots.new) lens.new }
    ensures cells { cells slots.new ≡ cells slots.old }
{
    let head = heads[j];
    let before = prev_of(slots, head);
    join(slots, before, x);
    join(slots, x, head);
    set_ring(slots, x, j);
    lens[j] += 1;
}

/// Joins a slot that is in no ring in at the front of a ring.
fn attach_first<T>(slots: &mut [Slot<T>], heads: &[usize], lens: &mut [usize], j: usize, x: usize)
    requires kept { AreRings (nexts slots.old) (prevs slots.old) (rings slots.old) heads.now lens.old x }
    requires there { j < length heads.now }
    requires slot { x < length slots.old }
    requires few { length slots.old < 2 ^ 63 }
    ensures added { IsAdded (nexts slots.old) (prevs slots.old) (rings slots.old) heads.now lens.old j (x ∷ ring_of (nexts slots.old) heads.now lens.old j)
        (nexts slots.new) (prevs slots.new) (rings slots.new) lens.new }
    ensures cells { cells slots.new ≡ cells slots.old }
{
    let head = heads[j];
    let behind = next_of(slots, head);
    join(slots, x, behind);
    join(slots, head, x);
    set_ring(slots, x, j);
    lens[j] += 1;
}

/// Moves a slot from its ring to the end of another.
pub fn shift_last<T>(
    slots: &mut [Slot<T>],
    heads: &[usize],
    lens: &mut [usize],
    x: usize,
    from: usize,
    to: usize,
)
    requires kept { AreRings (nexts slots.old) (prevs slots.old) (rings slots.old) heads.now lens.old (length (nexts slots.old)) }
    requires from { from < length heads.now }
    requires to { to < length heads.now }
    requires differ { from ≢ to }
    requires stands { IsIn x (ring_of (nexts slots.old) heads.now lens.old from) }
    requires few { length slots.old < 2 ^ 63 }
    ensures shifted { (ps qs : List ℕ) → ring_of (nexts slots.old) heads.now lens.old from ≡ ps ++ x ∷ qs
        → IsShifted (nexts slots.old) heads.now lens.old from to (ps ++ qs) (ring_of (nexts slots.old) heads.now lens.old to ++ x ∷ []) (nexts slots.new) (prevs slots.new) (rings slots.new) lens.new }
    ensures cells { cells slots.new ≡ cells slots.old }
{
    detach(slots, heads, lens, from, x);
    attach_last(slots, heads, lens, to, x);
}

/// Moves a slot from its ring to the front of another.
pub fn shift_first<T>(
    slots: &mut [Slot<T>],
    heads: &[usize],
    lens: &mut [usize],
    x: usize,
    from: usize,
    to: usize,
)
    requires kept { AreRings (nexts slots.old) (prevs slots.old) (rings slots.old) heads.now lens.old (length (nexts slots.old)) }
    requires from { from < length heads.now }
    requires to { to < length heads.now }
    requires differ { from ≢ to }
    requires stands { IsIn x (ring_of (nexts slots.old) heads.now lens.old from) }
    requires few { length slots.old < 2 ^ 63 }
    ensures shifted { (ps qs : List ℕ) → ring_of (nexts slots.old) heads.now lens.old from ≡ ps ++ x ∷ qs
        → IsShifted (nexts slots.old) heads.now lens.old from to (ps ++ qs) (x ∷ ring_of (nexts slots.old) heads.now lens.old to) (nexts slots.new) (prevs slots.new) (rings slots.new) lens.new }
    ensures cells { cells slots.new ≡ cells slots.old }
{
    detach(slots, heads, lens, from, x);
    attach_first(slots, heads, lens, to, x);
}
