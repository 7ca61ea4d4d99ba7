//! Items are moved from ring to ring.
ghost use Rattle.std.specs.Prelude.{◌≡◌, ◌≢◌, ◌<◌, ◌+◌, ℕ, List, [], ◌∷◌, length, get_or, IfNone, IfSome, IsSome, ◌↔◌};
ghost use Rattle.link_store.specs.Links.{with_last};
ghost use Rattle.link_store.specs.Slots.{nexts, cells};
ghost use Rattle.link_store.specs.Rings.{at, ring_of};
ghost use Rattle.link_store.specs.Kept.{AreLinked, AreNumbered, HoldsNode, IsCut, IsPassed, IsPassedBack, IsTaken, held_item, lists_in};

use crate::node::Node;
use crate::rings::{shift_first, shift_last};
use crate::slots::{Held, Slot, holds, next_of, put_value, ring_named, take_value};

/// The first slot of a ring.
fn first_of<T>(slots: &[Slot<T>], heads: &[usize], lens: &[usize], from: usize) -> Option<usize>
    requires linked { AreLinked slots.now heads.now lens.now }
    requires there { from < length heads.now }
    ensures none { IfNone result (ring_of (nexts slots.now) heads.now lens.now from ≡ []) }
    ensures some { IsSome result ↔ (0 < at lens.now from) }
    ensures first { IfSome result (λ x. (qs : List ℕ) × (ring_of (nexts slots.now) heads.now lens.now from ≡ x ∷ qs)) }
{
    if lens[from] == 0 {
        return None;
    }
    Some(next_of(slots, heads[from]))
}

/// How many slots are in a ring.
pub fn len_of(lens: &[usize], ring: usize) -> usize
    requires { ring < length lens.now }
    ensures { result ≡ at lens.now ring }
{
    lens[ring]
}

/// The slot that stands before the first one of a ring and behind its last.
pub fn head_of(heads: &[usize], ring: usize) -> usize
    requires { ring < length heads.now }
    ensures { result ≡ at heads.now ring }
{
    heads[ring]
}

/// Takes the first item of a ring off, whose slot is free then.
pub fn pop_first<T>(
    slots: &mut [Slot<T>],
    heads: &[usize],
    lens: &mut [usize],
    from: usize,
) -> Option<T>
    requires linked { AreLinked slots.old heads.now lens.old }
    requires list { 0 < from }
    requires there { from < length heads.now }
    ensures linked { AreLinked slots.new heads.now lens.new }
    ensures lists { IsTaken from (get_or (lists_in slots.old heads.now lens.old) from []) (lists_in slots.old heads.now lens.old) (lists_in slots.new heads.now lens.new) result }
    ensures none { IfNone result (at lens.new 0 ≡ at lens.old 0) }
    ensures some { IfSome result (λ _. at lens.new 0 ≡ at lens.old 0 + 1) }
    ensures numbered { (n : ℕ) → AreNumbered (cells slots.old) n → AreNumbered (cells slots.new) n }
{
    let Some(x) = first_of(slots, heads, lens, from) else {
        return None;
    };
    shift_first(slots, heads, lens, x, from, 0);
    take_value(slots, x)
}

/// Puts an item into a free slot, as the last one of a ring. Answers the slot.
pub fn push_last<T: Drop>(
    slots: &mut [Slot<T>],
    heads: &[usize],
    lens: &mut [usize],
    to: usize,
    held: Held<T>,
) -> usize
    requires linked { AreLinked slots.old heads.now lens.old }
    requires list { 0 < to }
    requires there { to < length heads.now }
    requires spare { 0 < at lens.old 0 }
    ensures linked { AreLinked slots.new heads.now lens.new }
    ensures lists { lists_in slots.new heads.now lens.new ≡ with_last to (held_item result held) (lists_in slots.old heads.now lens.old) }
    ensures spare { at lens.new 0 + 1 ≡ at lens.old 0 }
    ensures numbered { (n : ℕ) → AreNumbered (cells slots.old) n → held.number ≡ n → AreNumbered (cells slots.new) (n + 1) }
{
    let x = first_of(slots, heads, lens, 0).unwrap();
    shift_last(slots, heads, lens, x, 0, to);
    put_value(slots, x, held);
    x
}

/// Moves the first item of a ring to the end of another. Answers whether there is one.
pub fn move_last<T>(
    slots: &mut [Slot<T>],
    heads: &[usize],
    lens: &mut [usize],
    from: usize,
    to: usize,
) -> bool
    requires linked { AreLinked slots.old heads.now lens.old }
    requires from { 0 < from }
    requires to { 0 < to }
    requires from_there { from < length heads.now }
    requires to_there { to < length heads.now }
    requires differ { from ≢ to }
    ensures linked { AreLinked slots.new heads.now lens.new }
    ensures lists { IsPassed from to (get_or (lists_in slots.old heads.now lens.old) from []) (lists_in slots.old heads.now lens.old) (lists_in slots.new heads.now lens.new) result }
    ensures spare { at lens.new 0 ≡ at lens.old 0 }
    ensures cells { cells slots.new ≡ cells slots.old }
{
    let Some(x) = first_of(slots, heads, lens, from) else {
        return false;
    };
    shift_last(slots, heads, lens, x, from, to);
    true
}

/// Moves the first item of a ring to the front of another, or leaves it in the same. Answers whether there is one.
pub fn move_first<T>(
    slots: &mut [Slot<T>],
    heads: &[usize],
    lens: &mut [usize],
    from: usize,
    to: usize,
) -> bool
    requires linked { AreLinked slots.old heads.now lens.old }
    requires from { 0 < from }
    requires to { 0 < to }
    requires from_there { from < length heads.now }
    requires to_there { to < length heads.now }
    ensures linked { AreLinked slots.new heads.now lens.new }
    ensures lists { IsPassedBack from to (get_or (lists_in slots.old heads.now lens.old) from []) (lists_in slots.old heads.now lens.old) (lists_in slots.new heads.now lens.new) result }
    ensures spare { at lens.new 0 ≡ at lens.old 0 }
    ensures cells { cells slots.new ≡ cells slots.old }
{
    let Some(x) = first_of(slots, heads, lens, from) else {
        return false;
    };
    if from != to {
        shift_first(slots, heads, lens, x, from, to);
    }
    true
}

/// Takes the item of a node off, wherever it stands, whose slot is free then. Answers none where the node's item isn't there.
pub fn take_out<T>(
    slots: &mut [Slot<T>],
    heads: &[usize],
    lens: &mut [usize],
    node: Node,
) -> Option<T>
    requires linked { AreLinked slots.old heads.now lens.old }
    ensures linked { AreLinked slots.new heads.now lens.new }
    ensures live { IsSome result ↔ HoldsNode node (cells slots.old) }
    ensures same { IfNone result (lists_in slots.new heads.now lens.new ≡ lists_in slots.old heads.now lens.old) }
    ensures gone { IfSome result (λ value. IsCut node value (lists_in slots.old heads.now lens.old) (lists_in slots.new heads.now lens.new)) }
    ensures none { IfNone result (at lens.new 0 ≡ at lens.old 0) }
    ensures some { IfSome result (λ _. at lens.new 0 ≡ at lens.old 0 + 1) }
    ensures numbered { (n : ℕ) → AreNumbered (cells slots.old) n → AreNumbered (cells slots.new) n }
{
    if !holds(slots, node) {
        return None;
    }
    let ring = ring_named(slots, node.slot);
    shift_first(slots, heads, lens, node.slot, ring, 0);
    take_value(slots, node.slot)
}
