//! The slots that items stand in.
ghost use Rattle.std.specs.Prelude.{◌≡◌, ◌<◌, length, map, slice_set, get_or, None, option_copied, option_map, Some, true, ◌↔◌};
ghost use Rattle.link_store.specs.Slots.{nexts, prevs, rings, cells};
ghost use Rattle.link_store.specs.Rings.{at};
ghost use Rattle.link_store.specs.Kept.{HoldsNode};

use crate::node::Node;

/// What a slot of a list holds: the number of the push, and the value.
#[derive(Debug, Drop)]
pub struct Held<T> {
    pub number: u64,
    pub value: T,
}

/// A place for an item, or the end of a ring: the slots behind it and before it, the number of its ring, and the item.
#[derive(Debug, Drop)]
pub struct Slot<T> {
    pub next: usize,
    pub prev: usize,
    pub ring: usize,
    pub held: Option<Held<T>>,
}

/// The slot behind a slot.
pub fn next_of<T>(slots: &[Slot<T>], k: usize) -> usize
    requires { k < length slots.now }
    ensures { result ≡ at (nexts slots.now) k }
{
    slots[k].next
}

/// The slot before a slot.
pub fn prev_of<T>(slots: &[Slot<T>], k: usize) -> usize
    requires { k < length slots.now }
    ensures { result ≡ at (prevs slots.now) k }
{
    slots[k].prev
}

/// The number of the ring that a slot is in.
pub fn ring_named<T>(slots: &[Slot<T>], k: usize) -> usize
    requires { k < length slots.now }
    ensures { result ≡ at (rings slots.now) k }
{
    slots[k].ring
}

/// The node of the item that a slot holds.
pub fn node_at<T>(slots: &[Slot<T>], k: usize) -> Option<Node>
    requires { k < length slots.now }
    ensures { result ≡ option_map (λ held. record { slot = k; number = held.number }) (get_or (cells slots.now) k None) }
{
    match &slots[k].held {
        Some(held) => Some(Node {
            slot: k,
            number: held.number,
        }),
        None => None,
    }
}

/// The value that a slot holds.
pub fn value_at<T>(slots: &[Slot<T>], k: usize) -> Option<&T>
    requires { k < length slots.now }
    ensures { option_copied result ≡ option_map (λ held. held.value) (get_or (cells slots.now) k None) }
{
    match &slots[k].held {
        Some(held) => Some(&held.value),
        None => None,
    }
}

/// The node of the item behind a slot.
pub fn node_behind<T>(slots: &[Slot<T>], k: usize) -> Option<Node>
    requires slot { k < length slots.now }
    requires behind { at (nexts slots.now) k < length slots.now }
    ensures { result ≡ option_map (λ held. record { slot = at (nexts slots.now) k; number = held.number }) (get_or (cells slots.now) (at (nexts slots.now) k) None) }
{
    node_at(slots, next_of(slots, k))
}

/// The value behind a slot.
pub fn value_behind<T>(slots: &[Slot<T>], k: usize) -> Option<&T>
    requires slot { k < length slots.now }
    requires behind { at (nexts slots.now) k < length slots.now }
    ensures { option_copied result ≡ option_map (λ held. held.value) (get_or (cells slots.now) (at (nexts slots.now) k) None) }
{
    value_at(slots, next_of(slots, k))
}

/// Whether a slot holds the item of the push that a node names.
pub fn holds<T>(slots: &[Slot<T>], node: Node) -> bool
    ensures { (result ≡ true) ↔ HoldsNode node (cells slots.now) }
{
    if node.slot >= slots.len() {
        return false;
    }
    match node_at(slots, node.slot) {
        Some(found) => found.number == node.number,
        None => false,
    }
}

/// Names the ring of a slot.
pub fn set_ring<T>(slots: &mut [Slot<T>], k: usize, j: usize)
    requires { k < length slots.old }
    ensures nexts { nexts slots.new ≡ nexts slots.old }
    ensures prevs { prevs slots.new ≡ prevs slots.old }
    ensures rings { rings slots.new ≡ slice_set (rings slots.old) k j }
    ensures cells { cells slots.new ≡ cells slots.old }
{
    slots[k].ring = j;
}

/// Names the slot behind a slot.
fn set_next<T>(slots: &mut [Slot<T>], a: usize, b: usize)
    requires { a < length slots.old }
    ensures nexts { nexts slots.new ≡ slice_set (nexts slots.old) a b }
    ensures prevs { prevs slots.new ≡ prevs slots.old }
    ensures rings { rings slots.new ≡ rings slots.old }
    ensures cells { cells slots.new ≡ cells slots.old }
{
    slots[a].next = b;
}

/// Names the slot before a slot.
fn set_prev<T>(slots: &mut [Slot<T>], a: usize, b: usize)
    requires { a < length slots.old }
    ensures nexts { nexts slots.new ≡ nexts slots.old }
    ensures prevs { prevs slots.new ≡ slice_set (prevs slots.old) a b }
    ensures rings { rings slots.new ≡ rings slots.old }
    ensures cells { cells slots.new ≡ cells slots.old }
{
    slots[a].prev = b;
}

/// Joins two slots, the second behind the first.
pub fn join<T>(slots: &mut [Slot<T>], a: usize, b: usize)
    requires first { a < length slots.old }
    requires second { b < length slots.old }
    ensures nexts { nexts slots.new ≡ slice_set (nexts slots.old) a b }
    ensures prevs { prevs slots.new ≡ slice_set (prevs slots.old) b a }
    ensures rings { rings slots.new ≡ rings slots.old }
    ensures cells { cells slots.new ≡ cells slots.old }
{
    set_next(slots, a, b);
    set_prev(slots, b, a);
}

/// Takes the value out of a slot.
pub fn take_value<T>(slots: &mut [Slot<T>], k: usize) -> Option<T>
    requires { k < length slots.old }
    ensures value { result ≡ option_map (λ held. held.value) (get_or (cells slots.old) k None) }
    ensures nexts { nexts slots.new ≡ nexts slots.old }
    ensures prevs { prevs slots.new ≡ prevs slots.old }
    ensures rings { rings slots.new ≡ rings slots.old }
    ensures cells { cells slots.new ≡ slice_set (cells slots.old) k None }
{
    match slots[k].held.take() {
        Some(held) => Some(held.value),
        None => None,
    }
}

/// Puts a value into a slot.
pub fn put_value<T: Drop>(slots: &mut [Slot<T>], k: usize, held: Held<T>)
    requires { k < length slots.old }
    ensures nexts { nexts slots.new ≡ nexts slots.old }
    ensures prevs { prevs slots.new ≡ prevs slots.old }
    ensures rings { rings slots.new ≡ rings slots.old }
    ensures cells { cells slots.new ≡ slice_set (cells slots.old) k (Some held) }
{
    slots[k].held = Some(held);
}
