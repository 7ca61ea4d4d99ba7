//! Lists of items, with the calls on them.
ghost use Rattle.std.specs.Prelude.{◌≡◌, ◌≢◌, ◌<◌, ◌≤◌, ◌^◌, ◌++◌, ◌∷◌, [], length, max, option_copied, option_map, replicate, slice_get, None, IfNone, IfOk, IfSome, IsOk, IsSome, OnErr, OnOk, ◌↔◌};
ghost use Rattle.link_store.specs.Links.{HasItem, HasNode, IsMoved, IsPopped, IsPushed, IsPut, IsUnlinked, Place, StandsAt, list_of};

use crate::growth::{add_ring, grow, lone_slot};
use crate::moves::{head_of, len_of, move_first, move_last, pop_first, push_last, take_out};
use crate::node::Node;
use crate::slots::{Held, Slot, holds, node_behind, value_at, value_behind};
use base_types::OutOfMemory;
use std::alloc::Global;
use std::marker::Model;

/// Lists of items, numbered from 0. Contracts see the lists, each value with its node, how many more items may be pushed without memory, and
/// how many were pushed so far.
///
/// A node names an item of the `Links` that it was pushed to; to others it may name nothing, or one of theirs.
#[derive(Debug, Drop)]
pub struct Links<T> {
    pub(crate) slots: Vec<Slot<T>>,
    // Of each ring the slot that stands before its first one and behind its last; first the ring of free slots, then the lists.
    heads: Vec<usize>,
    // Of each ring how many slots are in it.
    lens: Vec<usize>,
    pushed: u64,
    // How many free slots are told of. There may be more, from a call of `reserve` that ran out of memory.
    room: usize,
}

impl<T> Model for Links<T> {
    ghost use Rattle.std.specs.Prelude.{drop};
    ghost use Rattle.link_store.specs.Links.{LinksView, links_code};

    ghost Value = { LinksView T };

    ghost coded = { links_code T.code };

    ghost use Rattle.link_store.specs.Kept.{IsSound, lists_in};

    ghost view = { λ l. record { lists = drop 1 (lists_in l.slots.items l.heads.items l.lens.items); spare = l.room; pushed = l.pushed } };

    ghost invariant = { λ l. IsSound l.slots.items l.heads.items l.lens.items l.pushed l.room };
}

impl<T: Drop> Links<T> {
    // No lists.
    fn without_lists(alloc: Global) -> Result<Self, OutOfMemory>
        ensures { IfOk result (λ links. links ≡ record { lists = []; spare = 0; pushed = 0 }) }
    {
        let mut slots = Vec::new(alloc);
        slots.push(lone_slot(0, 0))?;
        let mut heads = Vec::new(alloc);
        heads.push(0)?;
        let mut lens = Vec::new(alloc);
        lens.push(0)?;
        Ok(Links {
            slots,
            heads,
            lens,
            pushed: 0,
            room: 0,
        })
    }

    /// So many empty lists.
    pub fn new(alloc: Global, lists: u32) -> Result<Self, OutOfMemory>
        ensures { IfOk result (λ links. links ≡ record { lists = replicate lists []; spare = 0; pushed = 0 }) }
    {
        let mut links = Links::without_lists(alloc)?;
        'lists: for _list in 0..lists {
            links.add_list()?;
        }
        Ok(links)
    }

    /// Makes room for so many items in all that are pushed. There is never less room than before.
    pub fn reserve(&mut self, n: u32) -> Result<(), OutOfMemory>
        ensures ok { OnOk result (self.new ≡ record self.old { spare = max n self.old.spare }) }
        ensures err { OnErr result (self.new ≡ self.old) }
        ensures succeeds { n ≤ self.old.spare → IsOk result }
    {
        let count = n as usize;
        grow(&mut self.slots, &self.heads, &mut self.lens, count)?;
        self.room = self.room.max(count);
        Ok(())
    }

    /// Puts an empty list behind the others, and answers its number.
    pub fn add_list(&mut self) -> Result<u32, OutOfMemory>
        ensures number { IfOk result (λ k. k ≡ length self.old.lists) }
        ensures ok { OnOk result (self.new ≡ record self.old { lists = self.old.lists ++ [] ∷ [] }) }
        ensures err { OnErr result (self.new ≡ self.old) }
    {
        let Ok(list) = u32::try_from(self.heads.len() - 1) else {
            return Err(OutOfMemory);
        };
        add_ring(&mut self.slots, &mut self.heads, &mut self.lens)?;
        Ok(list)
    }

    /// Puts a value at the end of a list, and answers its node. It takes no memory.
    pub fn push_back(&mut self, list: u32, value: T) -> Node
        requires list { list < length self.old.lists }
        requires spare { 0 < self.old.spare }
        requires few { self.old.pushed < 2 ^ 63 }
        ensures number { result.number ≡ self.old.pushed }
        ensures pushed { IsPushed list (record { node = result; value = value }) self.old self.new }
    {
        let number = self.pushed;
        let held = Held { number, value };
        let slot = push_last(
            &mut self.slots,
            &self.heads,
            &mut self.lens,
            list as usize + 1,
            held,
        );
        self.pushed += 1;
        self.room -= 1;
        Node { slot, number }
    }

    /// Takes the first value of a list off, if it has one. It takes no memory.
    pub fn pop_front(&mut self, list: u32) -> Option<T>
        requires { list < length self.old.lists }
        ensures { IsPopped list (list_of self.old list) self.old self.new result }
    {
        let value = pop_first(
            &mut self.slots,
            &self.heads,
            &mut self.lens,
            list as usize + 1,
        )?;
        self.room += 1;
        Some(value)
    }

    /// Moves the first item of a list to the end of another, and answers whether there was one. It takes no memory.
    pub fn move_front(&mut self, from: u32, to: u32) -> bool
        requires from { from < length self.old.lists }
        requires to { to < length self.old.lists }
        requires differ { from ≢ to }
        ensures { IsMoved from to (list_of self.old from) self.old self.new result }
    {
        let (from, to) = (from as usize + 1, to as usize + 1);
        move_last(&mut self.slots, &self.heads, &mut self.lens, from, to)
    }

    /// Moves the first item of a list to the front of another, and answers whether there was one. From a list to itself it moves nothing. It
    /// takes no memory.
    pub fn put_front(&mut self, from: u32, to: u32) -> bool
        requires from { from < length self.old.lists }
        requires to { to < length self.old.lists }
        ensures { IsPut from to (list_of self.old from) self.old self.new result }
    {
        let (from, to) = (from as usize + 1, to as usize + 1);
        move_first(&mut self.slots, &self.heads, &mut self.lens, from, to)
    }

    /// Takes the item of a node off, wherever it stands, if it is there. It takes no memory.
    pub fn unlink(&mut self, node: Node) -> Option<T>
        ensures none { IfNone result (self.new ≡ self.old) }
        ensures live { IsSome result ↔ HasNode node self.old }
        ensures gone { IfSome result (λ value. IsUnlinked node value self.old self.new) }
    {
        let value = take_out(&mut self.slots, &self.heads, &mut self.lens, node)?;
        self.room += 1;
        Some(value)
    }

    /// How many lists there are.
    pub fn lists_len(&self) -> usize
        ensures { result ≡ length self.now.lists }
    {
        self.heads.len() - 1
    }

    /// How many more items may be pushed without memory.
    pub fn spare(&self) -> usize
        ensures { result ≡ self.now.spare }
    {
        self.room
    }

    /// How many items were pushed so far.
    pub fn pushed(&self) -> u64
        ensures { result ≡ self.now.pushed }
    {
        self.pushed
    }

    /// How many items a list has.
    pub fn len(&self, list: u32) -> usize
        requires { list < length self.now.lists }
        ensures { result ≡ length (list_of self.now list) }
    {
        len_of(&self.lens, list as usize + 1)
    }

    /// The value at the front of a list, if it has one.
    pub fn front(&self, list: u32) -> Option<&T>
        requires { list < length self.now.lists }
        ensures { option_copied result ≡ option_map (λ item. item.value) (slice_get (list_of self.now list) 0) }
    {
        let head = head_of(&self.heads, list as usize + 1);
        value_behind(&self.slots, head)
    }

    /// The node of the item at the front of a list, if it has one.
    pub fn first(&self, list: u32) -> Option<Node>
        requires { list < length self.now.lists }
        ensures { result ≡ option_map (λ item. item.node) (slice_get (list_of self.now list) 0) }
    {
        let head = head_of(&self.heads, list as usize + 1);
        node_behind(&self.slots, head)
    }

    /// The node of the item behind that of a node, in its list. There is none where that is the last, or isn't there any more.
    pub fn next(&self, node: Node) -> Option<Node>
        ensures behind { (value : T) (place : Place T) → StandsAt (record { node = node; value = value }) place self.now → result ≡ option_map (λ item. item.node) (slice_get place.behind 0) }
        ensures gone { (HasNode node self.now → ⊥) → result ≡ None }
    {
        if !holds(&self.slots, node) {
            return None;
        }
        node_behind(&self.slots, node.slot)
    }

    /// The value of a node's item, if it is there.
    pub fn get(&self, node: Node) -> Option<&T>
        ensures live { IsSome result ↔ HasNode node self.now }
        ensures value { IfSome result (λ value. HasItem (record { node = node; value = value.now }) self.now) }
    {
        if !holds(&self.slots, node) {
            return None;
        }
        value_at(&self.slots, node.slot)
    }
}
