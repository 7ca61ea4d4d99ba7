//! Ten thousand calls on lists, each beside plain lists. Behind a call that answers want of memory all is as before it.

use link_store::{Links, Node};
use std::alloc::Global;
use std::process::Abort;
use std::test::Fail;

const CALLS: u32 = 10_000;

// So many lists are made, and so many items have room in a plain one.
const MOST_LISTS: usize = 6;

const MOST_ITEMS: usize = 500;

// So many of the nodes that were answered last are looked at.
const LATE_NODES: usize = 24;

// An item of a plain list.
#[derive(Clone, Copy, Debug, PartialEq, Eq)]
struct Item {
    node: Node,
    value: u32,
}

// Lists by index, plain lists of the same items, and all nodes that were answered so far. Plain lists and nodes take their memory at
// first: with `rt try --test --fail-alloc N` the lists by index are refused theirs.
#[derive(Drop)]
struct Both {
    links: Links<u32>,
    plain: Vec<Vec<Item>>,
    given: Vec<Node>,
}

// The next of the numbers that a seed gives, below a bound: Knuth's generator for 64 bits, of which the upper half is taken.
fn next_below(seed: &mut u64, bound: u32) -> u32 {
    *seed = seed
        .wrapping_mul(6_364_136_223_846_793_005)
        .wrapping_add(1_442_695_040_888_963_407);
    ((*seed >> 32) as u32).checked_rem(bound).unwrap_or(0)
}

fn take_first(plain: &mut [Vec<Item>], list: u32) -> Option<Item> {
    let items = plain.get_mut(list as usize)?;
    if items.is_empty() {
        None
    } else {
        Some(items.remove(0))
    }
}

// Takes the item of a node off.
fn take_out(plain: &mut [Vec<Item>], node: Node) -> Option<Item> {
    for items in plain {
        if let Some(i) = items.iter().position(|item| item.node == node) {
            return Some(items.remove(i));
        }
    }
    None
}

fn find(plain: &[Vec<Item>], node: Node) -> Option<Item> {
    for items in plain {
        if let Some(item) = items.iter().find(|item| item.node == node) {
            return Some(*item);
        }
    }
    None
}

fn value_of(item: Option<Item>) -> Option<u32> {
    match item {
        Some(item) => Some(item.value),
        None => None,
    }
}

fn push(both: &mut Both, list: u32, value: u32) -> Result<(), Fail> {
    let fits = both.links.spare() > 0 && both.links.pushed() < 1 << 63;
    if !fits || (list as usize) >= both.links.lists_len() {
        return Ok(());
    }
    let node = both.links.push_back(list, value);
    if let Some(items) = both.plain.get_mut(list as usize) {
        items.push(Item { node, value })?;
    }
    both.given.push(node)?;
    Ok(())
}

fn pop(rt: &impl Abort, both: &mut Both, list: u32) {
    if (list as usize) >= both.links.lists_len() {
        return;
    }
    let first = value_of(take_first(&mut both.plain, list));
    assert!(rt;
        both.links.pop_front(list) == first,
        "the first item is taken off"
    );
}

// Puts an item into a plain list, at the end or at the front.
fn put(plain: &mut [Vec<Item>], list: u32, item: Item, last: bool) -> Result<(), Fail> {
    if let Some(items) = plain.get_mut(list as usize) {
        let i = if last { items.len() } else { 0 };
        items.insert(i, item)?;
    }
    Ok(())
}

fn move_front(rt: &impl Abort, both: &mut Both, from: u32, to: u32) -> Result<(), Fail> {
    let lists = both.links.lists_len();
    if from == to || (from as usize) >= lists || (to as usize) >= lists {
        return Ok(());
    }
    let first = take_first(&mut both.plain, from);
    assert!(rt;
        both.links.move_front(from, to) == first.is_some(),
        "there is one to move, or none"
    );
    match first {
        Some(item) => put(&mut both.plain, to, item, true),
        None => Ok(()),
    }
}

fn put_front(rt: &impl Abort, both: &mut Both, from: u32, to: u32) -> Result<(), Fail> {
    let lists = both.links.lists_len();
    if (from as usize) >= lists || (to as usize) >= lists {
        return Ok(());
    }
    let first = take_first(&mut both.plain, from);
    assert!(rt;
        both.links.put_front(from, to) == first.is_some(),
        "there is one to put, or none"
    );
    match first {
        Some(item) => put(&mut both.plain, to, item, false),
        None => Ok(()),
    }
}

// One of the nodes that were answered last, if one was.
fn late_node(given: &[Node], number: u32) -> Option<Node> {
    let back = (number as usize).checked_rem(given.len().min(LATE_NODES))?;
    given.iter().rev().nth(back).copied()
}

fn unlink(rt: &impl Abort, both: &mut Both, number: u32) {
    let Some(node) = late_node(&both.given, number) else {
        return;
    };
    let item = value_of(take_out(&mut both.plain, node));
    assert!(rt;
        both.links.unlink(node) == item,
        "the item of a node is taken off, if it is there"
    );
}

fn reserve(rt: &impl Abort, links: &mut Links<u32>, count: u32) {
    let before = links.spare();
    match links.reserve(count) {
        Ok(()) => assert!(rt;
            links.spare() == before.max(count as usize),
            "there is the room that was asked for"
        ),
        Err(_) => assert!(rt; links.spare() == before, "there is as much room as before"),
    }
}

fn add_list(rt: &impl Abort, links: &mut Links<u32>) {
    let lists = links.lists_len();
    if lists >= MOST_LISTS {
        return;
    }
    if let Ok(list) = links.add_list() {
        assert!(rt; list as usize == lists, "a new list has the next number");
    }
}

fn compare_list(rt: &impl Abort, links: &Links<u32>, list: u32, items: &[Item]) {
    if (list as usize) >= links.lists_len() {
        return;
    }
    assert!(rt;
        links.len(list) == items.len(),
        "the list has so many items"
    );
    assert!(rt;
        links.front(list).copied() == value_of(items.first().copied()),
        "its front is this one"
    );
    let mut node = links.first(list);
    for item in items {
        assert!(rt;
            node == Some(item.node),
            "each item stands behind the one before it"
        );
        assert!(rt;
            links.get(item.node).copied() == Some(item.value),
            "it has its value"
        );
        node = links.next(item.node);
    }
    assert!(rt; node == None, "none stands behind the last");
}

// All lists are the plain ones, and a node that was answered names an item of them or nothing.
fn compare(rt: &impl Abort, both: &Both, number: u32) {
    assert!(rt;
        both.links.pushed() == both.given.len() as u64,
        "so many items were pushed"
    );
    for list in 0..MOST_LISTS as u32 {
        if let Some(items) = both.plain.get(list as usize) {
            compare_list(rt, &both.links, list, items);
        }
    }
    let Some(node) = late_node(&both.given, number) else {
        return;
    };
    let item = find(&both.plain, node);
    assert!(rt;
        both.links.get(node).copied() == value_of(item),
        "a node names its item, while that is there"
    );
    assert!(rt;
        item.is_some() || both.links.next(node) == None,
        "behind an item that left stands none"
    );
}

// Makes the call that a number names.
fn call(rt: &impl Abort, both: &mut Both, seed: &mut u64) -> Result<(), Fail> {
    let kind = next_below(seed, 16);
    let list = next_below(seed, MOST_LISTS as u32);
    let other = next_below(seed, MOST_LISTS as u32);
    let number = next_below(seed, 1_000);
    match kind {
        0 => add_list(rt, &mut both.links),
        1 => reserve(rt, &mut both.links, number % 8),
        2..=6 => push(both, list, number)?,
        7..=8 => pop(rt, both, list),
        9..=10 => move_front(rt, both, list, other)?,
        11..=12 => put_front(rt, both, list, other)?,
        _ => unlink(rt, both, number),
    }
    compare(rt, both, number);
    Ok(())
}

// Lists without items, with room for them in the plain ones.
fn no_items(alloc: Global) -> Result<Both, Fail> {
    let mut plain = Vec::with_capacity(alloc, MOST_LISTS)?;
    for _ in 0..MOST_LISTS {
        plain.push(Vec::with_capacity(alloc, MOST_ITEMS)?)?;
    }
    Ok(Both {
        plain,
        given: Vec::with_capacity(alloc, CALLS as usize)?,
        links: Links::new(alloc, 0)?,
    })
}

#[test]
fn calls_do_what_they_do_to_plain_lists(rt: HostRuntime) -> Result<(), Fail> {
    let mut both = no_items(rt.alloc())?;
    let mut seed = 7;
    for _ in 0..CALLS {
        call(&rt, &mut both, &mut seed)?;
    }
    assert!(&rt; both.given.len() > 1_000, "many items were pushed");
    Ok(())
}
