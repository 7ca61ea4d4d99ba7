//! Values in canonical texts.
ghost use Rattle.std.specs.Prelude.{◌≡◌, ◌≤◌, suc, length, option_map, IfOk};
ghost use Rattle.std.specs.List.{position, position_or_len};
ghost use Rattle.event_text.specs.Decode.{canonical_decimal, has_point, is_stop, item_at, items_at, list_at, number_in, scalar_at, scalar_in, value_at, value_of_item, canonical_whole};

use crate::string::text_at;
use base_types::OutOfMemory;
use field_types::{Item, ItemList, Value};
use scalar_text::{is_printed_decimal, is_printed_whole, read_decimal, read_whole};
use std::alloc::Global;

// What follows a value: a comma, or the end of a list or an object.
fn is_stop(byte: u8) -> bool
    ensures { result ≡ is_stop byte }
{
    byte == b',' || byte == b']' || byte == b'}'
}

// Where the first stop stands.
fn first_stop(rest: &[u8]) -> Option<usize>
    ensures { result ≡ position is_stop rest.now }
{
    rest.iter().position(|b| is_stop(*b))
}

// How long the run of bytes up to the first stop is.
fn run_len(rest: &[u8]) -> usize
    ensures within { result ≤ length rest.now }
    ensures value { result ≡ position_or_len is_stop rest.now }
{
    first_stop(rest).unwrap_or(rest.len())
}

// The whole number that a run is the canonical text of: no minus before zero, and no needless zero.
fn canonical_whole(run: &[u8]) -> Option<i64>
    ensures { result ≡ canonical_whole run.now }
{
    let Ok(n) = read_whole(run) else {
        return None;
    };
    if is_printed_whole(run, n) {
        Some(n)
    } else {
        None
    }
}

// The decimal that a run is the canonical text of, in millionths.
fn canonical_decimal(run: &[u8]) -> Option<i64>
    ensures { result ≡ canonical_decimal run.now }
{
    let Ok(n) = read_decimal(run) else {
        return None;
    };
    if is_printed_decimal(run, n) {
        Some(n)
    } else {
        None
    }
}

fn has_point(run: &[u8]) -> bool
    ensures { result ≡ has_point run.now }
{
    run.iter().any(|b| *b == b'.')
}

// The number that a run is the canonical text of: a decimal where it has a point.
fn number_in(run: &[u8]) -> Option<Item>
    ensures { result ≡ number_in run.now }
{
    if has_point(run) {
        canonical_decimal(run).map(Item::Decimal)
    } else {
        canonical_whole(run).map(Item::Whole)
    }
}

// The flag or number that a run is the canonical text of.
#[tactic(auto, unfolding(crate::specs::Decode::scalar_in))]
fn scalar_in(run: &[u8]) -> Option<Item>
    ensures { result ≡ scalar_in run.now }
{
    if run == b"true".as_slice() {
        return Some(Item::Flag(true));
    }
    if run == b"false".as_slice() {
        return Some(Item::Flag(false));
    }
    number_in(run)
}

// The flag or number before the first stop, and what is behind it.
#[tactic(auto, unfolding(crate::specs::Decode::scalar_at))]
fn scalar_at(rest: &[u8]) -> Option<(Item, &[u8])>
    ensures { option_map (λ at. (at.0, at.1.now)) result ≡ scalar_at rest.now }
{
    let (run, behind) = rest.split_at(run_len(rest));
    match scalar_in(run) {
        Some(item) => Some((item, behind)),
        None => None,
    }
}

// The item at the front, and what is behind it.
#[tactic(auto, unfolding(crate::specs::Decode::item_at))]
fn item_at(alloc: Global, rest: &[u8]) -> Result<Option<(Item, &[u8])>, OutOfMemory>
    ensures { IfOk result (λ found. option_map (λ at. (at.0, at.1.now)) found ≡ item_at rest.now) }
{
    match rest {
        [] => Ok(None),
        [b'"', inside @ ..] => {
            Ok(text_at(alloc, inside)?.map(|(text, behind)| (Item::Text(text), behind)))
        }
        _ => Ok(scalar_at(rest)),
    }
}

// The items up to the end of their list, one at least, and what is behind the list.
fn items_at(alloc: Global, inside: &[u8]) -> Result<Option<(ItemList, &[u8])>, OutOfMemory>
    ensures { IfOk result (λ found. option_map (λ at. (at.0, at.1.now)) found ≡ items_at (suc (length inside.now)) inside.now) }
{
    let mut items = Vec::new(alloc);
    let mut rest = inside;
    'items: loop {
        let Some((item, behind)) = item_at(alloc, rest)? else {
            return Ok(None);
        };
        items.push(item)?;
        let [stop, more @ ..] = behind else {
            return Ok(None);
        };
        match *stop {
            b',' => rest = more,
            b']' => return Ok(Some((ItemList::from(items), more))),
            _ => return Ok(None),
        }
    }
}

// The items of the list whose inside begins here, and what is behind the list.
#[tactic(auto, unfolding(crate::specs::Decode::list_at))]
fn list_at(alloc: Global, inside: &[u8]) -> Result<Option<(ItemList, &[u8])>, OutOfMemory>
    ensures { IfOk result (λ found. option_map (λ at. (at.0, at.1.now)) found ≡ list_at inside.now) }
{
    match inside {
        [] => Ok(None),
        [b']', behind @ ..] => Ok(Some((ItemList::new(alloc), behind))),
        _ => items_at(alloc, inside),
    }
}

// The value that an item is where it stands alone.
fn value_of(item: Item) -> Value
    ensures { result ≡ value_of_item item }
{
    match item {
        Item::Text(text) => Value::Text(text),
        Item::Whole(n) => Value::Whole(n),
        Item::Flag(flag) => Value::Flag(flag),
        Item::Decimal(n) => Value::Decimal(n),
    }
}

/// The value at the front, and what is behind it: nothing where no canonical text of a value stands there.
#[tactic(auto, unfolding(crate::specs::Decode::value_at, crate::specs::Decode::item_at))]
pub fn value_at(alloc: Global, rest: &[u8]) -> Result<Option<(Value, &[u8])>, OutOfMemory>
    ensures { IfOk result (λ found. option_map (λ at. (at.0, at.1.now)) found ≡ value_at rest.now) }
{
    match rest {
        [] => Ok(None),
        [b'[', inside @ ..] => {
            Ok(list_at(alloc, inside)?.map(|(items, behind)| (Value::List(items), behind)))
        }
        [b'"', inside @ ..] => {
            Ok(text_at(alloc, inside)?.map(|(text, behind)| (Value::Text(text), behind)))
        }
        _ => Ok(scalar_at(rest).map(|(item, behind)| (value_of(item), behind))),
    }
}
