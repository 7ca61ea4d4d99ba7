//! What the values of a JSON array are as items of a list.
ghost use Rattle.std.specs.Prelude.{◌≡◌, [], true, IfOk, IfSome};
ghost use Rattle.json.specs.Json.{array, number, object};
ghost use Rattle.field_types.specs.declared.value.Item.TheVariants as as_item;
ghost use Rattle.event_json.specs.CompactText.{PutsObject, PutsValues};
ghost use Rattle.event_json.specs.Direct.{IsDecimal, IsItem, AreItems};
ghost use Rattle.event_json.specs.Quoted.{quoted_value, quoted_view, quoted_items_view, quoted_members_view};

use crate::compact::{push_object, push_values};
use crate::numbers::{decimal_in, whole_in};
use base_types::{OutOfMemory, Text};
use field_types::{Item, ItemList};
use json::Value as Tree;
use scalar_text::read_decimal;
use std::alloc::Global;

const DEC_KEY: &str = "$dec";

// What becomes a text in a list nests no deeper.
const ITEM_DEPTH: usize = 16;

/// The decimal that a member is, its text under quotes.
pub fn quoted_decimal(name: &str, value: &Tree<'_>) -> Option<i64>
    ensures { IfSome result (IsDecimal name.now (quoted_view value.now)) }
{
    if name != DEC_KEY {
        return None;
    }
    match value {
        Tree::String(lexeme) => read_decimal(lexeme.as_bytes()).ok(),
        _ => None,
    }
}

// What a number is as an item of a list.
fn number_item(numeral: &str) -> Option<Item>
    ensures { IfSome result (IsItem (quoted_value (number numeral.now))) }
{
    if let Some(n) = whole_in(numeral) {
        return Some(Item::Whole(n));
    }
    match decimal_in(numeral) {
        Some(n) => Some(Item::Decimal(n)),
        None => None,
    }
}

// The text with these bytes, which are put together of texts.
fn text_of(alloc: Global, bytes: &[u8]) -> Result<Text, OutOfMemory>
    ensures { IfOk result (λ text. text ≡ bytes.now) }
{
    match Text::new(alloc, bytes) {
        Ok(text) => Ok(text),
        Err(_) => Err(OutOfMemory),
    }
}

// What an array within a list is as an item of it: its compact text, if all of it is of the usual forms.
fn array_item(alloc: Global, values: &[Tree<'_>]) -> Result<Option<Item>, OutOfMemory>
    ensures { IfOk result (λ found. IfSome found (IsItem (array (quoted_items_view values.now)))) }
{
    let mut out = Vec::new(alloc);
    if !push_values(alloc, &mut out, values, ITEM_DEPTH)? {
        return Ok(None);
    }
    Ok(Some(Item::Text(text_of(alloc, &out)?)))
}

// The same of an object that stands for no decimal.
fn object_item<'m, 't>(
    alloc: Global,
    members: &'m [(&'t str, Tree<'t>)],
) -> Result<Option<Item>, OutOfMemory>
    ensures { IfOk result (λ found. IfSome found (IsItem (object (quoted_members_view members.now)))) }
{
    let mut out = Vec::new(alloc);
    if !push_object(alloc, &mut out, members, ITEM_DEPTH)? {
        return Ok(None);
    }
    Ok(Some(Item::Text(text_of(alloc, &out)?)))
}

// The item that a text is.
fn text_item(alloc: Global, text: &str) -> Result<Item, OutOfMemory>
    ensures { IfOk result (λ item. item ≡ as_item.Text text.now) }
{
    Ok(Item::Text(Text::from(String::from_str(alloc, text)?)))
}

// What a value is as an item of a list, if it is of the usual forms.
fn item_of(alloc: Global, value: &Tree<'_>) -> Result<Option<Item>, OutOfMemory>
    ensures { IfOk result (λ found. IfSome found (IsItem (quoted_view value.now))) }
{
    match value {
        Tree::Null => Ok(Some(text_item(alloc, "null")?)),
        Tree::Bool(flag) => Ok(Some(Item::Flag(*flag))),
        Tree::Number(numeral) => Ok(number_item(numeral)),
        Tree::String(text) => Ok(Some(text_item(alloc, text)?)),
        Tree::Array(values) => array_item(alloc, values),
        Tree::Object(members) => {
            if let [(name, inner)] = members.as_slice() {
                if let Some(n) = quoted_decimal(name, inner) {
                    return Ok(Some(Item::Decimal(n)));
                }
            }
            object_item(alloc, members)
        }
    }
}

/// The values as items of a list, if they are of the usual forms.
pub fn items_of(alloc: Global, values: &[Tree<'_>]) -> Result<Option<ItemList>, OutOfMemory>
    ensures { IfOk result (λ found. IfSome found (AreItems (quoted_items_view values.now))) }
{
    let mut items = Vec::with_capacity(alloc, values.len())?;
    let mut rest = values;
    'values: while let [value, more @ ..] = rest {
        let Some(item) = item_of(alloc, value)? else {
            return Ok(None);
        };
        items.push(item)?;
        rest = more;
    }
    Ok(Some(ItemList::from(items)))
}
