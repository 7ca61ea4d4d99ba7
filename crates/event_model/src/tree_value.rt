//! The values that trees stand for.
ghost use Rattle.std.specs.Prelude.{◌≡◌, IfOk, option_map, option_and_then, string_bytes};
ghost use Rattle.serde_json.specs.View.{view, items_view, members_view};
ghost use Rattle.field_types.specs.declared.value.Value.TheVariants as as_value;
ghost use Rattle.scalar_text.specs.Number.{decimal_in};
ghost use Rattle.event_model.specs.Trees.{compact, item_of, items_of, lexeme_in, value_of};

use crate::compact::{NoText, push_compact};
use crate::tree::{lexeme_in, whole_of};
use base_types::{OutOfMemory, Text};
use field_types::{Item, ItemList, Value};
use scalar_text::read_decimal;
use serde_json::{Map, Value as Tree};
use std::alloc::Global;

// The compact text of a tree, if it has one.
fn compact_of(alloc: Global, tree: &Tree) -> Result<Option<Text>, OutOfMemory>
    ensures { IfOk result (λ text. text ≡ compact (view tree.now)) }
{
    let mut out = Vec::new(alloc);
    match push_compact(&mut out, tree) {
        // The text is UTF-8, since all of a tree's texts are.
        Ok(()) => match Text::new(alloc, &out) {
            Ok(text) => Ok(Some(text)),
            Err(_) => Err(OutOfMemory),
        },
        Err(NoText::Float) => Ok(None),
        Err(NoText::OutOfMemory) => Err(OutOfMemory),
    }
}

// The decimal that a number writes, in millionths.
fn decimal_of(lexeme: &str) -> Option<i64>
    ensures { result ≡ decimal_in lexeme.now }
{
    read_decimal(lexeme.as_bytes()).ok()
}

fn copy_of(alloc: Global, text: &String) -> Result<Text, OutOfMemory>
    ensures { IfOk result (λ copied. copied ≡ string_bytes text.now) }
{
    Ok(Text::from(String::from_str(alloc, text.as_str())?))
}

// What a tree is as an item of a list.
fn item_of(alloc: Global, tree: &Tree) -> Result<Option<Item>, OutOfMemory>
    ensures { IfOk result (λ item. item ≡ item_of (view tree.now)) }
{
    match tree {
        Tree::Null | Tree::Array(_) => Ok(compact_of(alloc, tree)?.map(Item::Text)),
        Tree::Bool(flag) => Ok(Some(Item::Flag(*flag))),
        Tree::Number(number) => Ok(whole_of(number).map(Item::Whole)),
        Tree::String(text) => Ok(Some(Item::Text(copy_of(alloc, text)?))),
        Tree::Object(members) => match lexeme_in(members) {
            Some(lexeme) => Ok(decimal_of(lexeme).map(Item::Decimal)),
            None => Ok(compact_of(alloc, tree)?.map(Item::Text)),
        },
    }
}

fn items_of(alloc: Global, trees: &[Tree]) -> Result<Option<ItemList>, OutOfMemory>
    ensures { IfOk result (λ items. items ≡ items_of (items_view trees.now)) }
{
    let mut items = Vec::with_capacity(alloc, trees.len())?;
    'trees: for tree in trees {
        let Some(item) = item_of(alloc, tree)? else {
            return Ok(None);
        };
        items.push(item)?;
    }
    Ok(Some(ItemList::from(items)))
}

fn decimal_value(members: &Map<String, Tree>) -> Option<Value>
    ensures { result ≡ option_and_then (λ lexeme. option_map as_value.Decimal (decimal_in lexeme)) (lexeme_in (members_view members.now.entries)) }
{
    decimal_of(lexeme_in(members)?).map(Value::Decimal)
}

/// The value that a tree stands for, if it stands for one.
#[tactic(auto, unfolding(crate::specs::Trees::value_of))]
pub fn value_of(alloc: Global, tree: &Tree) -> Result<Option<Value>, OutOfMemory>
    ensures { IfOk result (λ value. value ≡ value_of (view tree.now)) }
{
    match tree {
        Tree::Null => Ok(None),
        Tree::Bool(flag) => Ok(Some(Value::Flag(*flag))),
        Tree::Number(number) => Ok(whole_of(number).map(Value::Whole)),
        Tree::String(text) => Ok(Some(Value::Text(copy_of(alloc, text)?))),
        Tree::Array(trees) => match items_of(alloc, trees)? {
            Some(items) => Ok(Some(Value::List(items))),
            None => Ok(None),
        },
        Tree::Object(members) => Ok(decimal_value(members)),
    }
}
