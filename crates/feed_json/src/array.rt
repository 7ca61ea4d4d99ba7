//! A report that is an array of objects.
ghost use Rattle.std.specs.Prelude.{◌≡◌, Ok, Some, IfOk, MatchResult};
ghost use Rattle.serde_json.specs.View.{view, items_view};
ghost use Rattle.event_model.specs.Trees.{compact};
ghost use Rattle.feed_rows.specs.Rows.{spoiled_row, IsFaultOf};
ghost use Rattle.feed_json.specs.Objects.{IsNoText};
ghost use Rattle.feed_json.specs.Rows.{alone, item_row, item_rows, items_in, of_items, of_rows};

use crate::object::{event_of, no_json, refused};
use base_types::{FaultNote, OutOfMemory};
use event_model::{Fields, NoText, push_compact, read_tree};
use feed_rows::{ParseFault, Parsed, Row, event_row, spoiled_row};
use serde_json::Value as Tree;
use std::alloc::Global;

fn compact_text(alloc: Global, tree: &Tree) -> Result<Vec<u8>, ParseFault>
    ensures { MatchResult result (λ text. compact (view tree.now) ≡ Some text.items) (IsNoText (compact (view tree.now))) }
{
    let mut text = Vec::new(alloc);
    match push_compact(&mut text, tree) {
        Ok(()) => Ok(text),
        Err(NoText::Float) => Err(no_json(alloc)),
        Err(NoText::OutOfMemory) => Err(ParseFault::OutOfMemory),
    }
}

// The row of a bad item, which is an array of its own.
fn spoiled(alloc: Global, others: &Fields, text: &[u8], note: FaultNote) -> Result<Row, OutOfMemory>
    ensures { IfOk result (λ row. row ≡ spoiled_row others.now (alone text.now) note) }
{
    let mut part = Vec::new(alloc);
    part.push(b'[')?;
    part.extend_from_slice(text)?;
    part.push(b']')?;
    spoiled_row(alloc, others, &part, note)
}

// The row of an item with this compact text.
#[tactic(auto, unfolding(crate::specs::Rows::item_row))]
fn item_row(
    alloc: Global,
    defaults: &Fields,
    others: &Fields,
    text: &[u8],
    tree: &Tree,
) -> Result<Row, OutOfMemory>
    ensures { IfOk result (λ row. row ≡ item_row defaults.now others.now text.now (view tree.now)) }
{
    match event_of(alloc, others, text, tree) {
        Ok(event) => event_row(alloc, defaults, event),
        Err(ParseFault::Fault(note)) => spoiled(alloc, others, text, note),
        Err(ParseFault::OutOfMemory) => Err(OutOfMemory),
    }
}

// The rows of these items.
fn parse_items(
    alloc: Global,
    defaults: &Fields,
    others: &Fields,
    items: &[Tree],
) -> Result<Parsed, ParseFault>
    ensures { MatchResult result (λ all. of_rows (item_rows defaults.now others.now (items_view items.now)) ≡ Ok all)
        (IsFaultOf (of_rows (item_rows defaults.now others.now (items_view items.now)))) }
{
    let mut all = Parsed::new(alloc);
    'items: for tree in items {
        let text = compact_text(alloc, tree)?;
        let row = item_row(alloc, defaults, others, &text, tree)?;
        all.put(row)?;
    }
    Ok(all)
}

/// The rows of a content that is an array.
pub(crate) fn parse_array(
    alloc: Global,
    defaults: &Fields,
    others: &Fields,
    content: &[u8],
) -> Result<Parsed, ParseFault>
    ensures { MatchResult result (λ all. of_items defaults.now others.now (items_in content.now) ≡ Ok all)
        (IsFaultOf (of_items defaults.now others.now (items_in content.now))) }
{
    match read_tree(alloc, content) {
        Ok(tree) => match tree.as_array() {
            Some(items) => parse_items(alloc, defaults, others, items),
            None => Err(no_json(alloc)),
        },
        Err(fault) => Err(refused(alloc, fault)),
    }
}
