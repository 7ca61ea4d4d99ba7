//! What the leaves of a tree add to the fields.
ghost use Rattle.std.specs.Prelude.{◌≡◌, ◌++◌, ℕ, List, [], Some, IfOk, OnOk};
ghost use Rattle.serde_json.specs.View.{view, members_view};
ghost use Rattle.event_model.specs.Gathered.{put_pairs, IsBest, Gathers, IsPart};
ghost use Rattle.event_model.specs.Lenient.{flattens, is_dropped, is_dropped_text, leaves, leaves_in, part_of, with_bad, with_part};

use crate::builder::FieldsBuilder;
use crate::names::Names;
use crate::part::Part;
use crate::tree::lexeme_in;
use crate::tree_value::value_of;
use base_types::{OutOfMemory, Text};
use field_types::{FieldFault, FieldName, sanitise_own, type_of_bytes};
use scalar_text::strip;
use serde_json::{Map, Value as Tree};
use std::alloc::Global;

const EXTRA: &[u8] = b"extra";

const EXTRA_FRONT: &[u8] = b"extra.";

/// Whether an object under this name is flattened: under `extra`, and names behind `extra.`.
pub fn flattens(key: &[u8]) -> bool
    ensures { result ≡ flattens key.now }
{
    key == EXTRA || key.starts_with(EXTRA_FRONT)
}

/// Whether a stripped text sets no field.
pub fn is_dropped_text(text: &str) -> bool
    ensures { result ≡ is_dropped_text text.now }
{
    text == "" || text == "-" || text == "N/A"
}

// Whether a leaf sets nothing: null, and a text that says so.
fn is_dropped(tree: &Tree) -> bool
    ensures { result ≡ is_dropped (view tree.now) }
{
    match tree {
        Tree::Null => true,
        Tree::String(text) => is_dropped_text(strip(text.as_str())),
        _ => false,
    }
}

// What a leaf adds.
#[tactic(auto, unfolding(crate::specs::Lenient::part_of))]
fn part_of(alloc: Global, key: &[u8], tree: &Tree) -> Result<Part, OutOfMemory>
    ensures part { IfOk result (λ part. part ≡ part_of (key.now, view tree.now)) }
    ensures field { IfOk result (IsPart key.now) }
{
    if is_dropped(tree) {
        return Ok(Part::Nothing);
    }
    let Some(kind) = type_of_bytes(key) else {
        return Ok(Part::Bad);
    };
    let Some(value) = value_of(alloc, tree)? else {
        return Ok(Part::Bad);
    };
    match sanitise_own(alloc, kind, value) {
        Ok(value) => Ok(Part::Set(value)),
        Err(FieldFault::BadValue) => Ok(Part::Bad),
        Err(FieldFault::OutOfMemory) => Err(OutOfMemory),
    }
}

/// What was found in a tree so far: the fields that its leaves set, and with the name at hand the least of the names of
/// bad ones.
#[derive(Drop)]
pub struct Found {
    pub fields: FieldsBuilder,
    pub names: Names,
}

// A name as a text. It is UTF-8, since it was put together from texts.
pub fn name_of(alloc: Global, key: &[u8]) -> Result<Text, OutOfMemory>
    ensures { IfOk result (λ name. name ≡ key.now) }
{
    match Text::new(alloc, key) {
        Ok(name) => Ok(name),
        Err(_) => Err(OutOfMemory),
    }
}

// The name of a field, as a name. One of the table of fields takes no memory.
fn field_name(alloc: Global, key: &[u8]) -> Result<FieldName, OutOfMemory>
    ensures { IfOk result (λ name. name ≡ key.now) }
{
    match FieldName::known(key) {
        Some(name) => Ok(name),
        None => Ok(FieldName::from(name_of(alloc, key)?)),
    }
}

// Adds what the leaf of the name at hand adds.
fn add(alloc: Global, found: &mut Found, part: Part) -> Result<(), OutOfMemory>
    requires { IsPart found.old.names.0 part }
    ensures name { OnOk result (found.new.names.0 ≡ found.old.names.0) }
    ensures fields { OnOk result (found.new.fields ≡ put_pairs (with_part found.old.names.0 part []) found.old.fields) }
    ensures bad { (names : List (List ℕ)) → IsBest found.old.names.1 names → OnOk result (IsBest found.new.names.1 (names ++ with_bad found.old.names.0 part [])) }
{
    match part {
        Part::Nothing => Ok(()),
        Part::Set(value) => {
            let name = field_name(alloc, found.names.name())?;
            found.fields.put(name, value)
        }
        Part::Bad => found.names.note(alloc),
    }
}

/// Adds the leaves that stand under the name at hand, which stays.
#[cycle(leaves)]
pub fn gather(alloc: Global, found: &mut Found, tree: &Tree) -> Result<(), OutOfMemory>
    ensures name { OnOk result (found.new.names.0 ≡ found.old.names.0) }
    ensures found { OnOk result (Gathers (leaves found.old.names.0 (view tree.now)) found.old found.new) }
{
    if let Tree::Object(members) = tree {
        if flattens(found.names.name()) && lexeme_in(members).is_none() {
            return gather_members(alloc, found, members);
        }
    }
    let part = part_of(alloc, found.names.name(), tree)?;
    add(alloc, found, part)
}

#[cycle(leaves)]
fn gather_members(
    alloc: Global,
    found: &mut Found,
    members: &Map<String, Tree>,
) -> Result<(), OutOfMemory>
    ensures name { OnOk result (found.new.names.0 ≡ found.old.names.0) }
    ensures found { OnOk result (Gathers (leaves_in found.old.names.0 (members_view members.now.entries)) found.old found.new) }
{
    let len = found.names.name().len();
    'members: for (inner, tree) in members.iter() {
        found.names.enter(inner.as_str())?;
        gather(alloc, found, tree)?;
        found.names.leave(len);
    }
    Ok(())
}
