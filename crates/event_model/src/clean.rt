//! The lenient reading of a JSON tree as a message.
ghost use Rattle.std.specs.Prelude.{◌≡◌, Ok, Some, None, IfOk, OnOk, MatchResult};
ghost use Rattle.serde_json.specs.View.{view, members_view};
ghost use Rattle.serde_json.specs.Find.{get_member};
ghost use Rattle.event_model.specs.Gathered.{Gathers};
ghost use Rattle.event_model.specs.Lenient.{bad_names, kind_of, kind_of_word, leaves_at, leaves_of, least, lenient_tree, of_members, pairs_of, set_all, type_key, with_fields, IsFaultOf};

use crate::builder::FieldsBuilder;
use crate::leaves::{Found, gather, name_of};
use crate::names::Names;
use crate::tree::lexeme_in;
use crate::{Kind, Message, ReadFault};
use base_types::OutOfMemory;
use serde_json::{Map, Value as Tree};
use std::alloc::Global;

const TYPE_KEY: &str = "__type";

/// The kind of this name.
pub fn kind_of_word(word: &str) -> Option<Kind>
    ensures { result ≡ kind_of_word (Some word.now) }
{
    if word == "Report" {
        Some(Kind::Report)
    } else if word == "Event" {
        Some(Kind::Event)
    } else {
        None
    }
}

// An event, or what the word under `__type` says.
fn kind_of(members: &Map<String, Tree>) -> Option<Kind>
    ensures { result ≡ kind_of (get_member type_key (members_view members.now.entries)) }
{
    match members.get(TYPE_KEY) {
        None => Some(Kind::Event),
        Some(tree) => kind_of_word(tree.as_str()?),
    }
}

// Adds the leaves of a member of the message, which its kind isn't.
fn gather_member(
    alloc: Global,
    key: &str,
    tree: &Tree,
    found: &mut Found,
) -> Result<(), OutOfMemory>
    ensures { OnOk result (Gathers (leaves_at key.now (view tree.now)) found.old found.new) }
{
    if key == TYPE_KEY {
        return Ok(());
    }
    found.names.start(key.as_bytes())?;
    gather(alloc, found, tree)
}

// What all members add.
fn gather_all(alloc: Global, members: &Map<String, Tree>) -> Result<Found, OutOfMemory>
    ensures fields { IfOk result (λ found. found.fields ≡ set_all (pairs_of (leaves_of (members_view members.now.entries)))) }
    ensures bad { IfOk result (λ found. found.names.1 ≡ least (bad_names (leaves_of (members_view members.now.entries)))) }
{
    let mut found = Found {
        // A field a member, in most objects, and the content that parsers add.
        fields: FieldsBuilder::with_capacity(alloc, members.len().saturating_add(1))?,
        names: Names::new(alloc),
    };
    'members: for (key, tree) in members.iter() {
        gather_member(alloc, key.as_str(), tree, &mut found)?;
    }
    Ok(found)
}

fn of_fields(kind: Kind, fields: FieldsBuilder) -> Result<Message, ReadFault>
    ensures { MatchResult result (λ message. with_fields kind None fields ≡ Ok message) (IsFaultOf (with_fields kind None fields)) }
{
    match fields.build() {
        Ok(fields) => Ok(Message { kind, fields }),
        Err(OutOfMemory) => Err(ReadFault::OutOfMemory),
    }
}

fn of_found(alloc: Global, kind: Kind, found: Found) -> Result<Message, ReadFault>
    ensures { MatchResult result (λ message. with_fields kind found.names.1 found.fields ≡ Ok message) (IsFaultOf (with_fields kind found.names.1 found.fields)) }
{
    let Found { fields, names } = found;
    match names.least() {
        None => of_fields(kind, fields),
        Some(key) => match name_of(alloc, key) {
            Ok(key) => Err(ReadFault::Field { key }),
            Err(OutOfMemory) => Err(ReadFault::OutOfMemory),
        },
    }
}

fn clean_members(alloc: Global, members: &Map<String, Tree>) -> Result<Message, ReadFault>
    ensures { MatchResult result (λ message. of_members (members_view members.now.entries) ≡ Ok message) (IsFaultOf (of_members (members_view members.now.entries))) }
{
    if lexeme_in(members).is_some() {
        return Err(ReadFault::NotObject);
    }
    let Some(kind) = kind_of(members) else {
        return Err(ReadFault::Kind);
    };
    match gather_all(alloc, members) {
        Ok(found) => of_found(alloc, kind, found),
        Err(OutOfMemory) => Err(ReadFault::OutOfMemory),
    }
}

/// The lenient reading of a tree: 1 `NotObject`, 2 `Kind`, 3 `Field` with the least bad name in byte order.
#[tactic(auto, unfolding(crate::specs::Lenient::lenient_tree))]
pub fn clean_tree(alloc: Global, tree: &Tree) -> Result<Message, ReadFault>
    ensures { MatchResult result (λ message. lenient_tree (view tree.now) ≡ Ok message) (IsFaultOf (lenient_tree (view tree.now))) }
{
    match tree.as_object() {
        Some(members) => clean_members(alloc, members),
        None => Err(ReadFault::NotObject),
    }
}
