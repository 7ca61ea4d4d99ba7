//! An object as an event.
ghost use Rattle.std.specs.Prelude.{◌≡◌, Ok, MatchResult};
ghost use Rattle.serde_json.specs.View.{view};
ghost use Rattle.feed_rows.specs.Notes.{json_note, key_note};
ghost use Rattle.feed_rows.specs.Reports.{with_raw};
ghost use Rattle.feed_rows.specs.Rows.{IsFaultOf, IsNoted};
ghost use Rattle.feed_json.specs.Objects.{event_in, event_of, of_kind, IsRefusal};

use base_types::{OutOfMemory, Text};
use event_json::Cleaner;
use event_model::{Fields, Kind, ReadFault, clean_tree};
use feed_rows::{ParseFault, fill_with_raw, json_note, key_note};
use serde_json::Value as Tree;
use std::alloc::Global;

/// The fault of what is no JSON text, or not what has to be there.
pub(crate) fn no_json(alloc: Global) -> ParseFault
    ensures { IsNoted json_note result }
{
    match json_note(alloc) {
        Ok(note) => ParseFault::Fault(note),
        Err(OutOfMemory) => ParseFault::OutOfMemory,
    }
}

// The fault of a bad field.
fn bad_field(alloc: Global, key: &Text) -> ParseFault
    ensures { IsNoted (key_note key.now) result }
{
    match key_note(alloc, key) {
        Ok(note) => ParseFault::Fault(note),
        Err(OutOfMemory) => ParseFault::OutOfMemory,
    }
}

/// The fault of what is no message.
pub(crate) fn refused(alloc: Global, fault: ReadFault) -> ParseFault
    ensures { IsRefusal fault result }
{
    match fault {
        ReadFault::Json | ReadFault::NotObject | ReadFault::Kind | ReadFault::Spelling => {
            no_json(alloc)
        }
        ReadFault::Field { key } => bad_field(alloc, &key),
        ReadFault::OutOfMemory => ParseFault::OutOfMemory,
    }
}

// The fields of an event with this text, over the report's other fields. A report is none.
fn of_kind(
    alloc: Global,
    others: &Fields,
    text: &[u8],
    kind: Kind,
    fields: Fields,
) -> Result<Fields, ParseFault>
    ensures { MatchResult result (λ event. of_kind (with_raw others.now text.now) kind fields ≡ Ok event)
        (IsFaultOf (of_kind (with_raw others.now text.now) kind fields)) }
{
    match kind {
        Kind::Report => Err(no_json(alloc)),
        Kind::Event => {
            let mut event = fields;
            fill_with_raw(alloc, &mut event, others, text)?;
            Ok(event)
        }
    }
}

/// The event of a tree with this text.
#[tactic(auto, unfolding(crate::specs::Objects::event_of))]
pub(crate) fn event_of(
    alloc: Global,
    others: &Fields,
    text: &[u8],
    tree: &Tree,
) -> Result<Fields, ParseFault>
    ensures { MatchResult result (λ event. event_of others.now text.now (view tree.now) ≡ Ok event) (IsFaultOf (event_of others.now text.now (view tree.now))) }
{
    match clean_tree(alloc, tree) {
        Ok(message) => of_kind(alloc, others, text, message.kind, message.fields),
        Err(fault) => Err(refused(alloc, fault)),
    }
}

/// The event of a text.
#[tactic(auto, using(crate::proofs::Readings::event_read))]
pub(crate) fn event_in(
    alloc: Global,
    cleaner: &mut Cleaner,
    others: &Fields,
    text: &[u8],
) -> Result<Fields, ParseFault>
    ensures { MatchResult result (λ event. event_in others.now text.now ≡ Ok event) (IsFaultOf (event_in others.now text.now)) }
{
    match cleaner.clean_message(alloc, text) {
        Ok(message) => of_kind(alloc, others, text, message.kind, message.fields),
        Err(fault) => Err(refused(alloc, fault)),
    }
}
