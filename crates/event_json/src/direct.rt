//! The message that a usual JSON text is, or its canonical text without the message.
ghost use Rattle.std.specs.Prelude.{◌≡◌, true, Some, IfOk, IfSome};
ghost use Rattle.serde_json.specs.Find.{get_member};
ghost use Rattle.event_model.specs.Lenient.{kind_of, type_key};
ghost use Rattle.event_json.specs.Quoted.{quoted_view, quoted_members_view};
ghost use Rattle.event_json.specs.Direct.{data_members, named_values, kind_in, ended, HasText, IsMessageOf, ReadsAs, PutsAt, PutsAll};

use crate::leaf::push_tree;
use crate::line::Line;
use crate::members::object_in;
use crate::ordered::{Member, in_order, may_be_decimal};
use base_types::OutOfMemory;
use event_model::{Kind, kind_of_word};
use field_types::FieldKey;
use json::{Scratch, Value as Tree};
use std::alloc::Global;

const TYPE_KEY: &str = "__type";

// Objects of fields nest less.
const FIELD_DEPTH: usize = 16;

// The kind that a value under `__type` says.
fn kind_of_value(value: &Tree<'_>) -> Option<Kind>
    ensures { IfSome result (λ kind. kind_in (quoted_view value.now) ≡ Some kind) }
{
    match value {
        Tree::String(word) => kind_of_word(word),
        _ => None,
    }
}

// An event, or what the word under `__type` says.
fn kind_of(members: &[Member<'_, '_>]) -> Option<Kind>
    ensures { IfSome result (λ kind. kind_of (get_member type_key (data_members (named_values members.now))) ≡ Some kind) }
{
    let mut rest = members;
    'members: while let [member, more @ ..] = rest {
        if member.0.as_str() == TYPE_KEY {
            return kind_of_value(member.1);
        }
        rest = more;
    }
    Some(Kind::Event)
}

// Puts what a member of a message sets, which its kind doesn't.
fn push_member<'m, 't>(
    alloc: Global,
    name: &FieldKey<'_>,
    value: &'m Tree<'t>,
    line: &mut Line,
) -> Result<bool, OutOfMemory>
    ensures { IfOk result (λ taken. taken ≡ true → PutsAt name.now (quoted_view value.now) line.old line.new) }
{
    if name.as_str() == TYPE_KEY {
        return Ok(matches!(value, Tree::String(_)));
    }
    push_tree(alloc, name, value, FIELD_DEPTH, line)
}

fn push_all<'m, 't>(
    alloc: Global,
    members: &[Member<'m, 't>],
    line: &mut Line,
) -> Result<bool, OutOfMemory>
    ensures { IfOk result (λ taken. taken ≡ true → PutsAll (named_values members.now) line.old line.new) }
{
    let mut rest = members;
    'members: while let [member, more @ ..] = rest {
        if !push_member(alloc, &member.0, member.1, line)? {
            return Ok(false);
        }
        rest = more;
    }
    Ok(true)
}

// Makes the line the message of an object's members, or its text.
fn write_members<'m, 't>(
    alloc: Global,
    members: &'m [(&'t str, Tree<'t>)],
    line: &mut Line,
) -> Result<bool, OutOfMemory>
    ensures { IfOk result (λ taken. taken ≡ true → HasText (IsMessageOf (quoted_members_view members.now)) (ended line.new)) }
{
    let Some(ordered) = in_order(alloc, members)? else {
        return Ok(false);
    };
    if may_be_decimal(&ordered) {
        return Ok(false);
    }
    let Some(kind) = kind_of(&ordered) else {
        return Ok(false);
    };
    // A field a member, in most objects, and the content that parsers add.
    line.begin(alloc, kind, ordered.len().saturating_add(1))?;
    if !push_all(alloc, &ordered, line)? {
        return Ok(false);
    }
    Ok(true)
}

/// Makes the line the message that a JSON text is, or its canonical text, and answers whether the text is one of the
/// usual forms: where it isn't, the line is of no use.
pub fn write_text(
    alloc: Global,
    text: &str,
    scratch: &mut Scratch,
    line: &mut Line,
) -> Result<bool, OutOfMemory>
    ensures { IfOk result (λ taken. taken ≡ true → HasText (ReadsAs text.now) (ended line.new)) }
{
    let Some(members) = object_in(alloc, text, scratch)? else {
        return Ok(false);
    };
    write_members(alloc, &members, line)
}
