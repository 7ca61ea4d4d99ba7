//! The compact text of a tree.
ghost use Rattle.std.specs.Prelude.{◌≡◌, ◌++◌, None, OnOk, IsErrOf};
ghost use Rattle.base_types.specs.JsonText.{quoted};
ghost use Rattle.serde_json.specs.View.{view, number_view, members_view, items_view};
ghost use Rattle.event_model.specs.Trees.{comma, compact, compact_items, compact_members, number_text, Appends, AppendsBetween};
ghost use Rattle.event_model.specs.declared.compact.NoText.TheVariants.{OutOfMemory};

use crate::tree::lexeme_in;
use base_types::push_quoted;
use serde_json::{Map, Number, Value as Tree};
use std::alloc::AllocError;

/// Why a tree has no compact text.
#[derive(Clone, Copy, Debug, PartialEq, Eq)]
pub enum NoText {
    /// It has a floating-point number.
    Float,
    OutOfMemory,
}

impl From<AllocError> for NoText {
    ghost from_gives = { λ _ why. why ≡ OutOfMemory };

    fn from(_: AllocError) -> Self {
        NoText::OutOfMemory
    }
}

impl From<base_types::OutOfMemory> for NoText {
    ghost from_gives = { λ _ why. why ≡ OutOfMemory };

    fn from(_: base_types::OutOfMemory) -> Self {
        NoText::OutOfMemory
    }
}

fn push_text(out: &mut Vec<u8>, text: &[u8]) -> Result<(), NoText>
    ensures text { OnOk result (out.new.items ≡ out.old.items ++ text.now) }
    ensures float { IsErrOf result NoText.Float → ⊥ }
{
    out.extend_from_slice(text)?;
    Ok(())
}

// Puts the digits of a whole number behind `out`.
fn push_number(out: &mut Vec<u8>, number: &Number) -> Result<(), NoText>
    ensures text { OnOk result (Appends (number_text (number_view number.now)) out.old.items out.new.items) }
    ensures float { IsErrOf result NoText.Float → number_text (number_view number.now) ≡ None }
{
    if let Some(n) = number.as_u64() {
        let text = format!(in *out.allocator(); "{n}")?;
        return push_text(out, text.as_bytes());
    }
    let Some(n) = number.as_i64() else {
        return Err(NoText::Float);
    };
    let text = format!(in *out.allocator(); "{n}")?;
    push_text(out, text.as_bytes())
}

fn push_string(out: &mut Vec<u8>, text: &[u8]) -> Result<(), NoText>
    ensures text { OnOk result (out.new.items ≡ out.old.items ++ quoted text.now) }
    ensures float { IsErrOf result NoText.Float → ⊥ }
{
    push_quoted(out, text)?;
    Ok(())
}

// Puts a comma behind `out`, unless this is the first.
fn push_comma(out: &mut Vec<u8>, first: bool) -> Result<(), NoText>
    ensures text { OnOk result (out.new.items ≡ out.old.items ++ comma first) }
    ensures float { IsErrOf result NoText.Float → ⊥ }
{
    if !first {
        push_text(out, b",")?;
    }
    Ok(())
}

/// Puts the compact text of a tree behind `out`: its JSON without blanks, its keys in byte order, and a decimal under
/// quotes as its number. Where it has none, a part of it may stand there.
#[cycle(compact)]
pub fn push_compact(out: &mut Vec<u8>, tree: &Tree) -> Result<(), NoText>
    ensures text { OnOk result (Appends (compact (view tree.now)) out.old.items out.new.items) }
    ensures float { IsErrOf result NoText.Float → compact (view tree.now) ≡ None }
{
    match tree {
        Tree::Null => push_text(out, b"null"),
        Tree::Bool(true) => push_text(out, b"true"),
        Tree::Bool(false) => push_text(out, b"false"),
        Tree::Number(number) => push_number(out, number),
        Tree::String(text) => push_string(out, text.as_bytes()),
        Tree::Array(items) => push_array(out, items),
        Tree::Object(members) => match lexeme_in(members) {
            Some(lexeme) => push_text(out, lexeme.as_bytes()),
            None => push_object(out, members),
        },
    }
}

#[cycle(compact)]
fn push_array(out: &mut Vec<u8>, items: &Vec<Tree>) -> Result<(), NoText>
    ensures text { OnOk result (AppendsBetween 91 93 (compact_items (items_view items.now.items)) out.old.items out.new.items) }
    ensures float { IsErrOf result NoText.Float → compact_items (items_view items.now.items) ≡ None }
{
    push_text(out, b"[")?;
    let mut first = true;
    'items: for item in items {
        push_comma(out, first)?;
        push_compact(out, item)?;
        first = false;
    }
    push_text(out, b"]")?;
    Ok(())
}

#[cycle(compact)]
fn push_object(out: &mut Vec<u8>, members: &Map<String, Tree>) -> Result<(), NoText>
    ensures text { OnOk result (AppendsBetween 123 125 (compact_members (members_view members.now.entries)) out.old.items out.new.items) }
    ensures float { IsErrOf result NoText.Float → compact_members (members_view members.now.entries) ≡ None }
{
    push_text(out, b"{")?;
    let mut first = true;
    'members: for (key, member) in members.iter() {
        push_comma(out, first)?;
        push_string(out, key.as_bytes())?;
        push_text(out, b":")?;
        push_compact(out, member)?;
        first = false;
    }
    push_text(out, b"}")?;
    Ok(())
}
