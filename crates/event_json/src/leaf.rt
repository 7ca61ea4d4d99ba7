//! What the values of JSON members put into a canonical text.
ghost use Rattle.std.specs.Prelude.{◌≡◌, ◌∷◌, [], true, flat_map, Some, IfOk, IfSome, slice_index, string_bytes};
ghost use Rattle.json.specs.Json.{number, object};
ghost use Rattle.event_json.specs.Quoted.{quoted_value, quoted_view, quoted_members_view};
ghost use Rattle.serde_json.specs.Data.{string};
ghost use Rattle.event_model.specs.Fields.{IsField};
ghost use Rattle.event_model.specs.Lenient.{member_name};
ghost use Rattle.field_types.specs.Cleaning.{of_text};
ghost use Rattle.field_types.specs.Field.{type_of};
ghost use Rattle.field_types.specs.Kept.{kept_value, IsKeptAs};
ghost use Rattle.base_types.specs.JsonText.{escaped};
ghost use Rattle.event_json.specs.Direct.{named_values, is_extra, PutsCleaned, PutsKept, PutsLeaves, PutsValue, PutsTree, PutsMembers};

use crate::line::Line;
use crate::list_items::{items_of, quoted_decimal};
use crate::numbers::{decimal_in, whole_in};
use crate::ordered::{Member, may_be_decimal, one_by_one};
use base_types::OutOfMemory;
use event_model::{flattens, is_dropped_text};
use field_types::{FieldFault, FieldKey, FieldType, Kept, Value, keep, sanitise_own};
use json::Value as Tree;
use scalar_text::strip;
use std::alloc::Global;

// No field has a longer name.
const LONGEST_NAME: usize = 206;

fn is_extra(kind: FieldType) -> bool
    ensures { result ≡ is_extra kind }
{
    match kind {
        FieldType::Extra => true,
        _ => false,
    }
}

// Whether a field is one of the table. Their names stand in JSON strings as they are.
fn is_of_table(key: &FieldKey<'_>, kind: FieldType) -> bool
    requires { type_of key.now ≡ Some kind }
    ensures { result ≡ true → flat_map escaped key.now ≡ key.now }
{
    !is_extra(kind)
}

// Puts a field with what cleaning gave.
fn push_cleaned(
    alloc: Global,
    key: &FieldKey<'_>,
    plain: bool,
    cleaned: Result<Value, FieldFault>,
    line: &mut Line,
) -> Result<bool, OutOfMemory>
    requires plain { plain ≡ true → flat_map escaped key.now ≡ key.now }
    requires field { IfOk cleaned (IsField key.now) }
    ensures { IfOk result (λ taken. taken ≡ true → PutsCleaned key.now cleaned line.old line.new) }
{
    match cleaned {
        Ok(value) => line.push(alloc, key, plain, value),
        Err(FieldFault::BadValue) => Ok(false),
        Err(FieldFault::OutOfMemory) => Err(OutOfMemory),
    }
}

// Puts a field with its canonical value for a value.
fn push_value(
    alloc: Global,
    key: &FieldKey<'_>,
    value: Value,
    line: &mut Line,
) -> Result<bool, OutOfMemory>
    ensures { IfOk result (λ taken. taken ≡ true → PutsValue key.now value line.old line.new) }
{
    let Some(kind) = key.kind() else {
        return Ok(false);
    };
    push_cleaned(
        alloc,
        key,
        is_of_table(key, kind),
        sanitise_own(alloc, kind, value),
        line,
    )
}

// Puts a field with the number that a numeral writes.
fn push_number(
    alloc: Global,
    key: &FieldKey<'_>,
    numeral: &str,
    line: &mut Line,
) -> Result<bool, OutOfMemory>
    ensures { IfOk result (λ taken. taken ≡ true → PutsTree key.now (quoted_value (number numeral.now)) line.old line.new) }
{
    if let Some(n) = whole_in(numeral) {
        return push_value(alloc, key, Value::Whole(n), line);
    }
    match decimal_in(numeral) {
        Some(n) => push_value(alloc, key, Value::Decimal(n), line),
        None => Ok(false),
    }
}

// Puts a field with what its kind made of a stripped text, which isn't copied before.
fn push_kept(
    alloc: Global,
    key: &FieldKey<'_>,
    plain: bool,
    text: &str,
    kept: Result<Kept, FieldFault>,
    line: &mut Line,
) -> Result<bool, OutOfMemory>
    requires plain { plain ≡ true → flat_map escaped key.now ≡ key.now }
    requires field { IfOk kept (λ made. IsField key.now (kept_value text.now made)) }
    ensures { IfOk result (λ taken. taken ≡ true → PutsKept key.now text.now kept line.old line.new) }
{
    match kept {
        Ok(Kept::Same) => line.push_text(alloc, key, plain, text),
        Ok(Kept::Other(value)) => line.push(alloc, key, plain, value),
        Err(FieldFault::BadValue) => Ok(false),
        Err(FieldFault::OutOfMemory) => Err(OutOfMemory),
    }
}

// Puts a field with its canonical value for a text.
fn push_text(
    alloc: Global,
    key: &FieldKey<'_>,
    text: &str,
    line: &mut Line,
) -> Result<bool, OutOfMemory>
    ensures { IfOk result (λ taken. taken ≡ true → PutsLeaves ((key.now, string text.now) ∷ []) line.old line.new) }
{
    let stripped = strip(text);
    if is_dropped_text(stripped) {
        return Ok(true);
    }
    let Some(kind) = key.kind() else {
        return Ok(false);
    };
    push_kept(
        alloc,
        key,
        is_of_table(key, kind),
        stripped,
        keep(alloc, kind, stripped),
        line,
    )
}

// The name of a member of an object that is flattened, if it isn't longer than those of fields.
fn member_name(alloc: Global, key: &str, inner: &str) -> Result<Option<String>, OutOfMemory>
    ensures { IfOk result (λ found. IfSome found (λ name. string_bytes name ≡ member_name key.now inner.now)) }
{
    if key.len() > LONGEST_NAME || inner.len() > LONGEST_NAME {
        return Ok(None);
    }
    let mut name = String::with_capacity(alloc, key.len() + inner.len() + 1)?;
    name.push_str(key)?;
    name.push('.')?;
    name.push_str(inner)?;
    Ok(Some(name))
}

/// Puts the fields that a value under this name sets, and answers whether all of it is of the usual forms and names rise:
/// what it put counts only then. Objects may nest so deep.
#[cycle(direct)]
pub fn push_tree<'m, 't>(
    alloc: Global,
    key: &FieldKey<'_>,
    value: &'m Tree<'t>,
    depth: usize,
    line: &mut Line,
) -> Result<bool, OutOfMemory>
    ensures { IfOk result (λ taken. taken ≡ true → PutsTree key.now (quoted_view value.now) line.old line.new) }
{
    match value {
        Tree::Null => Ok(true),
        Tree::String(text) => push_text(alloc, key, text, line),
        Tree::Bool(flag) => push_value(alloc, key, Value::Flag(*flag), line),
        Tree::Number(numeral) => push_number(alloc, key, numeral, line),
        Tree::Array(values) => match items_of(alloc, values)? {
            Some(items) => push_value(alloc, key, Value::List(items), line),
            None => Ok(false),
        },
        Tree::Object(members) => push_object(alloc, key, members, depth, line),
    }
}

#[cycle(direct)]
fn push_object<'m, 't>(
    alloc: Global,
    key: &FieldKey<'_>,
    members: &'m [(&'t str, Tree<'t>)],
    depth: usize,
    line: &mut Line,
) -> Result<bool, OutOfMemory>
    ensures { IfOk result (λ taken. taken ≡ true → PutsTree key.now (object (quoted_members_view members.now)) line.old line.new) }
{
    if let [member] = members {
        if let Some(n) = quoted_decimal(member.0, &member.1) {
            return push_value(alloc, key, Value::Decimal(n), line);
        }
    }
    if depth == 0 || !flattens(key.as_str().as_bytes()) {
        return Ok(false);
    }
    let Some(ordered) = one_by_one(alloc, members)? else {
        return Ok(false);
    };
    if may_be_decimal(&ordered) {
        return Ok(false);
    }
    push_members(alloc, key, &ordered, depth - 1, line)
}

#[cycle(direct)]
fn push_members<'m, 't>(
    alloc: Global,
    key: &FieldKey<'_>,
    members: &[Member<'m, 't>],
    depth: usize,
    line: &mut Line,
) -> Result<bool, OutOfMemory>
    ensures { IfOk result (λ taken. taken ≡ true → PutsMembers key.now (named_values members.now) line.old line.new) }
{
    let mut rest = members;
    'members: while let [member, more @ ..] = rest {
        let Some(name) = member_name(alloc, key.as_str(), member.0.as_str())? else {
            return Ok(false);
        };
        if !push_tree(alloc, &FieldKey::new(&name), member.1, depth, line)? {
            return Ok(false);
        }
        rest = more;
    }
    Ok(true)
}
