//! Compact texts of JSON values, as items of lists have them.
ghost use Rattle.std.specs.Prelude.{◌≡◌, ◌++◌, true, IfOk, OnOk};
ghost use Rattle.json.specs.Json.{number};
ghost use Rattle.event_model.specs.Trees.{comma};
ghost use Rattle.event_json.specs.CompactText.{PutsCompact, PutsObject, PutsPairs, PutsValues};
ghost use Rattle.event_json.specs.Direct.{named_values};
ghost use Rattle.event_json.specs.Quoted.{quoted_value, quoted_view, quoted_items_view, quoted_members_view};

use crate::numbers::{decimal_in, whole_in};
use crate::ordered::{Member, may_be_decimal, one_by_one};
use base_types::{OutOfMemory, push_flag, push_quoted};
use json::Value as Tree;
use std::alloc::Global;

// Puts a number behind `out`: a whole one in its digits, a decimal as it stands.
fn push_number(alloc: Global, out: &mut Vec<u8>, numeral: &str) -> Result<bool, OutOfMemory>
    ensures { IfOk result (λ taken. taken ≡ true → PutsCompact (quoted_value (number numeral.now)) out.old.items out.new.items) }
{
    if let Some(n) = whole_in(numeral) {
        let digits = format!(in alloc; "{n}")?;
        out.extend_from_slice(digits.as_bytes())?;
        return Ok(true);
    }
    match decimal_in(numeral) {
        Some(_) => {
            out.extend_from_slice(numeral.as_bytes())?;
            Ok(true)
        }
        None => Ok(false),
    }
}

// Puts a comma behind `out`, unless this is the first.
fn push_comma(out: &mut Vec<u8>, first: bool) -> Result<(), OutOfMemory>
    ensures { OnOk result (out.new.items ≡ out.old.items ++ comma first) }
{
    if !first {
        out.push(b',')?;
    }
    Ok(())
}

/// Puts the compact text of a value behind `out`, and answers whether all of it is of the usual forms: what it put
/// counts only then. It may nest so deep.
#[cycle(compact)]
pub fn push_compact<'m, 't>(
    alloc: Global,
    out: &mut Vec<u8>,
    value: &'m Tree<'t>,
    depth: usize,
) -> Result<bool, OutOfMemory>
    ensures { IfOk result (λ taken. taken ≡ true → PutsCompact (quoted_view value.now) out.old.items out.new.items) }
{
    match value {
        Tree::Null => {
            out.extend_from_slice(b"null")?;
            Ok(true)
        }
        Tree::Bool(flag) => {
            push_flag(out, *flag)?;
            Ok(true)
        }
        Tree::Number(numeral) => push_number(alloc, out, numeral),
        Tree::String(text) => {
            push_quoted(out, text.as_bytes())?;
            Ok(true)
        }
        Tree::Array(values) => push_values(alloc, out, values, depth),
        Tree::Object(members) => push_object(alloc, out, members, depth),
    }
}

/// The same of the values of an array.
#[cycle(compact)]
pub fn push_values<'m, 't>(
    alloc: Global,
    out: &mut Vec<u8>,
    values: &'m [Tree<'t>],
    depth: usize,
) -> Result<bool, OutOfMemory>
    ensures { IfOk result (λ taken. taken ≡ true → PutsValues (quoted_items_view values.now) out.old.items out.new.items) }
{
    if depth == 0 {
        return Ok(false);
    }
    out.push(b'[')?;
    let mut first = true;
    let mut rest = values;
    'values: while let [value, more @ ..] = rest {
        push_comma(out, first)?;
        if !push_compact(alloc, out, value, depth - 1)? {
            return Ok(false);
        }
        first = false;
        rest = more;
    }
    out.push(b']')?;
    Ok(true)
}

/// The same of an object that stands for no decimal.
#[cycle(compact)]
pub fn push_object<'m, 't>(
    alloc: Global,
    out: &mut Vec<u8>,
    members: &'m [(&'t str, Tree<'t>)],
    depth: usize,
) -> Result<bool, OutOfMemory>
    ensures { IfOk result (λ taken. taken ≡ true → PutsObject (quoted_members_view members.now) out.old.items out.new.items) }
{
    if depth == 0 {
        return Ok(false);
    }
    let Some(ordered) = one_by_one(alloc, members)? else {
        return Ok(false);
    };
    if may_be_decimal(&ordered) {
        return Ok(false);
    }
    push_pairs(alloc, out, &ordered, depth - 1)
}

#[cycle(compact)]
fn push_pairs<'m, 't>(
    alloc: Global,
    out: &mut Vec<u8>,
    members: &[Member<'m, 't>],
    depth: usize,
) -> Result<bool, OutOfMemory>
    ensures { IfOk result (λ taken. taken ≡ true → PutsPairs (named_values members.now) out.old.items out.new.items) }
{
    out.push(b'{')?;
    let mut first = true;
    let mut rest = members;
    'members: while let [member, more @ ..] = rest {
        push_comma(out, first)?;
        push_quoted(out, member.0.as_str().as_bytes())?;
        out.push(b':')?;
        if !push_compact(alloc, out, member.1, depth)? {
            return Ok(false);
        }
        first = false;
        rest = more;
    }
    out.push(b'}')?;
    Ok(true)
}
