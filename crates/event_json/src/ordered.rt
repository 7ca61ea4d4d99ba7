//! Members of a JSON object in byte order of their names.
ghost use Rattle.std.specs.Prelude.{◌≡◌, ◌≤◌, length, None, Some, true, false, IfOk, IfSome};
ghost use Rattle.std.specs.FinMap.{is_sorted};
ghost use Rattle.std.specs.Ordering.{nat_cmp};
ghost use Rattle.std.specs.Cmp.Lexicographic.{slice_cmp};
ghost use Rattle.base_types.specs.Place.{BelongsAt};
ghost use Rattle.event_model.specs.Trees.{lexeme_in};
ghost use Rattle.event_json.specs.Quoted.{quoted_view};
ghost use Rattle.event_json.specs.Direct.{data_members, named_values, PutsMember, ReadsInOrder};

use crate::at_once::at_once;
use base_types::OutOfMemory;
use field_types::FieldKey;
use json::Value;
use std::alloc::Global;
use std::cmp::Ordering;

/// A member of an object: its name and its value.
pub type Member<'m, 't> = (FieldKey<'t>, &'m Value<'t>);

const DEC_KEY: &str = "$dec";

// More members than this aren't put in order one by one, which takes quadratic time.
const MOST_MEMBERS: usize = 64;

fn compare(member: &Member<'_, '_>, name: &FieldKey<'_>) -> Ordering
    ensures { result ≡ slice_cmp nat_cmp member.now.0 name.now }
{
    member.0.compare(name)
}

// How many of members in byte order of their names stand before a name, if none has it. It looks from the end, since
// most names rise.
fn place_of(members: &[Member<'_, '_>], name: &FieldKey<'_>) -> Option<usize>
    requires { is_sorted (slice_cmp nat_cmp) (named_values members.now) ≡ true }
    ensures { IfSome result (BelongsAt name.now (named_values members.now)) }
{
    let mut rest = members;
    'members: while let [front @ .., last] = rest {
        match compare(last, name) {
            Ordering::Less => return Some(rest.len()),
            Ordering::Equal => return None,
            Ordering::Greater => rest = front,
        }
    }
    Some(0)
}

// Puts a member to its place, unless its name is there already.
fn put<'m, 't>(
    found: &mut Vec<Member<'m, 't>>,
    name: FieldKey<'t>,
    value: &'m Value<'t>,
) -> Result<bool, OutOfMemory>
    requires { is_sorted (slice_cmp nat_cmp) (named_values found.old.items) ≡ true }
    ensures { IfOk result (λ is_new. is_new ≡ true → PutsMember name.entry (quoted_view value.now) (named_values found.old.items) (named_values found.new.items)) }
{
    match place_of(found, &name) {
        Some(at) => {
            found.insert(at, (name, value))?;
            Ok(true)
        }
        None => Ok(false),
    }
}

/// The members in byte order of their names, put in order one by one: nothing where a name stands twice, or where there
/// are too many.
pub fn one_by_one<'m, 't>(
    alloc: Global,
    members: &'m [(&'t str, Value<'t>)],
) -> Result<Option<Vec<Member<'m, 't>>>, OutOfMemory>
    ensures { IfOk result (λ found. IfSome found (λ ordered. ReadsInOrder members.now (named_values ordered.items))) }
{
    if members.len() > MOST_MEMBERS {
        return Ok(None);
    }
    let mut found = Vec::with_capacity(alloc, members.len())?;
    let mut rest = members;
    'members: while let [member, more @ ..] = rest {
        if !put(&mut found, FieldKey::new(member.0), &member.1)? {
            return Ok(None);
        }
        rest = more;
    }
    Ok(Some(found))
}

/// The same. It is quicker where most names are of the table of fields.
pub fn in_order<'m, 't>(
    alloc: Global,
    members: &'m [(&'t str, Value<'t>)],
) -> Result<Option<Vec<Member<'m, 't>>>, OutOfMemory>
    ensures { IfOk result (λ found. IfSome found (λ ordered. ReadsInOrder members.now (named_values ordered.items))) }
{
    match at_once(alloc, members)? {
        Some(found) => Ok(Some(found)),
        None => one_by_one(alloc, members),
    }
}

/// Whether the members may be those of a decimal under quotes.
pub fn may_be_decimal(members: &[Member<'_, '_>]) -> bool
    ensures { result ≡ false → lexeme_in (data_members (named_values members.now)) ≡ None }
{
    match members {
        [member] => member.0.as_str() == DEC_KEY,
        _ => false,
    }
}
