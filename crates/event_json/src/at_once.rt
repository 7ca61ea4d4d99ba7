//! Members of a JSON object in byte order of their names, by where the names stand in the table of fields.
ghost use Rattle.std.specs.Prelude.{◌≡◌, true, IfOk, IfSome};
ghost use Rattle.std.specs.FinMap.{is_sorted};
ghost use Rattle.std.specs.Ordering.{nat_cmp};
ghost use Rattle.std.specs.Cmp.Lexicographic.{slice_cmp};
ghost use Rattle.base_types.specs.Place.{is_above_all};
ghost use Rattle.event_json.specs.Direct.{named_values, given_values, AreAmong, ReadsInOrder};

use crate::ordered::Member;
use base_types::OutOfMemory;
use field_types::FieldKey;
use json::Value;
use std::alloc::Global;

// One place for each row of the table of fields, one before them for `__type`, and one for a name that begins with `extra`.
// A wrong number here makes lines slower and nothing else: what the places give counts only if all names rise in it.
const PLACES: usize = 86;

// The first row of the table whose name is above those that begin with `extra`.
const ROW_BEHIND_EXTRA: u8 = 32;

// No member.
const NONE: u8 = u8::MAX;

// The place that is kept for a name. Places rise with the names of the table.
fn place(name: &FieldKey<'_>) -> u8 {
    match name.number() {
        Some(row) if row < ROW_BEHIND_EXTRA => row.saturating_add(1),
        Some(row) => row.saturating_add(2),
        None if name.as_str().starts_with("extra") => ROW_BEHIND_EXTRA + 1,
        None => 0,
    }
}

// Notes the member of a name at the place that is kept for the name.
fn note(places: &mut [u8; PLACES], name: &FieldKey<'_>, member: usize) {
    if let Some(place) = places.get_mut(usize::from(place(name))) {
        *place = u8::try_from(member).unwrap_or(NONE);
    }
}

// The members as the text has them, each noted at its place.
fn members_of<'m, 't>(
    alloc: Global,
    members: &'m [(&'t str, Value<'t>)],
    places: &mut [u8; PLACES],
) -> Result<Vec<Member<'m, 't>>, OutOfMemory>
    ensures { IfOk result (λ found. named_values found.items ≡ given_values members.now) }
{
    let mut found = Vec::with_capacity(alloc, members.len())?;
    let mut rest = members;
    'members: while let [member, more @ ..] = rest {
        let name = FieldKey::new(member.0);
        note(places, &name, found.len());
        found.push((name, &member.1))?;
        rest = more;
    }
    Ok(found)
}

// Whether a name is above those of members that are in order.
fn is_above(members: &[Member<'_, '_>], name: &FieldKey<'_>) -> bool
    requires { is_sorted (slice_cmp nat_cmp) (named_values members.now) ≡ true }
    ensures { result ≡ true → is_above_all name.now (named_values members.now) ≡ true }
{
    match members {
        [.., last] => last.0.compare(name).is_lt(),
        [] => true,
    }
}

// The members that the places have, if their names rise.
fn by_place<'m, 't>(
    alloc: Global,
    members: &[Member<'m, 't>],
    places: &[u8],
) -> Result<Option<Vec<Member<'m, 't>>>, OutOfMemory>
    ensures sorted { IfOk result (λ found. IfSome found (λ ms. is_sorted (slice_cmp nat_cmp) (named_values ms.items) ≡ true)) }
    ensures among { IfOk result (λ found. IfSome found (λ ms. AreAmong (named_values members.now) (named_values ms.items))) }
{
    let mut found = Vec::with_capacity(alloc, members.len())?;
    'places: for place in places {
        let Some(member) = members.get(usize::from(*place)) else {
            continue;
        };
        if !is_above(&found, &member.0) {
            return Ok(None);
        }
        found.push((member.0.clone()?, member.1))?;
    }
    Ok(Some(found))
}

/// The members in byte order of their names, where these are of the table but for one or two: nothing where that isn't found so.
pub fn at_once<'m, 't>(
    alloc: Global,
    members: &'m [(&'t str, Value<'t>)],
) -> Result<Option<Vec<Member<'m, 't>>>, OutOfMemory>
    ensures { IfOk result (λ found. IfSome found (λ ordered. ReadsInOrder members.now (named_values ordered.items))) }
{
    let mut places = [NONE; PLACES];
    let given = members_of(alloc, members, &mut places)?;
    let Some(found) = by_place(alloc, &given, &places)? else {
        return Ok(None);
    };
    if found.as_slice().len() != members.len() {
        return Ok(None);
    }
    Ok(Some(found))
}
