ghost use Rattle.std.specs.Prelude.{◌≡◌, ◌+◌, true, Some, option_map, slice_get};
ghost use Rattle.std.specs.FinMap.{is_sorted};
ghost use Rattle.std.specs.Ordering.{nat_cmp};
ghost use Rattle.std.specs.Cmp.Lexicographic.{slice_cmp};
ghost use Rattle.base_types.specs.Place.{is_above_all, IsPlace};

use field_types::{FieldKey, FieldName, Value};
use std::cmp::Ordering;
use std::marker::Model;

/// Where a name was found last, at which the next search looks first. Contracts see nothing of it.
#[derive(Drop)]
pub struct PlaceHint {
    pub(crate) at: usize,
}

impl Model for PlaceHint {
    ghost Value = { Unit {0} };

    ghost view = { λ _. tt };
}

impl PlaceHint {
    /// Nothing was found yet.
    pub fn new() -> Self {
        PlaceHint { at: usize::MAX }
    }
}

fn compare(pair: &(FieldName, Value), key: &FieldKey<'_>) -> Ordering
    ensures { result ≡ slice_cmp nat_cmp pair.now.0 key.now }
{
    pair.0.compare_key(key)
}

/// Where a name stands among pairs in byte order of their names, or else where it would stand.
pub fn place_of(pairs: &[(FieldName, Value)], key: &FieldKey<'_>) -> Result<usize, usize>
    requires { is_sorted (slice_cmp nat_cmp) pairs.now ≡ true }
    ensures { IsPlace key.now pairs.now result }
{
    pairs.binary_search_by(|pair| compare(pair, key))
}

// How the pair there compares with a name, if there is one.
fn compared(pairs: &[(FieldName, Value)], key: &FieldKey<'_>, i: usize) -> Option<Ordering>
    ensures { result ≡ option_map (λ pair. slice_cmp nat_cmp pair.0 key.now) (slice_get pairs.now i) }
{
    let pair = pairs.get(i)?;
    Some(compare(pair, key))
}

/// As `place_of`, with a look first at a pair that may be the name's, and at the one behind it.
pub fn place_near(
    pairs: &[(FieldName, Value)],
    key: &FieldKey<'_>,
    near: usize,
) -> Result<usize, usize>
    requires { is_sorted (slice_cmp nat_cmp) pairs.now ≡ true }
    ensures { IsPlace key.now pairs.now result }
{
    match compared(pairs, key, near) {
        Some(Ordering::Equal) => Ok(near),
        Some(Ordering::Less) => place_behind(pairs, key, near),
        Some(Ordering::Greater) | None => place_of(pairs, key),
    }
}

// The same for a name above that pair.
fn place_behind(pairs: &[(FieldName, Value)], key: &FieldKey<'_>, i: usize) -> Result<usize, usize>
    requires sorted { is_sorted (slice_cmp nat_cmp) pairs.now ≡ true }
    requires below { option_map (λ pair. slice_cmp nat_cmp pair.0 key.now) (slice_get pairs.now i) ≡ Some Ordering.Less }
    ensures { IsPlace key.now pairs.now result }
{
    match compared(pairs, key, i + 1) {
        Some(Ordering::Equal) => Ok(i + 1),
        Some(Ordering::Less) => place_of(pairs, key),
        Some(Ordering::Greater) => Err(i + 1),
        None => Err(i + 1),
    }
}

/// Whether a name is above all of pairs in byte order of their names: it is above the last.
pub fn is_above_all(pairs: &[(FieldName, Value)], key: &FieldName) -> bool
    requires { is_sorted (slice_cmp nat_cmp) pairs.now ≡ true }
    ensures { result ≡ is_above_all key.now pairs.now }
{
    match pairs.last() {
        Some(pair) => pair.0.compare(key).is_lt(),
        None => true,
    }
}
