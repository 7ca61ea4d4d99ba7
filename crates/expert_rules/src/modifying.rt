ghost use Rattle.std.specs.Prelude.{◌≡◌, ◌<◌, length, slice_get, Some, IfOk, OnOk};
ghost use Rattle.expert_rules.specs.Modify.{after, is_over, limit, modified, one_less, IsAfter};

use crate::setting::join;
use base_types::OutOfMemory;
use event_model::{Fields, PlaceHint};
use expert_modify::PreparedRules;
use std::alloc::Global;

// How the run of rules stands.
#[derive(Drop)]
struct Standing {
    // How many more rules may match, where there is a limit.
    left: Option<u32>,
    fields: Fields,
}

// 0 is no limit.
fn limit(most: u32) -> Option<u32>
    ensures { result ≡ limit most }
{
    if most == 0 { None } else { Some(most) }
}

fn is_over(left: Option<u32>) -> bool
    ensures { result ≡ is_over left }
{
    match left {
        Some(n) => n == 0,
        None => false,
    }
}

fn one_less(left: Option<u32>) -> Option<u32>
    ensures { result ≡ one_less left }
{
    match left {
        Some(n) => Some(n.saturating_sub(1)),
        None => None,
    }
}

// Sets the fields of a rule, if it matches.
fn apply(
    alloc: Global,
    rules: &mut PreparedRules,
    i: usize,
    overwrite: bool,
    standing: &mut Standing,
    place: &mut PlaceHint,
) -> Result<(), OutOfMemory>
    requires { i < length rules.old }
    ensures after { OnOk result (IsAfter overwrite (slice_get rules.old i) standing.old standing.new) }
    ensures same { rules.new ≡ rules.old }
{
    if !rules.meets(alloc, i, &standing.fields, place)? {
        return Ok(());
    }
    standing.left = one_less(standing.left);
    join(alloc, overwrite, rules.sets(i), &mut standing.fields)
}

/// What the rules make of an event's fields. They are tried in order, on the fields as they stand then; a rule that matches sets
/// its fields, each in any case or with `overwrite` false where it is absent. After `most` rules that matched no other is tried;
/// 0 is no limit. The rules stay.
#[tactic(auto, unfolding(crate::specs::Modify::modified))]
pub fn modify(
    alloc: Global,
    rules: &mut PreparedRules,
    overwrite: bool,
    most: u32,
    fields: &Fields,
) -> Result<Fields, OutOfMemory>
    ensures modified { IfOk result (λ made. made ≡ modified rules.old overwrite most fields.now) }
    ensures same { rules.new ≡ rules.old }
{
    let mut standing = Standing {
        left: limit(most),
        fields: fields.copy(alloc)?,
    };
    let mut place = PlaceHint::new();
    let mut i = 0;
    'rules: while i < rules.len() && !is_over(standing.left) {
        apply(alloc, rules, i, overwrite, &mut standing, &mut place)?;
        i += 1;
    }
    Ok(standing.fields)
}
