ghost use Rattle.std.specs.Prelude.{◌≡◌, List, ℕ, IfOk};
ghost use Rattle.std.specs.FinMap.{get};
ghost use Rattle.std.specs.List.{list_all, list_any};
ghost use Rattle.event_model.specs.Fields.{FieldMap};
ghost use Rattle.sieve_eval.specs.Holds.{holds};
ghost use Rattle.sieve_eval.specs.Says.{says_of};

use crate::saying::{Setting, says, says_of_none};
use base_types::OutOfMemory;
use event_model::Fields;
use field_types::FieldName;
use sieve_tree::{Cond, Test};
use std::alloc::Global;

fn says_of(
    alloc: Global,
    setting: &mut Setting,
    fields: &Fields,
    key: &FieldName,
    test: &Test,
) -> Result<bool, OutOfMemory>
    ensures value { IfOk result (λ holds. holds ≡ says_of setting.old.patterns setting.old.moment test.now (get fields.now key.now)) }
    ensures same { setting.new ≡ setting.old }
{
    match fields.get_near(key, &mut setting.place) {
        Some(value) => says(alloc, setting, test, value),
        None => Ok(says_of_none(test)),
    }
}

// The condition in a row of one, which holds where the row does.
fn only(cond: &Cond) -> &Cond
    ensures { (patterns : List (List ℕ)) (now : ℕ) (fields : FieldMap) → holds patterns now fields result.now ≡ holds patterns now fields cond.now }
{
    match cond {
        Cond::Any(inner) => match inner.as_slice() {
            [one] => one,
            _ => cond,
        },
        Cond::All(inner) => match inner.as_slice() {
            [one] => one,
            _ => cond,
        },
        _ => cond,
    }
}

/// Whether the condition of a case holds of an event. Most are one test, as a row of one in a row of one.
pub fn case_holds(
    alloc: Global,
    setting: &mut Setting,
    fields: &Fields,
    cond: &Cond,
) -> Result<bool, OutOfMemory>
    ensures value { IfOk result (λ is. is ≡ holds setting.old.patterns setting.old.moment fields.now cond.now) }
    ensures same { setting.new ≡ setting.old }
{
    holds(alloc, setting, fields, only(only(cond)))
}

// Whether a condition holds of an event.
#[cycle(conditions)]
fn holds(
    alloc: Global,
    setting: &mut Setting,
    fields: &Fields,
    cond: &Cond,
) -> Result<bool, OutOfMemory>
    ensures value { IfOk result (λ is. is ≡ holds setting.old.patterns setting.old.moment fields.now cond.now) }
    ensures same { setting.new ≡ setting.old }
{
    match cond {
        Cond::Any(inner) => any_holds(alloc, setting, fields, inner.as_slice()),
        Cond::All(inner) => all_hold(alloc, setting, fields, inner.as_slice()),
        Cond::Not(inner) => match holds(alloc, setting, fields, inner.get()) {
            Ok(is) => Ok(!is),
            Err(e) => Err(e),
        },
        Cond::Test { key, test } => says_of(alloc, setting, fields, key, test),
    }
}

#[cycle(conditions)]
fn any_holds(
    alloc: Global,
    setting: &mut Setting,
    fields: &Fields,
    conds: &[Cond],
) -> Result<bool, OutOfMemory>
    ensures value { IfOk result (λ is. is ≡ list_any (holds setting.old.patterns setting.old.moment fields.now) conds.now) }
    ensures same { setting.new ≡ setting.old }
{
    'conds: for cond in conds {
        match holds(alloc, setting, fields, cond) {
            Ok(true) => return Ok(true),
            Ok(false) => {}
            Err(e) => return Err(e),
        }
    }
    Ok(false)
}

#[cycle(conditions)]
fn all_hold(
    alloc: Global,
    setting: &mut Setting,
    fields: &Fields,
    conds: &[Cond],
) -> Result<bool, OutOfMemory>
    ensures value { IfOk result (λ is. is ≡ list_all (holds setting.old.patterns setting.old.moment fields.now) conds.now) }
    ensures same { setting.new ≡ setting.old }
{
    'conds: for cond in conds {
        match holds(alloc, setting, fields, cond) {
            Ok(true) => {}
            Ok(false) => return Ok(false),
            Err(e) => return Err(e),
        }
    }
    Ok(true)
}
