ghost use Rattle.std.specs.Prelude.{◌≡◌, is_some, IfOk, OnOk, if◌then◌else◌};
ghost use Rattle.std.specs.FinMap.{get, insert};
ghost use Rattle.event_model.specs.Fields.{IsField};
ghost use Rattle.expert_rules.specs.Enrich.{joined, union};

use base_types::OutOfMemory;
use event_model::Fields;
use field_types::{FieldName, Value};
use std::alloc::Global;

fn set(alloc: Global, fields: &mut Fields, pair: &(FieldName, Value)) -> Result<(), OutOfMemory>
    requires { IsField pair.now.0 pair.now.1 }
    ensures { OnOk result (fields.new ≡ insert fields.old pair.now.0 pair.now.1) }
{
    let name = pair.0.copy(alloc)?;
    let value = pair.1.copy(alloc)?;
    fields.put_named(name, value)
}

// Sets a field that is absent.
fn add(alloc: Global, fields: &mut Fields, pair: &(FieldName, Value)) -> Result<(), OutOfMemory>
    requires { IsField pair.now.0 pair.now.1 }
    ensures { OnOk result (fields.new ≡ (if is_some (get fields.old pair.now.0) then fields.old else insert fields.old pair.now.0 pair.now.1)) }
{
    if fields.get_named(&pair.0).is_some() {
        return Ok(());
    }
    set(alloc, fields, pair)
}

/// Sets each of the set.
pub fn set_all(alloc: Global, fields: &mut Fields, others: &Fields) -> Result<(), OutOfMemory>
    ensures { OnOk result (fields.new ≡ union others.now fields.old) }
{
    let pairs = others.pairs();
    let mut left = pairs.len();
    'pairs: while left > 0 {
        left -= 1;
        set(alloc, fields, &pairs[left])?;
    }
    Ok(())
}

/// Sets each of the set that is absent.
pub fn set_absent(alloc: Global, fields: &mut Fields, others: &Fields) -> Result<(), OutOfMemory>
    ensures { OnOk result (fields.new ≡ union fields.old others.now) }
{
    'pairs: for pair in others.pairs() {
        add(alloc, fields, pair)?;
    }
    Ok(())
}

/// Sets each of the set, or with `overwrite` false each that is absent.
pub fn join(
    alloc: Global,
    overwrite: bool,
    others: &Fields,
    fields: &mut Fields,
) -> Result<(), OutOfMemory>
    ensures { OnOk result (fields.new ≡ joined overwrite others.now fields.old) }
{
    if overwrite {
        set_all(alloc, fields, others)
    } else {
        set_absent(alloc, fields, others)
    }
}
