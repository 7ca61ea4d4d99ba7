ghost use Rattle.std.specs.Prelude.{◌≡◌, ◌<◌, length, IfOk, IfSome};
ghost use Rattle.expert_rules.specs.Enrich.{address_of, row_for, joined, enriched};

use crate::setting::join;
use crate::word::text_of;
use base_types::{ListOf, OutOfMemory};
use event_model::Fields;
use field_types::Value;
use prefix_table::PrefixTable;
use scalar_net::{Ip, read_ip};
use std::alloc::Global;

pub type FieldsList = ListOf<Fields>;

// The address that a value is.
fn address_of(value: &Value) -> Option<Ip>
    ensures { result ≡ address_of value.now }
{
    match value {
        Value::Text(text) => match read_ip(text.bytes()) {
            Ok(ip) => Some(ip),
            Err(_) => None,
        },
        _ => None,
    }
}

// The row of the longest network that holds the event's source.
fn row_for(alloc: Global, table: &PrefixTable, fields: &Fields) -> Result<Option<u32>, OutOfMemory>
    ensures row { IfOk result (λ row. row ≡ row_for table.now fields.now) }
    ensures within { IfOk result (λ row. IfSome row (λ i. i < length table.now)) }
{
    let key = text_of(alloc, "source.ip")?;
    let Some(value) = fields.get(&key) else {
        return Ok(None);
    };
    let Some(ip) = address_of(value) else {
        return Ok(None);
    };
    Ok(table.find(&ip))
}

fn joined(
    alloc: Global,
    overwrite: bool,
    others: &Fields,
    fields: &Fields,
) -> Result<Fields, OutOfMemory>
    ensures { IfOk result (λ both. both ≡ joined overwrite others.now fields.now) }
{
    let mut both = fields.copy(alloc)?;
    join(alloc, overwrite, others, &mut both)?;
    Ok(both)
}

/// The fields with those of the longest network that holds their `source.ip`: each where it is absent or, with
/// `overwrite`, in any case. Where no network holds it, and where there is no `source.ip`, the fields alone.
pub fn enrich(
    alloc: Global,
    table: &PrefixTable,
    sets: &FieldsList,
    overwrite: bool,
    fields: &Fields,
) -> Result<Fields, OutOfMemory>
    requires { length sets.now ≡ length table.now }
    ensures { IfOk result (λ found. found ≡ enriched table.now sets.now overwrite fields.now) }
{
    match row_for(alloc, table, fields)? {
        Some(row) => joined(alloc, overwrite, sets.at(row as usize), fields),
        None => fields.copy(alloc),
    }
}
