ghost use Rattle.std.specs.Prelude.{◌≡◌, None, IfOk, OnOk};
ghost use Rattle.std.specs.FinMap.{get};
ghost use Rattle.event_model.specs.Fields.{IsField};
ghost use Rattle.field_types.specs.declared.value.Value.TheVariants as value;
ghost use Rattle.scalar_text.specs.Raw.{raw_text};
ghost use Rattle.feed_rows.specs.Reports.{content_in, filled, others, put_absent, raw_bytes, raw_key, with_raw};

use base_types::{Blob, OutOfMemory, ScalarFault, Text, TextList};
use event_model::Fields;
use field_types::{FieldName, Value};
use scalar_text::{read_raw, write_raw};
use std::alloc::Global;

fn raw_key(alloc: Global) -> Result<Text, OutOfMemory>
    ensures { IfOk result (λ key. key ≡ raw_key) }
{
    Ok(Text::from(String::from_str(alloc, "raw")?))
}

// The same as the name of a field. It takes no memory.
fn raw_name(alloc: Global) -> Result<FieldName, OutOfMemory>
    ensures { IfOk result (λ name. name ≡ raw_key) }
{
    FieldName::new(alloc, "raw")
}

// The bytes that a value writes in base64.
fn raw_bytes(alloc: Global, value: &Value) -> Result<Option<Blob>, OutOfMemory>
    ensures { IfOk result (λ bytes. bytes ≡ raw_bytes value.now) }
{
    let Value::Text(text) = value else {
        return Ok(None);
    };
    match read_raw(alloc, text.bytes()) {
        Ok(bytes) => Ok(Some(bytes)),
        Err(ScalarFault::Bad) => Ok(None),
        Err(ScalarFault::OutOfMemory) => Err(OutOfMemory),
    }
}

/// The content of a report, which its `raw` writes in base64: `None` exactly where it has no `raw`.
#[tactic(auto, unfolding(crate::specs::Reports::content_in))]
pub fn content(alloc: Global, report: &Fields) -> Result<Option<Blob>, OutOfMemory>
    ensures content { IfOk result (λ content. content ≡ content_in report.now) }
    ensures absent { IfOk result (λ content. content ≡ None → get report.now raw_key ≡ None) }
{
    let key = raw_key(alloc)?;
    match report.get(&key) {
        Some(value) => raw_bytes(alloc, value),
        None => Ok(None),
    }
}

/// The fields of a report but `raw`, which isn't copied.
#[tactic(auto, unfolding(crate::specs::Reports::others))]
pub fn others(alloc: Global, report: &Fields) -> Result<Fields, OutOfMemory>
    ensures { IfOk result (λ fields. fields ≡ others report.now) }
{
    let mut names = Vec::new(alloc);
    names.push(raw_key(alloc)?)?;
    report.restrict(alloc, &TextList::from(names), false)
}

/// A copy of these fields with this content as their `raw`.
pub fn with_raw(alloc: Global, fields: &Fields, content: &[u8]) -> Result<Fields, OutOfMemory>
    ensures { IfOk result (λ made. made ≡ with_raw fields.now content.now) }
{
    with_raw_and_room(alloc, fields, content, 0)
}

/// The same, with room for so many more fields.
#[tactic(auto, unfolding(crate::specs::Reports::with_raw))]
pub fn with_raw_and_room(
    alloc: Global,
    fields: &Fields,
    content: &[u8],
    more: usize,
) -> Result<Fields, OutOfMemory>
    ensures { IfOk result (λ made. made ≡ with_raw fields.now content.now) }
{
    let mut made = fields.copy_with_room(alloc, more.saturating_add(1))?;
    let text = write_raw(alloc, content)?;
    made.put_named(raw_name(alloc)?, Value::Text(text))?;
    Ok(made)
}

// Sets a field that is absent.
fn put_absent(
    alloc: Global,
    fields: &mut Fields,
    pair: &(FieldName, Value),
) -> Result<(), OutOfMemory>
    requires { IsField pair.now.0 pair.now.1 }
    ensures { OnOk result (fields.new ≡ put_absent pair.now fields.old) }
{
    if fields.get_named(&pair.0).is_some() {
        return Ok(());
    }
    fields.put_named(pair.0.copy(alloc)?, pair.1.copy(alloc)?)
}

/// Sets those of the other fields that are absent.
pub fn fill(alloc: Global, fields: &mut Fields, others: &Fields) -> Result<(), OutOfMemory>
    ensures { OnOk result (fields.new ≡ filled others.now fields.old) }
{
    'pairs: for pair in others.pairs() {
        put_absent(alloc, fields, pair)?;
    }
    Ok(())
}

// Sets `raw` to this content where it is absent.
fn put_absent_raw(alloc: Global, fields: &mut Fields, content: &[u8]) -> Result<(), OutOfMemory>
    ensures { OnOk result (fields.new ≡ put_absent (raw_key, value.Text (raw_text content.now)) fields.old) }
{
    let name = raw_name(alloc)?;
    if fields.get_named(&name).is_some() {
        return Ok(());
    }
    let text = write_raw(alloc, content)?;
    fields.put_named(name, Value::Text(text))
}

/// Sets those of the other fields that are absent, with this content as their `raw`.
pub fn fill_with_raw(
    alloc: Global,
    fields: &mut Fields,
    others: &Fields,
    content: &[u8],
) -> Result<(), OutOfMemory>
    ensures { OnOk result (fields.new ≡ filled (with_raw others.now content.now) fields.old) }
{
    put_absent_raw(alloc, fields, content)?;
    fill(alloc, fields, others)?;
    Ok(())
}
