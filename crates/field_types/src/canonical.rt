//! Whether values are canonical.
ghost use Rattle.std.specs.Prelude.{◌≡◌, ◌↔◌, IfOk, IsTrue, Option, Some};
ghost use Rattle.field_types.specs.declared.value.Value.{Value as AnyValue};
ghost use Rattle.field_types.specs.declared.value.Value.TheVariants as value;
ghost use Rattle.field_types.specs.Cleaning.{IsCleaned, IsOfKind};
ghost use Rattle.field_types.specs.Kept.{takes_items};

use crate::cleaning::{clean_decimal, clean_flag, clean_whole, takes_items};
use crate::texts::{Kept, keep};
use crate::{FieldFault, FieldType, Value};
use base_types::OutOfMemory;
use scalar_text::strip;
use std::alloc::Global;

// The value that cleaning gave, if it gave one.
fn given(cleaned: Result<Value, FieldFault>) -> Result<Option<Value>, OutOfMemory>
    ensures { (o : Option AnyValue) → IsCleaned o cleaned → IfOk result (λ value. value ≡ o) }
{
    match cleaned {
        Ok(value) => Ok(Some(value)),
        Err(FieldFault::BadValue) => Ok(None),
        Err(FieldFault::OutOfMemory) => Err(OutOfMemory),
    }
}

fn is_the_text(kept: &Value, text: &str) -> bool
    ensures { IsTrue result ↔ kept.now ≡ value.Text text.now }
{
    match kept {
        Value::Text(other) => other.as_str() == text,
        _ => false,
    }
}

fn is_the_whole(kept: Option<Value>, n: i64) -> bool
    ensures { IsTrue result ↔ kept ≡ Some (value.Whole n) }
{
    match kept {
        Some(Value::Whole(m)) => m == n,
        _ => false,
    }
}

fn is_the_flag(kept: Option<Value>, flag: bool) -> bool
    ensures { IsTrue result ↔ kept ≡ Some (value.Flag flag) }
{
    match kept {
        Some(Value::Flag(other)) => other == flag,
        _ => false,
    }
}

fn is_the_decimal(kept: Option<Value>, n: i64) -> bool
    ensures { IsTrue result ↔ kept ≡ Some (value.Decimal n) }
{
    match kept {
        Some(Value::Decimal(m)) => m == n,
        _ => false,
    }
}

fn is_canonical_text(alloc: Global, kind: FieldType, text: &str) -> Result<bool, OutOfMemory>
    ensures { IfOk result (λ is. IsTrue is ↔ IsOfKind kind (value.Text text.now)) }
{
    let stripped = strip(text);
    match keep(alloc, kind, stripped) {
        Ok(Kept::Same) => Ok(stripped.len() == text.len()),
        Ok(Kept::Other(value)) => Ok(is_the_text(&value, text)),
        Err(FieldFault::BadValue) => Ok(false),
        Err(FieldFault::OutOfMemory) => Err(OutOfMemory),
    }
}

/// Whether a value is canonical for a kind: cleaning doesn't change it.
pub fn is_canonical(alloc: Global, kind: FieldType, value: &Value) -> Result<bool, OutOfMemory>
    ensures { IfOk result (λ is. IsTrue is ↔ IsOfKind kind value.now) }
{
    match value {
        Value::Text(text) => is_canonical_text(alloc, kind, text.as_str()),
        Value::Whole(n) => Ok(is_the_whole(given(clean_whole(alloc, kind, *n))?, *n)),
        Value::Flag(flag) => Ok(is_the_flag(given(clean_flag(alloc, kind, *flag))?, *flag)),
        Value::Decimal(n) => Ok(is_the_decimal(given(clean_decimal(alloc, kind, *n))?, *n)),
        Value::List(items) => Ok(takes_items(kind, items.as_slice())),
    }
}
