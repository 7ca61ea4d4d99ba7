ghost use Rattle.std.specs.Prelude.{◌≡◌, List, ℕ, Some};
ghost use Rattle.std.specs.List.{list_all};
ghost use Rattle.field_types.specs.declared.kind.FieldType.TheVariants as kind;
ghost use Rattle.field_types.specs.declared.value.Value.{Value as AnyValue};
ghost use Rattle.field_types.specs.declared.value.Value.TheVariants as value;
ghost use Rattle.field_types.specs.Cleaning.{clean, is_extra_item, is_short, IsCleaned, IsOfKind};
ghost use Rattle.field_types.specs.Kept.{takes_words, takes_items};
ghost use Rattle.base_types.specs.JsonText.{flag_word};

use crate::texts::{Kept, is_accuracy, keep};
use crate::value::copy_items;
use crate::{FieldFault, FieldType, Item, ItemList, Value};
use base_types::{Text, flag_word};
use scalar_text::{print_decimal, strip};
use std::alloc::Global;

const MILLION: i64 = 1_000_000;

fn copy_of(alloc: Global, text: &str) -> Result<Value, FieldFault>
    ensures { IsCleaned (Some (value.Text text.now)) result }
{
    Ok(Value::Text(Text::from(String::from_str(alloc, text)?)))
}

/// The canonical value of a kind for a text; `BadValue` exactly where it has none.
pub fn sanitise_text(alloc: Global, kind: FieldType, text: &str) -> Result<Value, FieldFault>
    ensures { IsCleaned (clean kind (value.Text text.now)) result }
{
    let stripped = strip(text);
    match keep(alloc, kind, stripped) {
        Ok(Kept::Same) => copy_of(alloc, stripped),
        Ok(Kept::Other(value)) => Ok(value),
        Err(fault) => Err(fault),
    }
}

// The same for a text that may be kept itself.
fn clean_text(alloc: Global, kind: FieldType, text: Text) -> Result<Value, FieldFault>
    ensures { IsCleaned (clean kind (value.Text text)) result }
{
    let stripped = strip(text.as_str());
    let is_whole = stripped.len() == text.as_str().len();
    match keep(alloc, kind, stripped) {
        Ok(Kept::Same) if is_whole => Ok(Value::Text(text)),
        Ok(Kept::Same) => copy_of(alloc, stripped),
        Ok(Kept::Other(value)) => Ok(value),
        Err(fault) => Err(fault),
    }
}

// Whether it has at most 18 digits.
fn is_short(n: i64) -> bool
    ensures { result ≡ is_short n }
{
    n.unsigned_abs() < 1_000_000_000_000_000_000
}

fn whole_as_whole(n: i64) -> Result<Value, FieldFault>
    ensures { IsCleaned (clean kind.Whole (value.Whole n)) result }
{
    if !is_short(n) {
        return Err(FieldFault::BadValue);
    }
    Ok(Value::Whole(n))
}

fn whole_as_asn(n: i64) -> Result<Value, FieldFault>
    ensures { IsCleaned (clean kind.Asn (value.Whole n)) result }
{
    if n < 1 || n > u32::MAX as i64 {
        return Err(FieldFault::BadValue);
    }
    Ok(Value::Whole(n))
}

fn whole_as_port(n: i64) -> Result<Value, FieldFault>
    ensures { IsCleaned (clean kind.Port (value.Whole n)) result }
{
    if n < 0 || n > u16::MAX as i64 {
        return Err(FieldFault::BadValue);
    }
    Ok(Value::Whole(n))
}

fn whole_as_decimal(n: i64) -> Result<Value, FieldFault>
    ensures { IsCleaned (clean kind.Decimal (value.Whole n)) result }
{
    if n.unsigned_abs() >= 1_000_000_000_000 {
        return Err(FieldFault::BadValue);
    }
    Ok(Value::Decimal(n * MILLION))
}

fn whole_as_accuracy(n: i64) -> Result<Value, FieldFault>
    ensures { IsCleaned (clean kind.Accuracy (value.Whole n)) result }
{
    if n < 0 || n > 100 {
        return Err(FieldFault::BadValue);
    }
    Ok(Value::Decimal(n * MILLION))
}

fn whole_as_flag(n: i64) -> Result<Value, FieldFault>
    ensures { IsCleaned (clean kind.Flag (value.Whole n)) result }
{
    match n {
        0 => Ok(Value::Flag(false)),
        1 => Ok(Value::Flag(true)),
        _ => Err(FieldFault::BadValue),
    }
}

fn whole_as_extra(n: i64) -> Result<Value, FieldFault>
    ensures { IsCleaned (clean kind.Extra (value.Whole n)) result }
{
    if !is_short(n) {
        return Err(FieldFault::BadValue);
    }
    Ok(Value::Whole(n))
}

// Whether the kind takes numbers and flags by the text that they print.
fn takes_words(kind: FieldType) -> bool
    ensures { result ≡ takes_words kind }
{
    matches!(
        kind,
        FieldType::Text | FieldType::Lower | FieldType::Upper | FieldType::Cc
    )
}

pub fn clean_whole(alloc: Global, kind: FieldType, n: i64) -> Result<Value, FieldFault>
    ensures { IsCleaned (clean kind (value.Whole n)) result }
{
    if takes_words(kind) {
        return clean_text(alloc, kind, Text::from(format!(in alloc; "{n}")?));
    }
    match kind {
        FieldType::Whole => whole_as_whole(n),
        FieldType::Asn => whole_as_asn(n),
        FieldType::Port => whole_as_port(n),
        FieldType::Decimal => whole_as_decimal(n),
        FieldType::Accuracy => whole_as_accuracy(n),
        FieldType::Flag => whole_as_flag(n),
        FieldType::Extra => whole_as_extra(n),
        _ => Err(FieldFault::BadValue),
    }
}

fn decimal_as_decimal(n: i64) -> Result<Value, FieldFault>
    ensures decimal { IsCleaned (clean kind.Decimal (value.Decimal n)) result }
    ensures extra { IsCleaned (clean kind.Extra (value.Decimal n)) result }
{
    if !is_short(n) {
        return Err(FieldFault::BadValue);
    }
    Ok(Value::Decimal(n))
}

fn decimal_as_accuracy(n: i64) -> Result<Value, FieldFault>
    ensures { IsCleaned (clean kind.Accuracy (value.Decimal n)) result }
{
    if !is_accuracy(n) {
        return Err(FieldFault::BadValue);
    }
    Ok(Value::Decimal(n))
}

pub fn clean_decimal(alloc: Global, kind: FieldType, n: i64) -> Result<Value, FieldFault>
    ensures { IsCleaned (clean kind (value.Decimal n)) result }
{
    if takes_words(kind) {
        return clean_text(alloc, kind, print_decimal(alloc, n)?);
    }
    match kind {
        FieldType::Decimal | FieldType::Extra => decimal_as_decimal(n),
        FieldType::Accuracy => decimal_as_accuracy(n),
        _ => Err(FieldFault::BadValue),
    }
}

pub fn clean_flag(alloc: Global, kind: FieldType, flag: bool) -> Result<Value, FieldFault>
    ensures { IsCleaned (clean kind (value.Flag flag)) result }
{
    if takes_words(kind) {
        return sanitise_text(alloc, kind, flag_word(flag));
    }
    match kind {
        FieldType::Flag | FieldType::Extra => Ok(Value::Flag(flag)),
        _ => Err(FieldFault::BadValue),
    }
}

// Whether an item of a list is one of further data.
fn is_extra_item(item: &Item) -> bool
    ensures { result ≡ is_extra_item item.now }
{
    match item {
        Item::Text(text) => !text.as_str().is_empty(),
        Item::Whole(n) | Item::Decimal(n) => is_short(*n),
        Item::Flag(_) => true,
    }
}

fn are_extra_items(items: &[Item]) -> bool
    ensures { result ≡ list_all is_extra_item items.now }
{
    items.iter().all(|item| is_extra_item(item))
}

// Whether the kind takes the list.
pub fn takes_items(kind: FieldType, items: &[Item]) -> bool
    ensures { result ≡ takes_items kind items.now }
{
    match kind {
        FieldType::Extra => are_extra_items(items),
        _ => false,
    }
}

fn sanitise_items(alloc: Global, kind: FieldType, items: &[Item]) -> Result<Value, FieldFault>
    ensures { IsCleaned (clean kind (value.List items.now)) result }
{
    if !takes_items(kind, items) {
        return Err(FieldFault::BadValue);
    }
    Ok(Value::List(copy_items(alloc, items)?))
}

/// The canonical value of a kind for a value; `BadValue` exactly where it has none.
pub fn sanitise(alloc: Global, kind: FieldType, value: &Value) -> Result<Value, FieldFault>
    ensures { IsCleaned (clean kind value.now) result }
{
    match value {
        Value::Text(text) => sanitise_text(alloc, kind, text.as_str()),
        Value::Whole(n) => clean_whole(alloc, kind, *n),
        Value::Flag(flag) => clean_flag(alloc, kind, *flag),
        Value::Decimal(n) => clean_decimal(alloc, kind, *n),
        Value::List(items) => sanitise_items(alloc, kind, items.as_slice()),
    }
}

/// The canonical value of a kind for a value, which is taken over: a value that is canonical already isn't copied.
/// `BadValue` exactly where it has none.
pub fn sanitise_own(alloc: Global, kind: FieldType, value: Value) -> Result<Value, FieldFault>
    ensures { IsCleaned (clean kind value) result }
{
    match value {
        Value::Text(text) => clean_text(alloc, kind, text),
        Value::Whole(n) => clean_whole(alloc, kind, n),
        Value::Flag(flag) => clean_flag(alloc, kind, flag),
        Value::Decimal(n) => clean_decimal(alloc, kind, n),
        Value::List(items) => clean_items(kind, items),
    }
}

fn clean_items(kind: FieldType, items: ItemList) -> Result<Value, FieldFault>
    ensures { IsCleaned (clean kind (value.List items)) result }
{
    if takes_items(kind, items.as_slice()) {
        Ok(Value::List(items))
    } else {
        Err(FieldFault::BadValue)
    }
}

/// To clean a value twice is to clean it once: what is kept of a value is canonical.
pub fn clean_values_stay(field_type: FieldType)
    ensures { (u v : AnyValue) → clean field_type u ≡ Some v → IsOfKind field_type v }
{}
