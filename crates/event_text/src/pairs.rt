//! The fields of a message in its canonical text.
ghost use Rattle.std.specs.Prelude.{◌≡◌, ◌<◌, length, codes, None, Some, option_map, IfOk, IfSome};
ghost use Rattle.std.specs.Option.{option_copied};
ghost use Rattle.std.specs.Str.{bytes_eq};
ghost use Rattle.event_model.specs.Fields.{FieldMap};
ghost use Rattle.event_text.specs.Decode.{behind_comma, pair_at, value_behind_colon, IsTextOfFields, TakesField, TakesNone};

use crate::string::name_at;
use crate::value::value_at;
use base_types::OutOfMemory;
use event_model::{Fields, is_field};
use field_types::{FieldName, Value};
use std::alloc::Global;

// Most messages have fewer fields.
const USUAL_FIELDS: usize = 16;

// The value behind a colon, and what is behind it.
fn value_behind_colon(alloc: Global, rest: &[u8]) -> Result<Option<(Value, &[u8])>, OutOfMemory>
    ensures { IfOk result (λ found. option_map (λ at. (at.0, at.1.now)) found ≡ value_behind_colon rest.now) }
{
    match rest {
        [b':', value @ ..] => value_at(alloc, value),
        _ => Ok(None),
    }
}

// The pair at the front, and what is behind it.
#[tactic(auto, unfolding(crate::specs::Decode::pair_at))]
fn pair_at(alloc: Global, rest: &[u8]) -> Result<Option<(FieldName, Value, &[u8])>, OutOfMemory>
    ensures { IfOk result (λ found. option_map (λ at. ((at.0, at.1), at.2.now)) found ≡ pair_at rest.now) }
{
    let [b'"', inside @ ..] = rest else {
        return Ok(None);
    };
    let Some((name, behind)) = name_at(alloc, inside)? else {
        return Ok(None);
    };
    match value_behind_colon(alloc, behind)? {
        Some((value, behind)) => Ok(Some((name, value, behind))),
        None => Ok(None),
    }
}

// Takes the pair at the front behind the fields, and gives what is behind it: nothing where no pair stands there whose
// value is canonical for its name and whose name is above all so far.
fn take_field<'a>(
    alloc: Global,
    text: &'a [u8],
    fields: &mut Fields,
) -> Result<Option<&'a [u8]>, OutOfMemory>
    ensures some { IfOk result (λ found. IfSome found (λ behind. TakesField text.now behind.now fields.old fields.new)) }
    ensures none { IfOk result (λ found. found ≡ None → TakesNone text.now fields.old) }
    ensures shorter { IfOk result (λ found. IfSome found (λ behind. length behind.now < length text.now)) }
{
    let Some((name, value, behind)) = pair_at(alloc, text)? else {
        return Ok(None);
    };
    if !is_field(alloc, &name, &value)? {
        return Ok(None);
    }
    if fields.push(name, value)? {
        Ok(Some(behind))
    } else {
        Ok(None)
    }
}

fn is_end(rest: &[u8]) -> bool
    ensures { result ≡ bytes_eq rest.now (codes "}") }
{
    rest == b"}".as_slice()
}

fn behind_comma(rest: &[u8]) -> Option<&[u8]>
    ensures { option_copied result ≡ behind_comma rest.now }
{
    match rest {
        [b',', behind @ ..] => Some(behind),
        _ => None,
    }
}

/// The fields whose pairs and closing brace the text is, each behind a comma: nothing where it is those of none.
pub fn fields_at(alloc: Global, text: &[u8]) -> Result<Option<Fields>, OutOfMemory>
    ensures sound { IfOk result (λ found. IfSome found (IsTextOfFields text.now)) }
    ensures complete { (fields : FieldMap) → IsTextOfFields text.now fields → IfOk result (λ found. found ≡ Some fields) }
{
    let mut fields = Fields::with_capacity(alloc, USUAL_FIELDS)?;
    let mut rest = text;
    'fields: loop {
        if is_end(rest) {
            return Ok(Some(fields));
        }
        let Some(pair) = behind_comma(rest) else {
            return Ok(None);
        };
        let Some(behind) = take_field(alloc, pair, &mut fields)? else {
            return Ok(None);
        };
        rest = behind;
    }
}
