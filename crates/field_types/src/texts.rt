//! What the kinds make of stripped texts.
ghost use Rattle.std.specs.Prelude.{◌≡◌, ◌==◌, length, map, option_map, option_and_then};
ghost use Rattle.std.specs.List.{list_all, list_any};
ghost use Rattle.std.specs.Option.{option_copied};
ghost use Rattle.std.specs.Char.{is_ascii_uppercase, is_ascii_lowercase};
ghost use Rattle.field_types.specs.declared.texts.Kept.TheVariants as kept;
ghost use Rattle.field_types.specs.declared.kind.FieldType.TheVariants as kind;
ghost use Rattle.field_types.specs.declared.value.Value.TheVariants as value;
ghost use Rattle.field_types.specs.Cleaning.{of_text, is_accuracy, is_alphanumeric, is_country_code};
ghost use Rattle.field_types.specs.Kept.{IsKeptAs};

use crate::{FieldFault, FieldType, Value};
use base_types::Text;
use scalar_net::{
    is_plain_url, print_ip, print_network, read_asn, read_fqdn, read_ip, read_network, read_url,
};
use scalar_text::{
    class_word, is_printed_time, print_time, read_decimal, read_flag, read_port, read_raw,
    read_time, read_whole, registry_word, taxonomy_word, tlp_word,
};
use std::alloc::Global;

/// What a kind makes of a text.
#[derive(Drop)]
pub enum Kept {
    /// The text as it stands, which is canonical already.
    Same,
    Other(Value),
}

fn text_of(text: Text) -> Kept
    ensures { result ≡ kept.Other (value.Text text) }
{
    Kept::Other(Value::Text(text))
}

fn keep_text(text: &str) -> Result<Kept, FieldFault>
    ensures { IsKeptAs (of_text kind.Text text.now) text.now result }
{
    if text.is_empty() {
        Err(FieldFault::BadValue)
    } else {
        Ok(Kept::Same)
    }
}

fn has_upper(text: &str) -> bool
    ensures { result ≡ list_any is_ascii_uppercase text.now }
{
    text.bytes().any(|b| b.is_ascii_uppercase())
}

fn has_lower(text: &str) -> bool
    ensures { result ≡ list_any is_ascii_lowercase text.now }
{
    text.bytes().any(|b| b.is_ascii_lowercase())
}

fn lower(alloc: Global, text: &str) -> Result<Kept, FieldFault>
    ensures { IsKeptAs (of_text kind.Lower text.now) text.now result }
{
    if !has_upper(text) {
        return keep_text(text);
    }
    Ok(text_of(Text::from(text.to_ascii_lowercase(alloc)?)))
}

fn upper(alloc: Global, text: &str) -> Result<Kept, FieldFault>
    ensures { IsKeptAs (of_text kind.Upper text.now) text.now result }
{
    if !has_lower(text) {
        return keep_text(text);
    }
    Ok(text_of(Text::from(text.to_ascii_uppercase(alloc)?)))
}

fn are_alphanumeric(text: &[u8]) -> bool
    ensures { result ≡ list_all is_alphanumeric text.now }
{
    text.iter().all(|b| b.is_ascii_alphanumeric())
}

fn is_country_code(text: &[u8]) -> bool
    ensures { result ≡ is_country_code text.now }
{
    text.len() == 2 && are_alphanumeric(text)
}

fn country(alloc: Global, text: &str) -> Result<Kept, FieldFault>
    ensures { IsKeptAs (of_text kind.Cc text.now) text.now result }
{
    if !is_country_code(text.as_bytes()) {
        return Err(FieldFault::BadValue);
    }
    upper(alloc, text)
}

fn decimal(text: &str) -> Result<Kept, FieldFault>
    ensures { IsKeptAs (of_text kind.Decimal text.now) text.now result }
{
    match read_decimal(text.as_bytes()) {
        Ok(n) => Ok(Kept::Other(Value::Decimal(n))),
        Err(_) => Err(FieldFault::BadValue),
    }
}

fn accuracy(text: &str) -> Result<Kept, FieldFault>
    ensures { IsKeptAs (of_text kind.Accuracy text.now) text.now result }
{
    match read_decimal(text.as_bytes()) {
        Ok(n) if is_accuracy(n) => Ok(Kept::Other(Value::Decimal(n))),
        _ => Err(FieldFault::BadValue),
    }
}

/// Whether millionths lie from 0 to 100.
pub(crate) fn is_accuracy(n: i64) -> bool
    ensures { result ≡ is_accuracy n }
{
    n >= 0 && n <= 100_000_000
}

fn whole(text: &str) -> Result<Kept, FieldFault>
    ensures { IsKeptAs (of_text kind.Whole text.now) text.now result }
{
    match read_whole(text.as_bytes()) {
        Ok(n) => Ok(Kept::Other(Value::Whole(n))),
        Err(_) => Err(FieldFault::BadValue),
    }
}

fn asn(text: &str) -> Result<Kept, FieldFault>
    ensures { IsKeptAs (of_text kind.Asn text.now) text.now result }
{
    match read_asn(text.as_bytes()) {
        Ok(n) => Ok(Kept::Other(Value::Whole(i64::from(n)))),
        Err(_) => Err(FieldFault::BadValue),
    }
}

fn port(text: &str) -> Result<Kept, FieldFault>
    ensures { IsKeptAs (of_text kind.Port text.now) text.now result }
{
    match read_port(text.as_bytes()) {
        Ok(n) => Ok(Kept::Other(Value::Whole(i64::from(n)))),
        Err(_) => Err(FieldFault::BadValue),
    }
}

fn flag(text: &str) -> Result<Kept, FieldFault>
    ensures { IsKeptAs (of_text kind.Flag text.now) text.now result }
{
    match read_flag(text.as_bytes()) {
        Ok(flag) => Ok(Kept::Other(Value::Flag(flag))),
        Err(_) => Err(FieldFault::BadValue),
    }
}

fn address(alloc: Global, text: &str) -> Result<Kept, FieldFault>
    ensures { IsKeptAs (of_text kind.Ip text.now) text.now result }
{
    let Ok(ip) = read_ip(text.as_bytes()) else {
        return Err(FieldFault::BadValue);
    };
    if !ip.six {
        return Ok(Kept::Same);
    }
    Ok(text_of(print_ip(alloc, &ip)?))
}

fn network(alloc: Global, text: &str) -> Result<Kept, FieldFault>
    ensures { IsKeptAs (of_text kind.Network text.now) text.now result }
{
    match read_network(text.as_bytes()) {
        Ok(net) => Ok(text_of(print_network(alloc, &net)?)),
        Err(_) => Err(FieldFault::BadValue),
    }
}

fn domain(alloc: Global, text: &str) -> Result<Kept, FieldFault>
    ensures { IsKeptAs (of_text kind.Fqdn text.now) text.now result }
{
    let name = read_fqdn(alloc, text.as_bytes())?;
    if name.as_str() == text {
        return Ok(Kept::Same);
    }
    Ok(text_of(Text::from(name.into_owned(alloc)?)))
}

fn url(alloc: Global, text: &str) -> Result<Kept, FieldFault>
    ensures { IsKeptAs (of_text kind.Url text.now) text.now result }
{
    if is_plain_url(text) {
        return Ok(Kept::Same);
    }
    Ok(text_of(read_url(alloc, text.as_bytes())?))
}

fn time(alloc: Global, text: &str) -> Result<Kept, FieldFault>
    ensures { IsKeptAs (of_text kind.DateTime text.now) text.now result }
{
    let Ok(seconds) = read_time(text.as_bytes()) else {
        return Err(FieldFault::BadValue);
    };
    if is_printed_time(text.as_bytes()) {
        return Ok(Kept::Same);
    }
    Ok(text_of(print_time(alloc, seconds)?))
}

fn raw(alloc: Global, text: &str) -> Result<Kept, FieldFault>
    ensures { IsKeptAs (of_text kind.Raw text.now) text.now result }
{
    read_raw(alloc, text.as_bytes())?;
    Ok(Kept::Same)
}

// The word that the text spells, if it does.
fn word(alloc: Global, text: &str, word: Option<&'static str>) -> Result<Kept, FieldFault>
    ensures { IsKeptAs (option_map value.Text (option_copied word.entry)) text.now result }
{
    let Some(word) = word else {
        return Err(FieldFault::BadValue);
    };
    if word == text {
        return Ok(Kept::Same);
    }
    Ok(text_of(Text::from(String::from_str(alloc, word)?)))
}

/// What a kind makes of a stripped text; `BadValue` exactly where it doesn't take the text.
pub fn keep(alloc: Global, kind: FieldType, text: &str) -> Result<Kept, FieldFault>
    ensures { IsKeptAs (of_text kind text.now) text.now result }
{
    match kind {
        FieldType::Text | FieldType::Extra => keep_text(text),
        FieldType::Lower => lower(alloc, text),
        FieldType::Upper => upper(alloc, text),
        FieldType::Cc => country(alloc, text),
        FieldType::Decimal => decimal(text),
        FieldType::Accuracy => accuracy(text),
        FieldType::Whole => whole(text),
        FieldType::Asn => asn(text),
        FieldType::Port => port(text),
        FieldType::Flag => flag(text),
        FieldType::Ip => address(alloc, text),
        FieldType::Network => network(alloc, text),
        FieldType::Fqdn => domain(alloc, text),
        FieldType::Url => url(alloc, text),
        FieldType::DateTime => time(alloc, text),
        FieldType::Raw => raw(alloc, text),
        FieldType::Tlp => word(alloc, text, tlp_word(text.as_bytes())),
        FieldType::Registry => word(alloc, text, registry_word(text.as_bytes())),
        FieldType::Class => word(alloc, text, class_word(text.as_bytes())),
        FieldType::Taxonomy => word(alloc, text, taxonomy_word(text.as_bytes())),
    }
}
