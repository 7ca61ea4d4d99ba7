//! JSON strings in canonical texts.
ghost use Rattle.std.specs.Prelude.{◌≡◌, ◌∷◌, ◌≤◌, true, Some, length, flat_map, option_map, IfOk, IfSome};
ghost use Rattle.std.specs.Str.{is_utf8};
ghost use Rattle.base_types.specs.JsonText.{escaped};
ghost use Rattle.event_text.specs.Decode.{string_end, escape_end, KeepsEnd, short_escape, digit_of, control, unescaped, unescaped_behind, unescaped_control, utf8_text, is_content_of, text_in, text_at};

use base_types::{OutOfMemory, Text, TextFault, is_plain_text, push_quoted, split_plain_ascii};
use field_types::FieldName;
use memchr::{memchr, memchr2};
use std::alloc::Global;

// What is behind the byte that a backslash covers.
fn behind_escape(bytes: &[u8]) -> &[u8]
    ensures kept { KeepsEnd escape_end string_end bytes.now result.now }
    ensures shorter { length result.now ≤ length bytes.now }
{
    match bytes {
        [] => bytes,
        [_, rest @ ..] => rest,
    }
}

// The content of the string whose inside begins here, and what is behind the string: nothing where it isn't closed.
fn string_end(inside: &[u8]) -> Option<(&[u8], &[u8])>
    ensures { option_map (λ ends. (ends.0.now, ends.1.now)) result ≡ string_end inside.now }
{
    let mut rest = inside;
    'escapes: while let Some(at) = memchr2(b'"', b'\\', rest) {
        if rest[at] == b'"' {
            let content = &inside[..inside.len() - rest.len() + at];
            return Some((content, &rest[at + 1..]));
        }
        rest = behind_escape(&rest[at + 1..]);
    }
    None
}

// The byte that a letter behind a backslash stands for.
fn short_escape(letter: u8) -> u8
    ensures { result ≡ short_escape letter }
{
    match letter {
        b'b' => 8,
        b't' => b'\t',
        b'n' => b'\n',
        b'f' => 12,
        b'r' => b'\r',
        _ => letter,
    }
}

fn digit_of(digit: u8) -> u8
    ensures { result ≡ digit_of digit }
{
    if digit <= b'9' {
        digit.saturating_sub(b'0')
    } else {
        digit.saturating_sub(b'a' - 10)
    }
}

// A control character by its two hexadecimal digits.
fn control(high: u8, low: u8) -> u8
    ensures { result ≡ control high low }
{
    if high == b'1' {
        16 + digit_of(low)
    } else {
        digit_of(low)
    }
}

// The control character whose number stands here, and what is behind it.
fn escaped_control(bytes: &[u8]) -> (u8, &[u8])
    ensures read { unescaped_control bytes.now ≡ result.0 ∷ unescaped result.1.now }
    ensures shorter { length result.1.now ≤ length bytes.now }
{
    match bytes {
        [_, _, high, low, rest @ ..] => (control(*high, *low), rest),
        _ => (b'\\', &[]),
    }
}

// The byte that the escape behind a backslash stands for, and what is behind the escape.
fn escaped_byte(bytes: &[u8]) -> (u8, &[u8])
    ensures read { unescaped_behind bytes.now ≡ result.0 ∷ unescaped result.1.now }
    ensures shorter { length result.1.now ≤ length bytes.now }
{
    let [letter, rest @ ..] = bytes else {
        return (b'\\', &[]);
    };
    if *letter == b'u' {
        return escaped_control(rest);
    }
    (short_escape(*letter), rest)
}

// The text that a content writes, if it writes one canonically.
fn unescape(alloc: Global, content: &[u8]) -> Result<Vec<u8>, OutOfMemory>
    ensures { IfOk result (λ text. text.items ≡ unescaped content.now) }
{
    let mut text = Vec::with_capacity(alloc, content.len())?;
    let mut rest = content;
    'escapes: while let Some(at) = memchr(b'\\', rest) {
        text.extend_from_slice(&rest[..at])?;
        let (byte, behind) = escaped_byte(&rest[at + 1..]);
        text.push(byte)?;
        rest = behind;
    }
    text.extend_from_slice(rest)?;
    Ok(text)
}

// Whether the content is how the text is written.
fn is_content_of(alloc: Global, content: &[u8], text: &[u8]) -> Result<bool, OutOfMemory>
    ensures { IfOk result (λ is. is ≡ is_content_of content.now text.now) }
{
    let mut written = Vec::with_capacity(alloc, content.len() + 2)?;
    push_quoted(&mut written, text)?;
    match written.as_slice() {
        [_, inside @ .., _] => Ok(inside == content),
        _ => Ok(false),
    }
}

// Bytes as a text, where they are UTF-8.
fn utf8_text(alloc: Global, bytes: &[u8]) -> Result<Option<Text>, OutOfMemory>
    ensures { IfOk result (λ found. found ≡ utf8_text bytes.now) }
{
    match Text::new(alloc, bytes) {
        Ok(text) => Ok(Some(text)),
        Err(TextFault::Utf8 { .. }) => Ok(None),
        Err(TextFault::OutOfMemory) => Err(OutOfMemory),
    }
}

// The text that a content writes canonically.
fn text_in(alloc: Global, content: &[u8]) -> Result<Option<Text>, OutOfMemory>
    ensures { IfOk result (λ found. found ≡ text_in content.now) }
{
    if is_plain_text(content) {
        return utf8_text(alloc, content);
    }
    let text = unescape(alloc, content)?;
    if !is_content_of(alloc, content, &text)? {
        return Ok(None);
    }
    utf8_text(alloc, &text)
}

// The text of a string, as `text_at`, whatever its content has.
#[tactic(auto, unfolding(crate::specs::Decode::text_at))]
fn any_text_at(alloc: Global, inside: &[u8]) -> Result<Option<(Text, &[u8])>, OutOfMemory>
    ensures { IfOk result (λ found. option_map (λ at. (at.0, at.1.now)) found ≡ text_at inside.now) }
{
    let Some((content, behind)) = string_end(inside) else {
        return Ok(None);
    };
    let Some(text) = text_in(alloc, content)? else {
        return Ok(None);
    };
    Ok(Some((text, behind)))
}

// The content of the string whose inside begins here, where that is ASCII without an escape, and what is behind the
// string: nothing where another byte than its quotation mark is the first that such a content can't have.
fn plain_string(inside: &[u8]) -> Option<(&str, &[u8])>
    ensures ends { IfSome result (λ ends. string_end inside.now ≡ Some (ends.0.now, ends.1.now)) }
    ensures plain { IfSome result (λ ends. flat_map escaped ends.0.now ≡ ends.0.now) }
    ensures utf8 { IfSome result (λ ends. is_utf8 ends.0.now ≡ true) }
{
    let (content, rest) = split_plain_ascii(inside);
    let [mark, behind @ ..] = rest else {
        return None;
    };
    if *mark != b'"' {
        return None;
    }
    Some((content, behind))
}

/// The text of the string whose inside begins here, and what is behind the string: nothing where that isn't the
/// canonical text of a string. Nearly all contents are the text itself.
pub fn text_at(alloc: Global, inside: &[u8]) -> Result<Option<(Text, &[u8])>, OutOfMemory>
    ensures { IfOk result (λ found. option_map (λ at. (at.0, at.1.now)) found ≡ text_at inside.now) }
{
    let Some((content, behind)) = plain_string(inside) else {
        return any_text_at(alloc, inside);
    };
    let text = Text::from(String::from_str(alloc, content)?);
    Ok(Some((text, behind)))
}

// The name of a field, as `name_at`, whatever its content has.
fn any_name_at(alloc: Global, inside: &[u8]) -> Result<Option<(FieldName, &[u8])>, OutOfMemory>
    ensures { IfOk result (λ found. option_map (λ at. (at.0, at.1.now)) found ≡ text_at inside.now) }
{
    match any_text_at(alloc, inside)? {
        Some((text, behind)) => Ok(Some((FieldName::from(text), behind))),
        None => Ok(None),
    }
}

/// The name of a field whose inside begins here, as `text_at`. A name of the table of fields takes no memory.
pub fn name_at(alloc: Global, inside: &[u8]) -> Result<Option<(FieldName, &[u8])>, OutOfMemory>
    ensures { IfOk result (λ found. option_map (λ at. (at.0, at.1.now)) found ≡ text_at inside.now) }
{
    let Some((content, behind)) = plain_string(inside) else {
        return any_name_at(alloc, inside);
    };
    let name = FieldName::new(alloc, content)?;
    Ok(Some((name, behind)))
}
