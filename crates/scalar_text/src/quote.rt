ghost use Rattle.std.specs.Prelude.{◌≡◌, ◌≤◌, ◌<◌, ◌++◌, ◌&&◌, ◌||◌, ◌==◌, List, ℕ, false, IfOk, IfSome, IsTrue, OnOk, MatchOption, length, take, drop, codes, count_by};
ghost use Rattle.std.specs.List.{list_any};
ghost use Rattle.scalar_text.specs.Quote.{is_digit, is_number_byte, behind_digits, starts_with_digit, starts_with_number_byte, is_digits, is_signed_digits, is_exponent, is_fraction, is_unsigned, is_number, is_decimal, quoted_run, quote, quote_string, quote_escape, Keeps};

use base_types::{Blob, OutOfMemory};
use memchr::memchr2;
use std::alloc::Global;

// A byte of which numbers are made.
fn is_number_byte(b: u8) -> bool
    ensures { result ≡ is_number_byte b }
{
    b.is_ascii_digit() || b == b'+' || b == b'-' || b == b'.' || b == b'E' || b == b'e'
}

// What follows the digits at the front.
fn behind_digits(text: &[u8]) -> &[u8]
    ensures { result.now ≡ behind_digits text.now }
{
    let mut rest = text;
    'digits: while let [b, behind @ ..] = rest {
        if !b.is_ascii_digit() {
            return rest;
        }
        rest = behind;
    }
    rest
}

fn starts_with_digit(text: &[u8]) -> bool
    ensures { result ≡ starts_with_digit text.now }
{
    match text {
        [b, ..] => b.is_ascii_digit(),
        [] => false,
    }
}

// One digit or more, and nothing else.
fn is_digits(text: &[u8]) -> bool
    ensures { result ≡ is_digits text.now }
{
    starts_with_digit(text) && behind_digits(text).is_empty()
}

fn is_signed_digits(text: &[u8]) -> bool
    ensures { result ≡ is_signed_digits text.now }
{
    match text {
        [b'+' | b'-', digits @ ..] => is_digits(digits),
        _ => is_digits(text),
    }
}

// Nothing, or an exponent.
fn is_exponent(text: &[u8]) -> bool
    ensures { result ≡ is_exponent text.now }
{
    match text {
        [] => true,
        [b'E' | b'e', digits @ ..] => is_signed_digits(digits),
        _ => false,
    }
}

// Nothing, or a fraction and what may follow it.
fn is_fraction(text: &[u8]) -> bool
    ensures { result ≡ is_fraction text.now }
{
    match text {
        [b'.', digits @ ..] => starts_with_digit(digits) && is_exponent(behind_digits(digits)),
        _ => is_exponent(text),
    }
}

// Digits with no needless zero, and what may follow them.
fn is_unsigned(text: &[u8]) -> bool
    ensures { result ≡ is_unsigned text.now }
{
    match text {
        [] => false,
        [b'0', rest @ ..] => is_fraction(rest),
        [b, rest @ ..] => b.is_ascii_digit() && is_fraction(behind_digits(rest)),
    }
}

// A number (RFC 8259, section 6).
fn is_number(text: &[u8]) -> bool
    ensures { result ≡ is_number text.now }
{
    match text {
        [b'-', rest @ ..] => is_unsigned(rest),
        _ => is_unsigned(text),
    }
}

fn has_point_or_exponent(run: &[u8]) -> bool
    ensures { result ≡ list_any (λ b. (b == 46) || (b == 69) || (b == 101)) run.now }
{
    run.iter().any(|b| *b == b'.' || *b == b'E' || *b == b'e')
}

fn digits_in(run: &[u8]) -> usize
    ensures { result ≡ count_by is_digit run.now }
{
    run.iter().filter(|b| b.is_ascii_digit()).count()
}

// A number that isn't a whole one of at most 18 digits.
fn is_decimal(run: &[u8]) -> bool
    ensures { result ≡ is_decimal run.now }
{
    has_point_or_exponent(run) || digits_in(run) > 18 || run == b"-0".as_slice()
}

// A run of number bytes that goes under quotes.
fn is_quoted(run: &[u8]) -> bool
    ensures { result ≡ is_number run.now && is_decimal run.now }
{
    is_number(run) && is_decimal(run)
}

// How long the run of number bytes at the front is.
fn run_len(text: &[u8]) -> usize
    ensures within { result ≤ length text.now }
    ensures some { IsTrue (starts_with_number_byte text.now) → 0 < result }
    ensures run { quote text.now ≡ quoted_run (take result text.now) ++ quote (drop result text.now) }
{
    let mut len = 0;
    'bytes: while len < text.len() && is_number_byte(text[len]) {
        len += 1;
    }
    len
}

// What is behind the byte that a backslash covers.
fn behind_escape(text: &[u8]) -> &[u8]
    ensures kept { Keeps quote_escape quote_string text.now result.now }
    ensures shorter { length result.now ≤ length text.now }
{
    match text {
        [] => text,
        [_, rest @ ..] => rest,
    }
}

// What is behind the string whose inside begins here: nothing where it isn't closed.
fn behind_string(inside: &[u8]) -> &[u8]
    ensures kept { Keeps quote_string quote inside.now result.now }
    ensures shorter { length result.now ≤ length inside.now }
{
    let mut rest = inside;
    'escapes: while let Some(at) = memchr2(b'"', b'\\', rest) {
        if rest[at] == b'"' {
            return &rest[at + 1..];
        }
        rest = behind_escape(&rest[at + 1..]);
    }
    &[]
}

// A decimal, and what stands on both sides of it.
#[derive(Clone, Copy)]
struct Decimal<'a> {
    before: &'a [u8],
    lexeme: &'a [u8],
    behind: &'a [u8],
}

// The first decimal outside the strings.
fn first_decimal(text: &[u8]) -> Option<Decimal<'_>>
    ensures shorter { IfSome result (λ decimal. length decimal.behind.now < length text.now) }
    ensures quoted { MatchOption result (quote text.now ≡ text.now) (λ decimal. quote text.now ≡ decimal.before.now ++ codes "{\"$dec\":\"" ++ decimal.lexeme.now ++ codes "\"}" ++ quote decimal.behind.now) }
{
    let mut rest = text;
    'pieces: while let [b, behind @ ..] = rest {
        if *b == b'"' {
            rest = behind_string(behind);
        } else if is_number_byte(*b) {
            let (run, behind) = rest.split_at(run_len(rest));
            if is_quoted(run) {
                return Some(Decimal {
                    before: &text[..text.len() - rest.len()],
                    lexeme: run,
                    behind,
                });
            }
            rest = behind;
        } else {
            rest = behind;
        }
    }
    None
}

// Puts an object with the decimal's text behind `out`.
fn push_decimal(out: &mut Vec<u8>, lexeme: &[u8]) -> Result<(), OutOfMemory>
    ensures { OnOk result (out.new.items ≡ out.old.items ++ codes "{\"$dec\":\"" ++ lexeme.now ++ codes "\"}") }
{
    out.extend_from_slice(b"{\"$dec\":\"")?;
    out.extend_from_slice(lexeme)?;
    out.extend_from_slice(b"\"}")?;
    Ok(())
}

/// The text with its decimals under quotes, as `serde_json` reads them with nothing lost: outside strings, a number
/// (RFC 8259, section 6) with a point or an exponent, with more than 18 digits, or `-0`, becomes `{"$dec":"1.5"}`.
/// All else stays, in a text that is no JSON too.
pub fn quote_decimals(alloc: Global, bytes: &[u8]) -> Result<Blob, OutOfMemory>
    ensures { IfOk result (λ quoted. quoted ≡ quote bytes.now) }
{
    let mut quoted = Vec::with_capacity(alloc, bytes.len())?;
    let mut rest = bytes;
    'decimals: while let Some(decimal) = first_decimal(rest) {
        quoted.extend_from_slice(decimal.before)?;
        push_decimal(&mut quoted, decimal.lexeme)?;
        rest = decimal.behind;
    }
    quoted.extend_from_slice(rest)?;
    Ok(Blob::from(quoted))
}

/// Whether there is a decimal to put under quotes. It takes no memory.
pub fn has_decimals(bytes: &[u8]) -> bool
    ensures { result ≡ false → quote bytes.now ≡ bytes.now }
{
    first_decimal(bytes).is_some()
}

/// Quoting what was quoted changes nothing.
pub fn quoting_again_changes_nothing()
    ensures { (text : List ℕ) → quote (quote text) ≡ quote text }
{}
