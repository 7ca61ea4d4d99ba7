ghost use Rattle.std.specs.Prelude.{ℤ, ◌≡◌, ◌↔◌, ◌<◌, ◌≤◌, ◌+◌, ◌^◌, ◌++◌, ◌&&◌, unsigned_abs, length, take, drop, IfOk, IsTrue, OnOk, Some, string_bytes};
ghost use Rattle.std.specs.Fmt.{signed_decimal};
ghost use Rattle.std.specs.Int.{is_negative};
ghost use Rattle.scalar_text.specs.Number.{has_minus, whole_in, IsDecimalText, first_digit, behind_first, digits_until_zero, part_text, decimal_in, decimal_text, is_shortest_part, is_shortest_whole, IsCanonicalDecimal};

use crate::number::{behind_minus, has_minus, point_in};
use base_types::{OutOfMemory, Text};
use std::alloc::{AllocError, Global};

fn first_digit(n: u64) -> char
    requires { n < 1_000_000 }
    ensures code { result ≡ first_digit n }
    ensures ascii { result < 128 }
{
    char::from(b'0' + (n / 100_000) as u8)
}

fn behind_first(n: u64) -> u64
    ensures below { result < 1_000_000 }
    ensures value { result ≡ behind_first n }
{
    n % 100_000 * 10
}

// Puts the digits of millionths behind the text, at most so many, until nothing but zeros is left.
fn push_digits(text: &mut String, mut left: u64, mut n: u64) -> Result<(), AllocError>
    requires { n < 1_000_000 }
    ensures { OnOk result (string_bytes text.new ≡ string_bytes text.old ++ digits_until_zero left n) }
{
    'digits: while left > 0 && n != 0 {
        text.push(first_digit(n))?;
        n = behind_first(n);
        left -= 1;
    }
    Ok(())
}

fn push_part(text: &mut String, n: u64) -> Result<(), AllocError>
    requires { n < 1_000_000 }
    ensures { OnOk result (string_bytes text.new ≡ string_bytes text.old ++ part_text n) }
{
    text.push(first_digit(n))?;
    push_digits(text, 5, behind_first(n))
}

/// The canonical text of a decimal in millionths: 1 to 6 digits behind the point, and no needless zero.
pub fn print_decimal(alloc: Global, n: i64) -> Result<Text, OutOfMemory>
    ensures { IfOk result (λ text. text ≡ decimal_text n) }
{
    let size = n.unsigned_abs();
    let whole = size / 1_000_000;
    let mut text = if n < 0 {
        format!(in alloc; "-{whole}.")?
    } else {
        format!(in alloc; "{whole}.")?
    };
    push_part(&mut text, size % 1_000_000)?;
    Ok(Text::from(text))
}

fn is_shortest_whole(digits: &[u8]) -> bool
    ensures { result ≡ is_shortest_whole digits.now }
{
    digits.len() <= 1 || digits[0] != b'0'
}

fn is_shortest_part(digits: &[u8]) -> bool
    ensures { result ≡ is_shortest_part digits.now }
{
    digits.len() <= 1 || (digits.len() <= 6 && digits[digits.len() - 1] != b'0')
}

// Whether the digits on both sides of the point there are as few as can be.
fn has_shortest_sides(digits: &[u8], at: usize) -> bool
    requires { at < length digits.now }
    ensures { result ≡ (is_shortest_whole (take at digits.now) && is_shortest_part (drop (at + 1) digits.now)) }
{
    is_shortest_whole(&digits[..at]) && is_shortest_part(&digits[at + 1..])
}

// Whether a minus leads the text exactly where the number is below zero.
fn has_sign_of(text: &[u8], n: i64) -> bool
    ensures { IsTrue result ↔ has_minus text.now ≡ is_negative n }
{
    has_minus(text) == n.is_negative()
}

/// Whether the text of a whole number is its canonical one: no needless zero, and no sign of zero. It takes no memory.
pub fn is_printed_whole(text: &[u8], n: i64) -> bool
    requires { whole_in text.now ≡ Some n }
    ensures { IsTrue result ↔ text.now ≡ signed_decimal n }
{
    if !has_sign_of(text, n) {
        return false;
    }
    is_shortest_whole(behind_minus(text))
}

/// Whether the text of a decimal is as `print_decimal` writes that. It takes no memory.
pub fn is_printed_decimal(text: &[u8], n: i64) -> bool
    requires { decimal_in text.now ≡ Some n }
    ensures { IsTrue result ↔ text.now ≡ decimal_text n }
{
    if !has_sign_of(text, n) {
        return false;
    }
    let digits = behind_minus(text);
    let Some(at) = point_in(digits) else {
        return false;
    };
    has_shortest_sides(digits, at)
}

/// What `print_decimal` writes is read as the same number, where that has at most 12 digits before the point.
pub fn printed_decimal_reads_back(n: i64)
    requires { unsigned_abs n < 10 ^ 18 }
    ensures { IsDecimalText (decimal_text n) n }
{}

/// What `print_decimal` writes is the shortest text of its form: no needless zero at either end, and no sign of zero.
pub fn printed_decimals_are_canonical(n: i64)
    ensures { IsCanonicalDecimal (decimal_text n) }
{}

/// Two numbers that are printed alike are one.
pub fn decimal_texts_differ(a: i64, b: i64)
    ensures { decimal_text a ≡ decimal_text b → a ≡ b }
{}

/// A canonical text is just what `print_decimal` writes of the number that the text writes.
pub fn canonical_decimal_is_printed(text: &[u8])
    ensures { (n : ℤ) → IsCanonicalDecimal text.now → IsDecimalText text.now n → text.now ≡ decimal_text n }
{}
