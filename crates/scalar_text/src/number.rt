ghost use Rattle.std.specs.Prelude.{ℤ, ◌≡◌, ◌≤◌, ◌<◌, ◌+◌, ◌^◌, ◌*◌, ℕ, IfSome, MatchOption, IsTrue, Some, ◌↔◌, length, take, drop};
ghost use Rattle.std.specs.Result.{result_ok};
ghost use Rattle.std.specs.Net.Grammar.{Parses};
ghost use Rattle.std.specs.Str.Parse.{IsNumeral};
ghost use Rattle.base_types.specs.Digits.{IsDigits};
ghost use Rattle.scalar_text.specs.Number.{IsWholeText, whole_in, IsPortText, port_in, IsDecimalText, decimal_in, AreMillionths, behind_minus, has_minus, signed, point_in, millionths};

use base_types::{Bad, read_digits};

pub(crate) fn has_minus(text: &[u8]) -> bool
    ensures { result ≡ has_minus text.now }
{
    match text {
        [b, ..] => *b == b'-',
        [] => false,
    }
}

pub(crate) fn behind_minus(text: &[u8]) -> &[u8]
    ensures { result.now ≡ behind_minus text.now }
{
    match text {
        [b'-', rest @ ..] => rest,
        _ => text,
    }
}

fn signed(negative: bool, n: u64) -> i64
    requires { n < 2 ^ 63 }
    ensures { result ≡ signed negative n }
{
    if negative { -(n as i64) } else { n as i64 }
}

/// A whole number: perhaps a minus, and 1 to 18 digits.
#[tactic(auto, using(crate::proofs::NumberForms::whole_none))]
pub fn read_whole(text: &[u8]) -> Result<i64, Bad>
    ensures writes { Parses IsWholeText text.now result }
    ensures value { result_ok result ≡ whole_in text.now }
{
    match read_digits(behind_minus(text), 18) {
        Some(n) => Ok(signed(has_minus(text), n)),
        None => Err(Bad),
    }
}

/// A port of TCP or UDP, from 0 to 65535 (RFC 768, RFC 9293): 1 to 5 digits. Zeros may lead. It takes no memory, and a
/// text that writes no port is `Bad`.
pub fn read_port(text: &[u8]) -> Result<u16, Bad>
    ensures writes { Parses IsPortText text.now result }
    ensures value { result_ok result ≡ port_in text.now }
{
    let Some(number) = read_digits(text, 5) else {
        return Err(Bad);
    };
    if number > u16::MAX as u64 {
        return Err(Bad);
    }
    Ok(number as u16)
}

// The millionths that the digits in front of a point write.
fn whole_millionths(text: &[u8]) -> Option<u64>
    ensures value { MatchOption result ((w : ℕ) → ¬ (IsDigits 12 text.now w)) (λ n. (w : ℕ) × IsDigits 12 text.now w × (n ≡ w * 1000000)) }
    ensures below { IfSome result (λ n. n < 10 ^ 18) }
{
    match read_digits(text, 12) {
        Some(whole) => Some(whole * 1_000_000),
        None => None,
    }
}

fn are_digits(text: &[u8]) -> bool
    ensures { IsTrue result ↔ IsNumeral 10 text.now }
{
    if text.is_empty() {
        return false;
    }
    'digits: for byte in text {
        let Some(_) = char::from(*byte).to_digit(10) else {
            return false;
        };
    }
    true
}

// The first digits, at most six.
fn front_of(digits: &[u8]) -> &[u8]
    ensures { result.now ≡ take 6 digits.now }
{
    &digits[..digits.len().min(6)]
}

// The millionths that the digits behind a point write.
fn part_millionths(digits: &[u8]) -> Option<u64>
    ensures value { MatchOption result (¬ (IsNumeral 10 digits.now)) (λ n. IsNumeral 10 digits.now × (n ≡ millionths digits.now)) }
    ensures below { IfSome result (λ n. n < 10 ^ 6) }
{
    if !are_digits(digits) {
        return None;
    }
    let front = front_of(digits);
    match read_digits(front, front.len()) {
        Some(value) => Some(value * 10u64.pow(6 - front.len() as u32)),
        None => None,
    }
}

// Where the first point stands.
pub(crate) fn point_in(text: &[u8]) -> Option<usize>
    ensures { result ≡ point_in text.now }
{
    text.iter().position(|b| *b == b'.')
}

fn behind(text: &[u8], at: usize) -> &[u8]
    requires { at < length text.now }
    ensures { result.now ≡ drop (at + 1) text.now }
{
    &text[at + 1..]
}

// The millionths that a text without a sign writes.
fn read_millionths(text: &[u8]) -> Option<u64>
    ensures value { MatchOption result ((n : ℕ) → ¬ (AreMillionths (point_in text.now) text.now n)) (AreMillionths (point_in text.now) text.now) }
    ensures below { IfSome result (λ n. n < 2 ^ 63) }
{
    let Some(at) = point_in(text) else {
        return whole_millionths(text);
    };
    let Some(whole) = whole_millionths(&text[..at]) else {
        return None;
    };
    match part_millionths(behind(text, at)) {
        Some(part) => Some(whole + part),
        None => None,
    }
}

/// A decimal in millionths: perhaps a minus, 1 to 12 digits, and perhaps a point and one digit or more. Digits behind
/// the sixth are dropped. There is no exponent.
#[tactic(auto, using(crate::proofs::NumberForms::decimal_none))]
pub fn read_decimal(text: &[u8]) -> Result<i64, Bad>
    ensures writes { Parses IsDecimalText text.now result }
    ensures value { result_ok result ≡ decimal_in text.now }
{
    match read_millionths(behind_minus(text)) {
        Some(n) => Ok(signed(has_minus(text), n)),
        None => Err(Bad),
    }
}

/// The function forms give what the texts write, and nothing where they write nothing.
pub fn number_forms_are_exact(text: &[u8])
    ensures whole { (z : ℤ) → IsWholeText text.now z ↔ whole_in text.now ≡ Some z }
    ensures decimal { (z : ℤ) → IsDecimalText text.now z ↔ decimal_in text.now ≡ Some z }
{}

/// A text writes one decimal at most.
pub fn decimal_of_a_text_is_one(text: &[u8])
    ensures { (a b : ℤ) → IsDecimalText text.now a → IsDecimalText text.now b → a ≡ b }
{}
