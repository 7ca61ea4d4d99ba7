//! The numbers that numerals of a JSON text write.
ghost use Rattle.std.specs.Prelude.{◌≡◌, ◌==◌, ◌||◌, true, false, IfSome};
ghost use Rattle.std.specs.List.{list_all, list_any};
ghost use Rattle.serde_json.specs.Data.{unsigned};
ghost use Rattle.serde_json.specs.Read.{number_from};
ghost use Rattle.scalar_text.specs.Quote.{is_decimal, is_digit};
ghost use Rattle.event_json.specs.Direct.{IsDecimalNumeral, IsWhole};

use fast_float::Numeral;
use scalar_text::read_decimal;

// Whole numbers of more digits are read as decimals.
const MOST_DIGITS: usize = 18;

// A whole number of more than 18 digits is none that a field takes.
const TOO_LONG: u64 = 1_000_000_000_000_000_000;

fn are_digits(numeral: &[u8]) -> bool
    ensures { result ≡ list_all is_digit numeral.now }
{
    numeral.iter().all(|b| b.is_ascii_digit())
}

// Whether a numeral has at most 18 digits and nothing else.
fn is_short_whole(numeral: &[u8]) -> bool
    ensures whole { result ≡ true → is_decimal numeral.now ≡ false }
    ensures digits { result ≡ true → list_all is_digit numeral.now ≡ true }
{
    numeral.len() <= MOST_DIGITS && are_digits(numeral)
}

fn has_point_or_exponent(numeral: &[u8]) -> bool
    ensures { result ≡ list_any (λ b. (b == 46) || (b == 69) || (b == 101)) numeral.now }
{
    numeral
        .iter()
        .any(|b| *b == b'.' || *b == b'E' || *b == b'e')
}

fn unsigned(numeral: &Numeral<'_>) -> Option<u64>
    ensures { IfSome result (λ n. number_from false numeral.now ≡ Some (unsigned n)) }
{
    numeral.to_u64()
}

/// The whole number that a numeral writes, if it has no minus and at most 18 digits.
pub fn whole_in(numeral: &str) -> Option<i64>
    ensures { IfSome result (IsWhole numeral.now) }
{
    let bytes = numeral.as_bytes();
    if !is_short_whole(bytes) {
        return None;
    }
    match unsigned(&Numeral::scan(bytes)) {
        Some(n) if n < TOO_LONG => Some(n as i64),
        _ => None,
    }
}

/// The decimal that a numeral with a point or an exponent writes, in millionths.
pub fn decimal_in(numeral: &str) -> Option<i64>
    ensures { IfSome result (IsDecimalNumeral numeral.now) }
{
    let bytes = numeral.as_bytes();
    if !has_point_or_exponent(bytes) {
        return None;
    }
    match read_decimal(bytes) {
        Ok(n) => Some(n),
        Err(_) => None,
    }
}
