//! Names and numbers in words.
ghost use Rattle.std.specs.Prelude.{◌≡◌};
ghost use Rattle.std.specs.Option.{option_copied};
ghost use Rattle.std.specs.List.{list_all};
ghost use Rattle.command_words.specs.Values.{has_needless_zero, is_digit, is_name, is_number, name_in, number_in, number_within};

use base_types::Text;

const LONGEST_NAME: usize = 255;

/// Whether these bytes have the length of a name, 1 to 255 bytes.
pub fn is_name(bytes: &[u8]) -> bool
    ensures { result ≡ is_name bytes.now }
{
    let len = bytes.len();
    len >= 1 && len <= LONGEST_NAME
}

/// A name of 1 to 255 bytes.
pub fn name_in(text: &Text) -> Option<&Text>
    ensures { option_copied result ≡ name_in text.now }
{
    if is_name(text.bytes()) {
        Some(text)
    } else {
        None
    }
}

fn is_digit(byte: u8) -> bool
    ensures { result ≡ is_digit byte }
{
    byte.is_ascii_digit()
}

fn are_digits(text: &[u8]) -> bool
    ensures { result ≡ list_all is_digit text.now }
{
    text.iter().all(|byte| is_digit(*byte))
}

fn has_needless_zero(text: &[u8]) -> bool
    ensures { result ≡ has_needless_zero text.now }
{
    text.len() > 1 && text[0] == b'0'
}

fn is_number(text: &[u8]) -> bool
    ensures { result ≡ is_number text.now }
{
    !text.is_empty() && are_digits(text) && !has_needless_zero(text)
}

/// The number that a text writes, with no needless zero, if it fits 64 bits.
#[tactic(auto, using(crate::proofs::Numbers::number_parsed))]
pub fn number_in(text: &Text) -> Option<u64>
    ensures { result ≡ number_in text.now }
{
    if !is_number(text.bytes()) {
        return None;
    }
    text.as_str().parse::<u64>().ok()
}

/// A number from the least to the most.
pub fn number_within(text: &Text, least: u64, most: u64) -> Option<u64>
    ensures { result ≡ number_within least most text.now }
{
    let n = number_in(text)?;
    if least <= n && n <= most {
        Some(n)
    } else {
        None
    }
}
