ghost use Rattle.std.specs.Prelude.{◌≡◌, ◌≤◌, ◌+◌, drop, length, IfSome};
ghost use Rattle.std.specs.List.{position_or_len};
ghost use Rattle.base_types.specs.Digits.{digits_in};
ghost use Rattle.sieve_reader.specs.Span.{begins_with_zero, count_in, is_space, is_unit, span_in, unit_in};

use base_types::read_digits;

fn is_unit(word: &[u8], one: &[u8], several: &[u8]) -> bool
    ensures { result ≡ is_unit one.now several.now word.now }
{
    word == one || word == several
}

fn unit_in(word: &[u8]) -> Option<u64>
    ensures { result ≡ unit_in word.now }
{
    if is_unit(word, b"minute", b"minutes") {
        Some(60)
    } else if is_unit(word, b"hour", b"hours") {
        Some(3_600)
    } else if is_unit(word, b"day", b"days") {
        Some(86_400)
    } else if is_unit(word, b"week", b"weeks") {
        Some(604_800)
    } else {
        None
    }
}

fn digits_in(text: &[u8]) -> Option<u64>
    ensures { result ≡ digits_in 7 text.now }
{
    read_digits(text, 7)
}

fn begins_with_zero(text: &[u8]) -> bool
    ensures { result ≡ begins_with_zero text.now }
{
    match text.first() {
        Some(b) => *b == b'0',
        None => false,
    }
}

fn count_in(digits: &[u8]) -> Option<u64>
    ensures count { result ≡ count_in digits.now }
    ensures most { IfSome result (λ n. n ≤ 1000000) }
{
    let n = digits_in(digits)?;
    if begins_with_zero(digits) || n > 1_000_000 {
        return None;
    }
    Some(n)
}

fn space_at(text: &[u8]) -> usize
    ensures place { result ≡ position_or_len is_space text.now }
    ensures within { result ≤ length text.now }
{
    text.iter().take_while(|b| **b != b' ').count()
}

fn behind(text: &[u8], at: usize) -> &[u8]
    requires { at ≤ length text.now }
    ensures { result.now ≡ drop (at + 1) text.now }
{
    match &text[at..] {
        [_, behind @ ..] => behind,
        [] => &[],
    }
}

/// The seconds of a span of time, as `5 minutes` or `1 week`.
#[tactic(auto, unfolding(crate::specs::Span::span_in))]
pub fn span_in(text: &[u8]) -> Option<u64>
    ensures { result ≡ span_in text.now }
{
    let at = space_at(text);
    let n = count_in(&text[..at])?;
    let seconds = unit_in(behind(text, at))?;
    Some(n * seconds)
}
