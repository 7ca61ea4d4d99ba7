ghost use Rattle.std.specs.Prelude.{◌≡◌, ◌≤◌, ◌+◌, length, IfSome};
ghost use Rattle.std.specs.List.{prefix_len};
ghost use Rattle.sieve_tokens.specs.Bytes.{is_digit};
ghost use Rattle.sieve_tokens.specs.Scan.{decimal_of, number_at, number_of, unsigned_at, whole_of};

use crate::bytes::goes_on;
use crate::{Piece, TokenKind};

fn digits_len(text: &[u8]) -> usize
    ensures value { result ≡ prefix_len is_digit text.now }
    ensures within { result ≤ length text.now }
{
    text.iter()
        .take_while(|b| matches!(**b, b'0'..=b'9'))
        .count()
}

// Behind so many digits and a point.
fn decimal_of(digits: usize, behind: &[u8]) -> Option<Piece>
    ensures value { result ≡ decimal_of digits behind.now }
    ensures within { IfSome result (λ piece. piece.len ≤ digits + 1 + length behind.now) }
{
    let fraction = digits_len(behind);
    if digits < 1 || digits > 12 || fraction == 0 || goes_on(&behind[fraction..]) {
        return None;
    }
    Some(Piece::token(TokenKind::Decimal, digits + 1 + fraction))
}

// Behind so many digits and no point.
fn whole_of(digits: usize, behind: &[u8]) -> Option<Piece>
    ensures value { result ≡ whole_of digits behind.now }
    ensures within { IfSome result (λ piece. piece.len ≤ digits) }
{
    if digits < 1 || digits > 18 || goes_on(behind) {
        return None;
    }
    Some(Piece::token(TokenKind::Whole, digits))
}

#[tactic(auto, unfolding(crate::specs::Scan::unsigned_at))]
fn unsigned_at(text: &[u8]) -> Option<Piece>
    ensures value { result ≡ unsigned_at text.now }
    ensures within { IfSome result (λ piece. piece.len ≤ length text.now) }
{
    let digits = digits_len(text);
    match &text[digits..] {
        [b'.', behind @ ..] => decimal_of(digits, behind),
        behind => whole_of(digits, behind),
    }
}

/// The number at the front of a text.
#[tactic(auto, unfolding(crate::specs::Scan::number_at))]
pub fn number_at(text: &[u8]) -> Option<Piece>
    ensures { result ≡ number_at text.now }
{
    match text {
        [b'-', behind @ ..] => {
            let piece = unsigned_at(behind)?;
            Some(Piece {
                kind: piece.kind,
                len: piece.len + 1,
            })
        }
        _ => unsigned_at(text),
    }
}
