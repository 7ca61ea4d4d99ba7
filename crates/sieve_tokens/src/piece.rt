ghost use Rattle.std.specs.Prelude.{◌≡◌, List, ℕ, ◌↔◌, IsTrue, MatchOption};
ghost use Rattle.sieve_tokens.specs.Piece.{Stands};
ghost use Rattle.sieve_tokens.specs.Quoted.{IsQuoted};
ghost use Rattle.sieve_tokens.specs.Scan.{blank, is_quoted_of, piece_at, token};
ghost use Rattle.sieve_tokens.specs.declared.piece.Piece as own;

use crate::TokenKind;
use crate::blank::comment_len;
use crate::bytes::{is_blank_byte, is_word_start};
use crate::number::number_at;
use crate::quoted::quoted_len;
use crate::sign::sign_at;
use crate::word::word_len;

/// A piece at the front of a text: a token of the kind, or a blank where there is none. Its length is in bytes.
#[derive(Clone, Copy, Debug, PartialEq, Eq)]
pub struct Piece {
    pub kind: Option<TokenKind>,
    pub len: usize,
}

impl Piece {
    pub fn blank(len: usize) -> Piece
        ensures { result ≡ blank len }
    {
        Piece { kind: None, len }
    }

    pub fn token(kind: TokenKind, len: usize) -> Piece
        ensures { result ≡ token kind len }
    {
        Piece {
            kind: Some(kind),
            len,
        }
    }
}

#[tactic(auto, unfolding(crate::specs::Scan::piece_at))]
fn piece_at(text: &[u8]) -> Option<Piece>
    ensures { result ≡ piece_at text.now }
{
    let [first, behind @ ..] = text else {
        return None;
    };
    if is_blank_byte(*first) {
        Some(Piece::blank(1))
    } else if *first == b'/' {
        Some(Piece::blank(comment_len(text)?))
    } else if is_word_start(*first) {
        Some(Piece::token(TokenKind::Word, word_len(text)))
    } else if matches!(first, b'\'' | b'"') {
        Some(Piece::token(TokenKind::Quoted, quoted_len(*first, behind)?))
    } else if matches!(first, b'0'..=b'9' | b'-') {
        number_at(text)
    } else {
        Some(Piece::token(TokenKind::Sign, sign_at(text)?.text().len()))
    }
}

/// The piece that stands at the front of the text, the longest of all that do.
pub fn first_piece(text: &[u8]) -> Option<Piece>
    ensures { MatchOption result ((piece : own.Piece) (behind : List ℕ) → Stands piece text.now behind → ⊥) (λ piece. (behind : List ℕ) × Stands piece text.now behind) }
{
    piece_at(text)
}

fn is_quoted_of(len: usize, piece: Option<Piece>) -> bool
    ensures { result ≡ is_quoted_of len piece }
{
    match piece {
        Some(piece) => piece.len == len && matches!(piece.kind, Some(TokenKind::Quoted)),
        None => false,
    }
}

/// Whether the bytes are a quoted text.
pub fn is_quoted(bytes: &[u8]) -> bool
    ensures { IsTrue result ↔ IsQuoted bytes.now }
{
    is_quoted_of(bytes.len(), piece_at(bytes))
}
