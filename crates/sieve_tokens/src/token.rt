ghost use Rattle.std.specs.Prelude.{◌≡◌, ◌<◌, ◌^◌, ◌++◌, length, IfOk, IfErr, OnOk};
ghost use Rattle.sieve_tokens.specs.Token.{spanned, AreTokens, IsTokenFault};
ghost use Rattle.sieve_tokens.specs.declared.token.TokenFault.TheVariants.{OutOfMemory};

use crate::first_piece;
use base_types::{ListOf, OutOfMemory};
use std::alloc::Global;

/// What a token is.
#[derive(Clone, Copy, Debug, PartialEq, Eq)]
pub enum TokenKind {
    Word,
    Quoted,
    Whole,
    Decimal,
    Sign,
}

/// A token, with the offsets in bytes of its first byte and of what follows it.
#[derive(Clone, Copy, Debug, PartialEq, Eq)]
pub struct Token {
    pub kind: TokenKind,
    pub from: u32,
    pub upto: u32,
}

pub type TokenList = ListOf<Token>;

/// Why a text has no tokens.
#[derive(Clone, Copy, Debug, PartialEq, Eq)]
pub enum TokenFault {
    /// Neither a token nor a blank begins at this offset; before it there are only these.
    Bad { at: u32 },
    OutOfMemory,
}

impl From<OutOfMemory> for TokenFault {
    ghost from_gives = { λ _ fault. fault ≡ OutOfMemory };

    fn from(_: OutOfMemory) -> Self {
        TokenFault::OutOfMemory
    }
}

// The token of that kind between these offsets goes to the end, if it is one.
fn put_span(
    found: &mut TokenList,
    kind: Option<TokenKind>,
    from: usize,
    upto: usize,
) -> Result<(), OutOfMemory>
    requires from { from < 2 ^ 32 }
    requires upto { upto < 2 ^ 32 }
    ensures { OnOk result (found.new ≡ found.old ++ spanned kind from upto) }
{
    let Some(kind) = kind else { return Ok(()) };
    let token = Token {
        kind,
        from: from as u32,
        upto: upto as u32,
    };
    match found.push(token) {
        Ok(()) => Ok(()),
        Err((e, _)) => Err(e),
    }
}

/// The tokens of a text of fewer than 2^32 bytes.
pub fn tokens(alloc: Global, text: &[u8]) -> Result<TokenList, TokenFault>
    requires { length text.now < 2 ^ 32 }
    ensures ok { IfOk result (AreTokens text.now) }
    ensures bad { IfErr result (IsTokenFault text.now) }
{
    let mut found = ListOf::new(alloc);
    let mut rest = text;
    'pieces: while !rest.is_empty() {
        let at = text.len() - rest.len();
        let Some(piece) = first_piece(rest) else {
            return Err(TokenFault::Bad { at: at as u32 });
        };
        put_span(&mut found, piece.kind, at, at + piece.len)?;
        rest = &rest[piece.len..];
    }
    Ok(found)
}
