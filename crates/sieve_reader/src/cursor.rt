ghost use Rattle.std.specs.Prelude.{◌≡◌, ◌<◌, ◌^◌, true, drop, length, pos, unwrap_or, IsUtf8};
ghost use Rattle.scalar_text.specs.Number.{decimal_in, whole_in};
ghost use Rattle.sieve_tokens.specs.Sign.{sign_of};
ghost use Rattle.sieve_tokens.specs.Token.{bytes_of, AreTokens};
ghost use Rattle.sieve_tokens.specs.Word.{keyword_of};
ghost use Rattle.sieve_reader.specs.Ahead.{is_right, stands_for, IsWhole, IsAhead, IsBefore, StandsAt};
ghost use Rattle.sieve_reader.specs.Lexeme.{is_pattern_sign, lexemes, symbol_of, word_symbol, sign_symbol};

use crate::symbol::Symbol;
use scalar_text::{read_decimal, read_whole};
use sieve_tokens::{Sign, Token, TokenKind, keyword_of, sign_of};
use std::marker::Model;

fn bytes_of<'t>(text: &'t [u8], token: &Token) -> &'t [u8]
    requires { is_right text.now token.now ≡ true }
    ensures { result.now ≡ bytes_of text.now token.now }
{
    &text[token.from as usize..token.upto as usize]
}

fn word_symbol(bytes: &[u8]) -> Symbol<'_>
    requires { IsUtf8 bytes.now }
    ensures symbol { stands_for result ≡ word_symbol bytes.now (keyword_of bytes.now) }
    ensures whole { IsWhole result }
{
    match keyword_of(bytes) {
        Some(keyword) => Symbol::Key(keyword),
        None => Symbol::Name(bytes),
    }
}

fn sign_symbol(bytes: &[u8]) -> Symbol<'_>
    requires { IsUtf8 bytes.now }
    ensures symbol { stands_for result ≡ sign_symbol bytes.now (sign_of bytes.now) }
    ensures whole { IsWhole result }
{
    match sign_of(bytes) {
        Some(sign) => Symbol::Sign(sign),
        None => Symbol::Name(bytes),
    }
}

fn whole_of(bytes: &[u8]) -> i64
    ensures { result ≡ unwrap_or (whole_in bytes.now) (pos 0) }
{
    match read_whole(bytes) {
        Ok(n) => n,
        Err(_) => 0,
    }
}

fn decimal_of(bytes: &[u8]) -> i64
    ensures { result ≡ unwrap_or (decimal_in bytes.now) (pos 0) }
{
    match read_decimal(bytes) {
        Ok(n) => n,
        Err(_) => 0,
    }
}

fn symbol_of<'t>(text: &'t [u8], token: &Token) -> Symbol<'t>
    requires { is_right text.now token.now ≡ true }
    ensures symbol { symbol_of token.now.kind (bytes_of text.now token.now) ≡ stands_for result }
    ensures whole { IsWhole result }
{
    let bytes = bytes_of(text, token);
    match token.kind {
        TokenKind::Word => word_symbol(bytes),
        TokenKind::Quoted => Symbol::Quoted(bytes),
        TokenKind::Whole => Symbol::Whole(whole_of(bytes)),
        TokenKind::Decimal => Symbol::Decimal(decimal_of(bytes)),
        TokenKind::Sign => sign_symbol(bytes),
    }
}

fn is_pattern_sign(symbol: Symbol<'_>) -> bool
    ensures { result ≡ is_pattern_sign (stands_for symbol.entry) }
{
    matches!(symbol, Symbol::Sign(Sign::Matches | Sign::NotMatches))
}

/// The tokens that are still to read.
#[derive(Drop)]
pub struct Cursor<'t> {
    text: &'t [u8],
    tokens: &'t [Token],
    // How many signs of patterns stand before them.
    patterns: u32,
}

impl<'t> Model for Cursor<'t> {
    ghost use Rattle.std.specs.Prelude.{◌≡◌, ◌+◌, ◌<◌, ◌^◌, List, true, length};
    ghost use Rattle.std.specs.List.{list_all};
    ghost use Rattle.sieve_reader.specs.Ahead.{is_right};
    ghost use Rattle.sieve_reader.specs.Lexeme.{lexemes_from, Lexeme};

    ghost Value = { List Lexeme };

    ghost view = { λ c. lexemes_from c.patterns c.text.now c.tokens.now };

    ghost invariant = { λ c. (list_all (is_right c.text.now) c.tokens.now ≡ true) × (c.patterns + length c.tokens.now < 2 ^ 32) };
}

impl<'t> Cursor<'t> {
    /// All tokens of a text of fewer than 2^32 bytes.
    pub fn new(text: &'t [u8], tokens: &'t [Token]) -> Cursor<'t>
        requires short { length text.now < 2 ^ 32 }
        requires tokens { AreTokens text.now tokens.now }
        ensures { result ≡ lexemes text.now tokens.now }
    {
        Cursor {
            text,
            tokens,
            patterns: 0,
        }
    }

    /// Another that stands at the same token.
    pub fn copy(&self) -> Cursor<'t>
        ensures { result ≡ self.now }
    {
        Cursor {
            text: self.text,
            tokens: self.tokens,
            patterns: self.patterns,
        }
    }

    /// How many tokens are left: fewer than 2^32.
    pub fn left(&self) -> usize
        ensures left { result ≡ length self.now }
        ensures few { result < 2 ^ 32 }
    {
        self.tokens.len()
    }

    /// How many signs of patterns stand before the next token.
    pub fn patterns(&self) -> u32
        ensures { IsBefore result self.now }
    {
        self.patterns
    }

    /// The offset of the next token.
    pub fn at(&self) -> u32
        ensures { StandsAt result self.now }
    {
        match self.tokens.first() {
            Some(token) => token.from,
            None => 0,
        }
    }

    /// What the next token stands for.
    pub fn peek(&self) -> Option<Symbol<'t>>
        ensures { IsAhead result self.now }
    {
        let token = self.tokens.first()?;
        Some(symbol_of(self.text, token))
    }

    /// The next token is read.
    pub fn skip(&mut self)
        ensures { self.new ≡ drop 1 self.old }
    {
        let [token, rest @ ..] = self.tokens else {
            return;
        };
        if is_pattern_sign(symbol_of(self.text, token)) {
            self.patterns += 1;
        }
        self.tokens = rest;
    }
}
