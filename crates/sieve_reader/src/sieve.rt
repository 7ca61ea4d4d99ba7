ghost use Rattle.std.specs.Prelude.{◌≡◌, ◌<◌, ◌≤◌, ◌-◌, ◌^◌, drop, length, List, IfOk, IfErr};
ghost use Rattle.sieve_tokens.specs.Token.{AreTokens};
ghost use Rattle.sieve_tree.specs.Fixed.{all_fixed, AreCanonical};
ghost use Rattle.sieve_tree.specs.SieveView.{SieveView};
ghost use Rattle.sieve_reader.specs.Leaf.{judged};
ghost use Rattle.sieve_reader.specs.Lexeme.{lexemes, Lexeme};
ghost use Rattle.sieve_reader.specs.Outcome.{fault_at, IsReadFault, IsReadFrom};
ghost use Rattle.sieve_reader.specs.Parse as spec;
ghost use Rattle.sieve_reader.specs.Reads.{Gives, IsFault, Reads};
ghost use Rattle.sieve_reader.specs.Refusal.{place};
ghost use Rattle.sieve_reader.specs.declared.sieve.SieveFault.TheVariants.{OutOfMemory as ran_out};

use crate::collect::{paths, patterns};
use crate::cursor::Cursor;
use crate::fault::{Cause, Fault};
use crate::statements::file;
use base_types::OutOfMemory;
use sieve_tokens::{Token, TokenFault, tokens};
use sieve_tree::{Sieve, SieveItemList};
use std::alloc::Global;

/// Why a text is no sieve, with the offset in bytes.
#[derive(Clone, Copy, Debug, PartialEq, Eq)]
pub enum SieveFault {
    /// Neither a token nor a blank begins there.
    Token { at: u32 },
    /// No sieve has this token there, or a sieve doesn't end there.
    Expected { at: u32 },
    /// The word is no field.
    Field { at: u32 },
    /// The field's kind doesn't take the literal, or it is no operand of the operator.
    Value { at: u32 },
    /// The text is no pattern.
    Pattern { at: u32 },
    /// The sign nests deeper than 64.
    Deep { at: u32 },
    OutOfMemory,
}

impl From<OutOfMemory> for SieveFault {
    ghost from_gives = { λ _ fault. fault ≡ ran_out };

    fn from(_: OutOfMemory) -> Self {
        SieveFault::OutOfMemory
    }
}

fn fault_at(cause: Cause, at: u32) -> SieveFault
    ensures { result ≡ fault_at cause at }
{
    match cause {
        Cause::Expected => SieveFault::Expected { at },
        Cause::Field => SieveFault::Field { at },
        Cause::Value => SieveFault::Value { at },
        Cause::Pattern => SieveFault::Pattern { at },
        Cause::Deep => SieveFault::Deep { at },
    }
}

// Where the last so many tokens of a text begin.
fn place(text: &[u8], tokens: &[Token], left: usize) -> u32
    requires short { length text.now < 2 ^ 32 }
    requires left { left ≤ length tokens.now }
    ensures { result ≡ place (length text.now) (drop (length tokens.now - left) (lexemes text.now tokens.now)) }
{
    match tokens.get(tokens.len() - left) {
        Some(token) => token.from,
        None => text.len() as u32,
    }
}

fn read_items(alloc: Global, text: &[u8], tokens: &[Token]) -> Result<SieveItemList, SieveFault>
    requires short { length text.now < 2 ^ 32 }
    requires tokens { AreTokens text.now tokens.now }
    ensures items { IfOk result (λ items. (rest : List Lexeme) × (spec.file judged 64 (lexemes text.now tokens.now) ≡ Ok (items, rest))) }
    ensures fixed { IfOk result (λ items. AreCanonical (all_fixed items)) }
    ensures fault { IfErr result (IsReadFault text.now tokens.now) }
{
    let mut cursor = Cursor::new(text, tokens);
    match file(alloc, &mut cursor, 64) {
        Ok(items) => Ok(items),
        Err(Fault::Refused { cause, left }) => Err(fault_at(cause, place(text, tokens, left))),
        Err(Fault::OutOfMemory) => Err(SieveFault::OutOfMemory),
    }
}

fn read_tokens(alloc: Global, text: &[u8], tokens: &[Token]) -> Result<Sieve, SieveFault>
    requires short { length text.now < 2 ^ 32 }
    requires tokens { AreTokens text.now tokens.now }
    ensures sieve { IfOk result (IsReadFrom text.now tokens.now) }
    ensures fault { IfErr result (IsReadFault text.now tokens.now) }
{
    let items = read_items(alloc, text, tokens)?;
    let patterns = patterns(alloc, &mut Cursor::new(text, tokens))?;
    let paths = paths(alloc, &mut Cursor::new(text, tokens))?;
    Ok(Sieve::of(items, patterns, paths))
}

/// The sieve that a text of fewer than 2^32 bytes writes. A bad place among its tokens goes before all else; of the other
/// faults the leftmost is told, and at one token the first in the order of `SieveFault`.
pub fn read_sieve(alloc: Global, text: &[u8]) -> Result<Sieve, SieveFault>
    requires { length text.now < 2 ^ 32 }
    ensures sound { IfOk result (Reads text.now) }
    ensures complete { (sieve : SieveView) → Reads text.now sieve → Gives sieve result }
    ensures refused { IfErr result (IsFault text.now) }
{
    match tokens(alloc, text) {
        Ok(tokens) => read_tokens(alloc, text, tokens.as_slice()),
        Err(TokenFault::Bad { at }) => Err(SieveFault::Token { at }),
        Err(TokenFault::OutOfMemory) => Err(SieveFault::OutOfMemory),
    }
}
