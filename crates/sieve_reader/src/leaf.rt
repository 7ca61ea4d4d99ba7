ghost use Rattle.std.specs.Prelude.{◌≡◌, IfErr, IfOk, IsUtf8, is_some, length, option_and_then};
ghost use Rattle.field_types.specs.Cleaning.{clean};
ghost use Rattle.field_types.specs.Field.{type_of};
ghost use Rattle.sieve_reader.specs.Ahead.{stands_for, IsWhole};
ghost use Rattle.sieve_reader.specs.Leaf as leaf;
ghost use Rattle.sieve_reader.specs.Leaf.{has_addresses, is_ordered, is_time, judged, kind_passes, network_of};
ghost use Rattle.sieve_reader.specs.Lexeme.{amount_of, literal_of};
ghost use Rattle.sieve_reader.specs.Outcome.{Gives};
ghost use Rattle.sieve_reader.specs.Parse as spec;

use crate::cursor::Cursor;
use crate::fault::{Cause, Fault};
use crate::span::span_in;
use crate::symbol::Symbol;
use base_types::{OutOfMemory, Text, TextFault};
use field_types::{FieldFault, FieldName, FieldType, Value, sanitise, type_of_bytes};
use scalar_net::{Network, read_network};
use sieve_tokens::{Keyword, Sign, content};
use sieve_tree::{Amount, is_pattern};
use std::alloc::Global;

/// The next token is refused.
pub fn refused(tokens: &Cursor<'_>, cause: Cause) -> Fault
    ensures { result ≡ Fault.Refused cause (length tokens.now) }
{
    Fault::Refused {
        cause,
        left: tokens.left(),
    }
}

fn text_of(alloc: Global, bytes: &[u8]) -> Result<Text, Fault>
    requires { IsUtf8 bytes.now }
    ensures text { IfOk result (λ text. text ≡ bytes.now) }
    ensures memory { IfErr result (λ e. e ≡ Fault.OutOfMemory) }
{
    match Text::new(alloc, bytes) {
        Ok(text) => Ok(text),
        Err(TextFault::OutOfMemory) => Err(Fault::OutOfMemory),
        Err(TextFault::Utf8 { .. }) => unreachable!(),
    }
}

fn name_of(alloc: Global, bytes: &[u8]) -> Result<FieldName, Fault>
    requires { IsUtf8 bytes.now }
    ensures name { IfOk result (λ name. name ≡ bytes.now) }
    ensures memory { IfErr result (λ e. e ≡ Fault.OutOfMemory) }
{
    match FieldName::known(bytes) {
        Some(known) => Ok(known),
        None => Ok(FieldName::from(text_of(alloc, bytes)?)),
    }
}

/// The name of a field.
#[tactic(auto, unfolding(crate::specs::Parse::field))]
pub fn field(alloc: Global, tokens: &mut Cursor<'_>) -> Result<FieldName, Fault>
    ensures { Gives (spec.field judged tokens.old) result tokens.new }
{
    let Some(Symbol::Name(key)) = tokens.peek() else {
        return Err(refused(tokens, Cause::Expected));
    };
    if type_of_bytes(key).is_none() {
        return Err(refused(tokens, Cause::Field));
    }
    let key = name_of(alloc, key)?;
    tokens.skip();
    Ok(key)
}

/// A quoted text.
#[tactic(auto, unfolding(crate::specs::Parse::text))]
pub fn text(alloc: Global, tokens: &mut Cursor<'_>) -> Result<Text, Fault>
    ensures { Gives (spec.text judged tokens.old) result tokens.new }
{
    let Some(Symbol::Quoted(piece)) = tokens.peek() else {
        return Err(refused(tokens, Cause::Expected));
    };
    let text = content(alloc, piece)?;
    tokens.skip();
    Ok(text)
}

fn is_ordered(key: &FieldName) -> bool
    ensures { result ≡ kind_passes is_ordered key.now }
{
    match key.kind() {
        Some(kind) => matches!(
            kind,
            FieldType::Accuracy
                | FieldType::Decimal
                | FieldType::Whole
                | FieldType::Asn
                | FieldType::Port
                | FieldType::Extra
        ),
        None => false,
    }
}

fn has_addresses(key: &FieldName) -> bool
    ensures { result ≡ kind_passes has_addresses key.now }
{
    match key.kind() {
        Some(kind) => matches!(kind, FieldType::Ip | FieldType::Extra),
        None => false,
    }
}

fn is_time(key: &FieldName) -> bool
    ensures { result ≡ kind_passes is_time key.now }
{
    match key.kind() {
        Some(kind) => matches!(kind, FieldType::DateTime),
        None => false,
    }
}

fn amount_of(symbol: Symbol<'_>) -> Option<Amount>
    ensures { result ≡ amount_of (stands_for symbol.entry) }
{
    match symbol {
        Symbol::Whole(n) => Some(Amount::Whole(n)),
        Symbol::Decimal(n) => Some(Amount::Decimal(n)),
        _ => None,
    }
}

/// A number that a field is compared with by order.
#[tactic(auto, unfolding(crate::specs::Parse::amount))]
pub fn amount(key: &FieldName, tokens: &mut Cursor<'_>) -> Result<Amount, Fault>
    ensures { Gives (spec.amount judged key.now tokens.old) result tokens.new }
{
    let Some(symbol) = tokens.peek() else {
        return Err(refused(tokens, Cause::Expected));
    };
    let Some(amount) = amount_of(symbol) else {
        return Err(refused(tokens, Cause::Expected));
    };
    if !is_ordered(key) {
        return Err(refused(tokens, Cause::Value));
    }
    tokens.skip();
    Ok(amount)
}

// The value that a symbol writes, if it is a literal.
fn value_of(alloc: Global, symbol: Symbol<'_>) -> Result<Option<Value>, OutOfMemory>
    requires { IsWhole symbol }
    ensures { IfOk result (λ value. value ≡ literal_of (stands_for symbol.entry)) }
{
    Ok(match symbol {
        Symbol::Quoted(piece) => Some(Value::Text(content(alloc, piece)?)),
        Symbol::Whole(n) => Some(Value::Whole(n)),
        Symbol::Decimal(n) => Some(Value::Decimal(n)),
        Symbol::Key(Keyword::True) => Some(Value::Flag(true)),
        Symbol::Key(Keyword::False) => Some(Value::Flag(false)),
        _ => None,
    })
}

// Whether a symbol is a literal.
fn is_literal(symbol: Symbol<'_>) -> bool
    ensures { result ≡ is_some (literal_of (stands_for symbol.entry)) }
{
    matches!(
        symbol,
        Symbol::Quoted(_)
            | Symbol::Whole(_)
            | Symbol::Decimal(_)
            | Symbol::Key(Keyword::True | Keyword::False)
    )
}

// The canonical value of the field's kind for this one, if there is one.
fn cleaned(alloc: Global, key: &FieldName, value: &Value) -> Result<Option<Value>, OutOfMemory>
    ensures { IfOk result (λ cleaned. cleaned ≡ option_and_then (λ k. clean k value.now) (type_of key.now)) }
{
    let Some(kind) = key.kind() else {
        return Ok(None);
    };
    match sanitise(alloc, kind, value) {
        Ok(cleaned) => Ok(Some(cleaned)),
        Err(FieldFault::BadValue) => Ok(None),
        Err(FieldFault::OutOfMemory) => Err(OutOfMemory),
    }
}

// The canonical value of the field's kind that a literal writes, if there is one.
fn value_for(
    alloc: Global,
    key: &FieldName,
    symbol: Symbol<'_>,
) -> Result<Option<Value>, OutOfMemory>
    requires { IsWhole symbol }
    ensures { IfOk result (λ value. value ≡ spec.value_in (judged (leaf.value key.now (stands_for symbol.entry)))) }
{
    match value_of(alloc, symbol)? {
        Some(value) => cleaned(alloc, key, &value),
        None => Ok(None),
    }
}

/// A literal, as the canonical value of the field's kind.
#[tactic(auto, unfolding(crate::specs::Parse::literal))]
pub fn literal(alloc: Global, key: &FieldName, tokens: &mut Cursor<'_>) -> Result<Value, Fault>
    ensures { Gives (spec.literal judged key.now tokens.old) result tokens.new }
{
    let Some(symbol) = tokens.peek() else {
        return Err(refused(tokens, Cause::Expected));
    };
    if !is_literal(symbol) {
        return Err(refused(tokens, Cause::Expected));
    }
    let Some(value) = value_for(alloc, key, symbol)? else {
        return Err(refused(tokens, Cause::Value));
    };
    tokens.skip();
    Ok(value)
}

fn network_of(text: &[u8]) -> Option<Network>
    ensures { result ≡ network_of text.now }
{
    match read_network(text) {
        Ok(net) => Some(net),
        Err(_) => None,
    }
}

/// The text of a network.
#[tactic(auto, unfolding(crate::specs::Parse::network))]
pub fn network(alloc: Global, key: &FieldName, tokens: &mut Cursor<'_>) -> Result<Network, Fault>
    ensures { Gives (spec.network judged key.now tokens.old) result tokens.new }
{
    let Some(Symbol::Quoted(piece)) = tokens.peek() else {
        return Err(refused(tokens, Cause::Expected));
    };
    let text = content(alloc, piece)?;
    if !has_addresses(key) {
        return Err(refused(tokens, Cause::Value));
    }
    let Some(net) = network_of(text.bytes()) else {
        return Err(refused(tokens, Cause::Value));
    };
    tokens.skip();
    Ok(net)
}

/// The text of a span of time, in seconds.
#[tactic(auto, unfolding(crate::specs::Parse::span))]
pub fn span(alloc: Global, key: &FieldName, tokens: &mut Cursor<'_>) -> Result<u64, Fault>
    ensures { Gives (spec.span judged key.now tokens.old) result tokens.new }
{
    let Some(Symbol::Quoted(piece)) = tokens.peek() else {
        return Err(refused(tokens, Cause::Expected));
    };
    let text = content(alloc, piece)?;
    if !is_time(key) {
        return Err(refused(tokens, Cause::Value));
    }
    let Some(seconds) = span_in(text.bytes()) else {
        return Err(refused(tokens, Cause::Value));
    };
    tokens.skip();
    Ok(seconds)
}

/// The text of a pattern, whose sign has that number.
#[tactic(auto, unfolding(crate::specs::Parse::pattern))]
pub fn pattern(alloc: Global, before: u32, tokens: &mut Cursor<'_>) -> Result<u32, Fault>
    ensures { Gives (spec.pattern judged before tokens.old) result tokens.new }
{
    let Some(Symbol::Quoted(piece)) = tokens.peek() else {
        return Err(refused(tokens, Cause::Expected));
    };
    let text = content(alloc, piece)?;
    if !is_pattern(alloc, text.as_str())? {
        return Err(refused(tokens, Cause::Pattern));
    }
    tokens.skip();
    Ok(before)
}

fn is_sign(symbol: Symbol<'_>, sign: Sign) -> bool
    ensures { result ≡ spec.is_sign sign (stands_for symbol.entry) }
{
    match symbol {
        Symbol::Sign(other) => sign.text() == other.text(),
        _ => false,
    }
}

/// Whether the next token is that sign.
pub fn sees(tokens: &Cursor<'_>, sign: Sign) -> bool
    ensures { result ≡ spec.sees (spec.is_sign sign) tokens.now }
{
    match tokens.peek() {
        Some(symbol) => is_sign(symbol, sign),
        None => false,
    }
}

/// That sign.
#[tactic(auto, unfolding(crate::specs::Parse::sign))]
pub fn take(tokens: &mut Cursor<'_>, sign: Sign) -> Result<Sign, Fault>
    ensures { Gives (spec.sign sign tokens.old) result tokens.new }
{
    if !sees(tokens, sign) {
        return Err(refused(tokens, Cause::Expected));
    }
    tokens.skip();
    Ok(sign)
}
