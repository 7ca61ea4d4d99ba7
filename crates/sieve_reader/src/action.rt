ghost use Rattle.std.specs.Prelude.{◌≡◌, [], ◌∷◌, length, IfOk, IfErr};
ghost use Rattle.sieve_reader.specs.Leaf.{judged};
ghost use Rattle.sieve_reader.specs.Outcome.{Gives};
ghost use Rattle.sieve_reader.specs.Parse as spec;

use crate::cursor::Cursor;
use crate::fault::{Cause, Fault};
use crate::leaf::{field, literal, refused, sees, take};
use crate::list::push;
use crate::symbol::Symbol;
use base_types::{ListOf, Text, TextList};
use field_types::FieldName;
use sieve_tokens::{Sign, content};
use sieve_tree::{How, PutSource, SieveItem};
use std::alloc::Global;

#[tactic(auto, unfolding(crate::specs::Parse::path_name))]
fn path_name(alloc: Global, tokens: &mut Cursor<'_>) -> Result<Text, Fault>
    ensures { Gives (spec.path_name judged tokens.old) result tokens.new }
{
    let Some(Symbol::Quoted(piece)) = tokens.peek() else {
        return Err(refused(tokens, Cause::Expected));
    };
    let name = content(alloc, piece)?;
    if name.bytes().is_empty() {
        return Err(refused(tokens, Cause::Value));
    }
    tokens.skip();
    Ok(name)
}

// Path names with commas between.
fn path_names(alloc: Global, tokens: &mut Cursor<'_>) -> Result<TextList, Fault>
    ensures { Gives (spec.separated (spec.is_sign Sign.Comma) (spec.path_name judged) (length tokens.old) [] tokens.old) result tokens.new }
{
    let mut found = ListOf::new(alloc);
    'turns: for _turn in 0..tokens.left() {
        let name = match path_name(alloc, tokens) {
            Ok(name) => name,
            Err(fault) => return Err(fault),
        };
        let Ok(()) = push(&mut found, name) else {
            return Err(Fault::OutOfMemory);
        };
        if !sees(tokens, Sign::Comma) {
            return Ok(found);
        }
        tokens.skip();
    }
    Err(refused(tokens, Cause::Expected))
}

#[tactic(auto, unfolding(crate::specs::Parse::row))]
fn path_row(alloc: Global, tokens: &mut Cursor<'_>) -> Result<TextList, Fault>
    ensures { Gives (spec.row (spec.path_name judged) tokens.old) result tokens.new }
{
    take(tokens, Sign::OpenBracket)?;
    let found = path_names(alloc, tokens)?;
    take(tokens, Sign::CloseBracket)?;
    Ok(found)
}

fn one_name(alloc: Global, name: Text) -> Result<TextList, Fault>
    ensures names { IfOk result (λ names. names ≡ name ∷ []) }
    ensures memory { IfErr result (λ e. e ≡ Fault.OutOfMemory) }
{
    let mut found = ListOf::new(alloc);
    match found.push(name) {
        Ok(()) => Ok(found),
        Err(_) => Err(Fault::OutOfMemory),
    }
}

// The names behind `path`.
#[tactic(auto, unfolding(crate::specs::Parse::texts))]
fn texts(alloc: Global, tokens: &mut Cursor<'_>) -> Result<TextList, Fault>
    ensures { Gives (spec.texts judged tokens.old) result tokens.new }
{
    match tokens.peek() {
        None => Err(refused(tokens, Cause::Expected)),
        Some(Symbol::Sign(Sign::OpenBracket)) => path_row(alloc, tokens),
        Some(_) => {
            let name = path_name(alloc, tokens)?;
            one_name(alloc, name)
        }
    }
}

// What a field is set to.
#[tactic(auto, unfolding(crate::specs::Parse::put_source))]
fn put_source(
    alloc: Global,
    tokens: &mut Cursor<'_>,
    key: FieldName,
    how: How,
) -> Result<SieveItem, Fault>
    ensures { Gives (spec.put_source judged key how tokens.old) result tokens.new }
{
    let at = tokens.at();
    let source = match tokens.peek() {
        None => return Err(refused(tokens, Cause::Expected)),
        Some(Symbol::Name(_)) => PutSource::Copy(field(alloc, tokens)?),
        Some(_) => PutSource::Fixed(literal(alloc, &key, tokens)?),
    };
    Ok(SieveItem::Put {
        key,
        how,
        source,
        at,
    })
}

// Behind the word of an action that sets a field.
#[tactic(auto, unfolding(crate::specs::Parse::put))]
pub fn put(alloc: Global, tokens: &mut Cursor<'_>, how: How) -> Result<SieveItem, Fault>
    ensures { Gives (spec.put judged how tokens.old) result tokens.new }
{
    let key = field(alloc, tokens)?;
    take(tokens, Sign::Assign)?;
    put_source(alloc, tokens, key, how)
}

/// The paths behind `path`.
pub fn path(alloc: Global, tokens: &mut Cursor<'_>) -> Result<SieveItem, Fault>
    ensures { Gives (spec.read_map SieveItem.Path (spec.texts judged tokens.old)) result tokens.new }
{
    let names = texts(alloc, tokens)?;
    Ok(SieveItem::Path { names })
}

/// The field behind `remove`.
pub fn remove(alloc: Global, tokens: &mut Cursor<'_>) -> Result<SieveItem, Fault>
    ensures { Gives (spec.read_map SieveItem.Remove (spec.field judged tokens.old)) result tokens.new }
{
    let key = field(alloc, tokens)?;
    Ok(SieveItem::Remove { key })
}
