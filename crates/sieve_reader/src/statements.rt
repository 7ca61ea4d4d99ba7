ghost use Rattle.std.specs.Prelude.{◌≡◌, [], length, suc};
ghost use Rattle.sieve_reader.specs.Leaf.{judged};
ghost use Rattle.sieve_reader.specs.Outcome.{Gives};
ghost use Rattle.sieve_reader.specs.Parse as spec;

use crate::action::{path, put, remove};
use crate::conds::cond;
use crate::cursor::Cursor;
use crate::fault::{Cause, Fault};
use crate::leaf::{refused, sees, take};
use crate::list::push;
use crate::symbol::Symbol;
use base_types::ListOf;
use sieve_tokens::{Keyword, Sign};
use sieve_tree::{Case, CaseList, How, SieveItem, SieveItemList};
use std::alloc::Global;

fn sees_elif(tokens: &Cursor<'_>) -> bool
    ensures { result ≡ spec.sees spec.is_elif tokens.now }
{
    matches!(tokens.peek(), Some(Symbol::Key(Keyword::Elif)))
}

fn sees_else(tokens: &Cursor<'_>) -> bool
    ensures { result ≡ spec.sees spec.is_else tokens.now }
{
    matches!(tokens.peek(), Some(Symbol::Key(Keyword::Else)))
}

fn is_end(tokens: &Cursor<'_>) -> bool
    ensures { result ≡ spec.is_end tokens.now }
{
    match tokens.peek() {
        Some(_) => false,
        None => true,
    }
}

// Items up to a closing brace.
#[cycle(statements)]
fn enclosed(alloc: Global, tokens: &mut Cursor<'_>, left: u32) -> Result<SieveItemList, Fault>
    ensures { Gives (spec.items (spec.sees (spec.is_sign Sign.CloseBrace)) (spec.an_item judged left) (suc (length tokens.old)) [] tokens.old) result tokens.new }
{
    let mut found = ListOf::new(alloc);
    'turns: for _turn in 0..tokens.left() + 1 {
        if sees(tokens, Sign::CloseBrace) {
            return Ok(found);
        }
        let item = match item(alloc, tokens, left) {
            Ok(item) => item,
            Err(fault) => return Err(fault),
        };
        let Ok(()) = push(&mut found, item) else {
            return Err(Fault::OutOfMemory);
        };
    }
    Err(refused(tokens, Cause::Expected))
}

#[cycle(statements)]
fn block(alloc: Global, tokens: &mut Cursor<'_>, left: u32) -> Result<SieveItemList, Fault>
    ensures { Gives (spec.part judged left tokens.old) result tokens.new }
{
    if !sees(tokens, Sign::OpenBrace) {
        return Err(refused(tokens, Cause::Expected));
    }
    if left == 0 {
        return Err(refused(tokens, Cause::Deep));
    }
    tokens.skip();
    let found = match enclosed(alloc, tokens, left - 1) {
        Ok(found) => found,
        Err(fault) => return Err(fault),
    };
    match take(tokens, Sign::CloseBrace) {
        Ok(_) => Ok(found),
        Err(fault) => Err(fault),
    }
}

#[cycle(statements)]
fn case(alloc: Global, tokens: &mut Cursor<'_>, left: u32) -> Result<Case, Fault>
    ensures { Gives (spec.case (spec.condition judged left) (spec.part judged left) tokens.old) result tokens.new }
{
    let condition = match cond(alloc, tokens, left) {
        Ok(condition) => condition,
        Err(fault) => return Err(fault),
    };
    match block(alloc, tokens, left) {
        Ok(items) => Ok((condition, items)),
        Err(fault) => Err(fault),
    }
}

// Cases with `elif` between.
#[cycle(statements)]
fn cases(alloc: Global, tokens: &mut Cursor<'_>, left: u32) -> Result<CaseList, Fault>
    ensures { Gives (spec.separated spec.is_elif (spec.case (spec.condition judged left) (spec.part judged left)) (length tokens.old) [] tokens.old) result tokens.new }
{
    let mut found = ListOf::new(alloc);
    'turns: for _turn in 0..tokens.left() {
        let case = match case(alloc, tokens, left) {
            Ok(case) => case,
            Err(fault) => return Err(fault),
        };
        let Ok(()) = push(&mut found, case) else {
            return Err(Fault::OutOfMemory);
        };
        if !sees_elif(tokens) {
            return Ok(found);
        }
        tokens.skip();
    }
    Err(refused(tokens, Cause::Expected))
}

#[cycle(statements)]
fn otherwise(alloc: Global, tokens: &mut Cursor<'_>, left: u32) -> Result<SieveItemList, Fault>
    ensures { Gives (spec.otherwise (spec.part judged left) tokens.old) result tokens.new }
{
    if !sees_else(tokens) {
        return Ok(ListOf::new(alloc));
    }
    tokens.skip();
    block(alloc, tokens, left)
}

#[cycle(statements)]
fn choice(alloc: Global, tokens: &mut Cursor<'_>, left: u32) -> Result<SieveItem, Fault>
    ensures { Gives (spec.choice (spec.condition judged left) (spec.part judged left) tokens.old) result tokens.new }
{
    let cases = match cases(alloc, tokens, left) {
        Ok(cases) => cases,
        Err(fault) => return Err(fault),
    };
    match otherwise(alloc, tokens, left) {
        Ok(otherwise) => Ok(SieveItem::Choice { cases, otherwise }),
        Err(fault) => Err(fault),
    }
}

/// An item, with signs nested no deeper than `left`.
#[cycle(statements)]
fn item(alloc: Global, tokens: &mut Cursor<'_>, left: u32) -> Result<SieveItem, Fault>
    ensures { Gives (spec.an_item judged left tokens.old) result tokens.new }
{
    let Some(Symbol::Key(word)) = tokens.peek() else {
        return Err(refused(tokens, Cause::Expected));
    };
    match word {
        Keyword::If => {
            tokens.skip();
            choice(alloc, tokens, left)
        }
        Keyword::Keep => {
            tokens.skip();
            Ok(SieveItem::Keep)
        }
        Keyword::Drop => {
            tokens.skip();
            Ok(SieveItem::Drop)
        }
        Keyword::Path => {
            tokens.skip();
            path(alloc, tokens)
        }
        Keyword::Add => {
            tokens.skip();
            put(alloc, tokens, How::Add)
        }
        Keyword::Force => {
            tokens.skip();
            put(alloc, tokens, How::Force)
        }
        Keyword::Update => {
            tokens.skip();
            put(alloc, tokens, How::Update)
        }
        Keyword::Remove => {
            tokens.skip();
            remove(alloc, tokens)
        }
        _ => Err(refused(tokens, Cause::Expected)),
    }
}

/// Items up to the end.
pub fn file(alloc: Global, tokens: &mut Cursor<'_>, left: u32) -> Result<SieveItemList, Fault>
    ensures { Gives (spec.file judged left tokens.old) result tokens.new }
{
    let mut found = ListOf::new(alloc);
    'turns: for _turn in 0..tokens.left() + 1 {
        if is_end(tokens) {
            return Ok(found);
        }
        let item = match item(alloc, tokens, left) {
            Ok(item) => item,
            Err(fault) => return Err(fault),
        };
        let Ok(()) = push(&mut found, item) else {
            return Err(Fault::OutOfMemory);
        };
    }
    Err(refused(tokens, Cause::Expected))
}
