ghost use Rattle.std.specs.Prelude.{◌≡◌, IfOk};
ghost use Rattle.sieve_reader.specs.Leaf.{judged};
ghost use Rattle.sieve_reader.specs.Outcome.{Gives};
ghost use Rattle.sieve_reader.specs.Parse as spec;

use crate::cursor::Cursor;
use crate::fault::{Cause, Fault};
use crate::leaf::{refused, sees, take};
use crate::list::push;
use crate::symbol::Symbol;
use crate::test::tested;
use base_types::{ListOf, OutOfMemory};
use sieve_tokens::Sign;
use sieve_tree::{Boxed, Cond};
use std::alloc::Global;

fn not(alloc: Global, inner: Cond) -> Result<Cond, OutOfMemory>
    ensures { IfOk result (λ c. c ≡ Cond.Not inner) }
{
    Ok(Cond::Not(Boxed::new(alloc, inner)?))
}

#[cycle(conds)]
fn negated(alloc: Global, tokens: &mut Cursor<'_>, left: u32) -> Result<Cond, Fault>
    ensures { Gives (spec.negated judged left tokens.old) result tokens.new }
{
    if left == 0 {
        return Err(refused(tokens, Cause::Deep));
    }
    tokens.skip();
    match one(alloc, tokens, left - 1) {
        Ok(inner) => Ok(not(alloc, inner)?),
        Err(fault) => Err(fault),
    }
}

#[cycle(conds)]
fn grouped(alloc: Global, tokens: &mut Cursor<'_>, left: u32) -> Result<Cond, Fault>
    ensures { Gives (spec.grouped judged left tokens.old) result tokens.new }
{
    if left == 0 {
        return Err(refused(tokens, Cause::Deep));
    }
    tokens.skip();
    let inner = match cond(alloc, tokens, left - 1) {
        Ok(inner) => inner,
        Err(fault) => return Err(fault),
    };
    match take(tokens, Sign::CloseParen) {
        Ok(_) => Ok(inner),
        Err(fault) => Err(fault),
    }
}

#[cycle(conds)]
fn one(alloc: Global, tokens: &mut Cursor<'_>, left: u32) -> Result<Cond, Fault>
    ensures { Gives (spec.one judged left tokens.old) result tokens.new }
{
    match tokens.peek() {
        None => Err(refused(tokens, Cause::Expected)),
        Some(Symbol::Sign(Sign::Not)) => negated(alloc, tokens, left),
        Some(Symbol::Sign(Sign::OpenParen)) => grouped(alloc, tokens, left),
        Some(_) => tested(alloc, tokens),
    }
}

#[cycle(conds)]
fn both(alloc: Global, tokens: &mut Cursor<'_>, left: u32) -> Result<Cond, Fault>
    ensures { Gives (spec.both (spec.one judged left) tokens.old) result tokens.new }
{
    let mut found = ListOf::new(alloc);
    'turns: for _turn in 0..tokens.left() {
        let item = match one(alloc, tokens, left) {
            Ok(item) => item,
            Err(fault) => return Err(fault),
        };
        let Ok(()) = push(&mut found, item) else {
            return Err(Fault::OutOfMemory);
        };
        if !sees(tokens, Sign::And) {
            return Ok(Cond::All(found));
        }
        tokens.skip();
    }
    Err(refused(tokens, Cause::Expected))
}

/// A condition, with signs nested no deeper than `left`.
#[cycle(conds)]
pub fn cond(alloc: Global, tokens: &mut Cursor<'_>, left: u32) -> Result<Cond, Fault>
    ensures { Gives (spec.condition judged left tokens.old) result tokens.new }
{
    let mut found = ListOf::new(alloc);
    'turns: for _turn in 0..tokens.left() {
        let item = match both(alloc, tokens, left) {
            Ok(item) => item,
            Err(fault) => return Err(fault),
        };
        let Ok(()) = push(&mut found, item) else {
            return Err(Fault::OutOfMemory);
        };
        if !sees(tokens, Sign::Or) {
            return Ok(Cond::Any(found));
        }
        tokens.skip();
    }
    Err(refused(tokens, Cause::Expected))
}
