ghost use Rattle.std.specs.Prelude.{◌≡◌, [], length, if◌then◌else◌};
ghost use Rattle.sieve_reader.specs.Leaf.{judged};
ghost use Rattle.sieve_reader.specs.Outcome.{Gives};
ghost use Rattle.sieve_reader.specs.Parse as spec;
ghost use Rattle.sieve_reader.specs.Parse.{read_map};

use crate::cursor::Cursor;
use crate::fault::{Cause, Fault};
use crate::leaf::{amount, field, literal, network, pattern, refused, sees, span, take, text};
use crate::list::push;
use crate::symbol::Symbol;
use base_types::ListOf;
use field_types::FieldName;
use sieve_tokens::Sign;
use sieve_tree::{Cond, Test, ValueList};
use std::alloc::Global;

// Literals with commas between.
fn literals(alloc: Global, key: &FieldName, tokens: &mut Cursor<'_>) -> Result<ValueList, Fault>
    ensures { Gives (spec.separated (spec.is_sign Sign.Comma) (spec.literal judged key.now) (length tokens.old) [] tokens.old) result tokens.new }
{
    let mut found = ListOf::new(alloc);
    'turns: for _turn in 0..tokens.left() {
        let value = match literal(alloc, key, tokens) {
            Ok(value) => value,
            Err(fault) => return Err(fault),
        };
        let Ok(()) = push(&mut found, value) else {
            return Err(Fault::OutOfMemory);
        };
        if !sees(tokens, Sign::Comma) {
            return Ok(found);
        }
        tokens.skip();
    }
    Err(refused(tokens, Cause::Expected))
}

#[tactic(auto, unfolding(crate::specs::Parse::row))]
fn literal_row(alloc: Global, key: &FieldName, tokens: &mut Cursor<'_>) -> Result<ValueList, Fault>
    ensures { Gives (spec.row (spec.literal judged key.now) tokens.old) result tokens.new }
{
    take(tokens, Sign::OpenBracket)?;
    let found = literals(alloc, key, tokens)?;
    take(tokens, Sign::CloseBracket)?;
    Ok(found)
}

/// A test that asks whether a field is there, behind its sign.
#[tactic(auto, unfolding(crate::specs::Parse::tested))]
fn presence(alloc: Global, tokens: &mut Cursor<'_>, is_there: bool) -> Result<Cond, Fault>
    ensures { Gives (read_map (λ key. Cond.Test key (if is_there then Test.Exists else Test.Absent)) (spec.field judged tokens.old)) result tokens.new }
{
    let key = field(alloc, tokens)?;
    let test = if is_there { Test::Exists } else { Test::Absent };
    Ok(Cond::Test { key, test })
}

// The operator and its operand, behind a field.
#[tactic(auto, unfolding(crate::specs::Parse::operator))]
fn operator(alloc: Global, key: &FieldName, tokens: &mut Cursor<'_>) -> Result<Test, Fault>
    ensures { Gives (spec.operator judged key.now tokens.old) result tokens.new }
{
    let before = tokens.patterns();
    let Some(Symbol::Sign(sign)) = tokens.peek() else {
        return Err(refused(tokens, Cause::Expected));
    };
    match sign {
        Sign::Equal => {
            tokens.skip();
            Ok(Test::Equal(literal(alloc, key, tokens)?))
        }
        Sign::Differs => {
            tokens.skip();
            Ok(Test::Differs(literal(alloc, key, tokens)?))
        }
        Sign::Contains => {
            tokens.skip();
            Ok(Test::Contains(text(alloc, tokens)?))
        }
        Sign::Matches => {
            tokens.skip();
            Ok(Test::Found {
                pattern: pattern(alloc, before, tokens)?,
            })
        }
        Sign::NotMatches => {
            tokens.skip();
            Ok(Test::NotFound {
                pattern: pattern(alloc, before, tokens)?,
            })
        }
        Sign::Less => {
            tokens.skip();
            Ok(Test::Below(amount(key, tokens)?))
        }
        Sign::LessOrEqual => {
            tokens.skip();
            Ok(Test::AtMost(amount(key, tokens)?))
        }
        Sign::Greater => {
            tokens.skip();
            Ok(Test::Above(amount(key, tokens)?))
        }
        Sign::GreaterOrEqual => {
            tokens.skip();
            Ok(Test::AtLeast(amount(key, tokens)?))
        }
        Sign::Within => {
            tokens.skip();
            Ok(Test::Within(network(alloc, key, tokens)?))
        }
        Sign::In => {
            tokens.skip();
            Ok(Test::In(literal_row(alloc, key, tokens)?))
        }
        Sign::Before => {
            tokens.skip();
            Ok(Test::Before {
                span: span(alloc, key, tokens)?,
            })
        }
        Sign::After => {
            tokens.skip();
            Ok(Test::After {
                span: span(alloc, key, tokens)?,
            })
        }
        _ => Err(refused(tokens, Cause::Expected)),
    }
}

// A field, and then its operator.
fn named(alloc: Global, tokens: &mut Cursor<'_>) -> Result<Cond, Fault>
    ensures { Gives (spec.named judged tokens.old) result tokens.new }
{
    let key = field(alloc, tokens)?;
    let test = operator(alloc, &key, tokens)?;
    Ok(Cond::Test { key, test })
}

/// A test.
#[tactic(auto, unfolding(crate::specs::Parse::tested))]
pub fn tested(alloc: Global, tokens: &mut Cursor<'_>) -> Result<Cond, Fault>
    ensures { Gives (spec.tested judged tokens.old) result tokens.new }
{
    match tokens.peek() {
        None => Err(refused(tokens, Cause::Expected)),
        Some(Symbol::Sign(Sign::Exists)) => {
            tokens.skip();
            presence(alloc, tokens, true)
        }
        Some(Symbol::Sign(Sign::NotExists)) => {
            tokens.skip();
            presence(alloc, tokens, false)
        }
        Some(_) => named(alloc, tokens),
    }
}
