ghost use Rattle.std.specs.Prelude.{◌≡◌, IfOk};
ghost use Rattle.std.specs.List.{list_any};
ghost use Rattle.scalar_net.specs.Network.{is_inside};
ghost use Rattle.sieve_eval.specs.Amount.{equal};
ghost use Rattle.sieve_eval.specs.Says.{finds, has_part, is_after, is_before, is_text, passes, says, says_of_none};

use crate::amount::{amount, equal, is_above, is_at_least, is_at_most, is_below};
use crate::memo::{AddressMemo, TimeMemo};
use crate::pattern::Patterns;
use base_types::{OutOfMemory, Text};
use event_model::PlaceHint;
use field_types::Value;
use scalar_net::{Ip, Network, holds};
use sieve_tree::Test;
use std::alloc::Global;

/// What tests look at beside the event: the patterns by their numbers, the moment in seconds since 1970-01-01T00:00:00 UTC, and
/// what was read last.
#[derive(Drop)]
pub struct Setting {
    pub patterns: Patterns,
    pub moment: u64,
    pub times: TimeMemo,
    pub addresses: AddressMemo,
    pub place: PlaceHint,
}

// From 0001-01-01 to 1970-01-01 in seconds.
const EPOCH: u128 = 62_135_596_800;

fn has_part(value: &Value, part: &Text) -> bool
    ensures { result ≡ is_text (has_part part.now) value.now }
{
    match value {
        Value::Text(text) => text.as_str().contains(part.as_str()),
        _ => false,
    }
}

// Whether a value is a text in which the pattern with that number has a match.
fn finds(alloc: Global, patterns: &mut Patterns, n: u32, value: &Value) -> Result<bool, OutOfMemory>
    ensures found { IfOk result (λ found. found ≡ is_text (finds patterns.old n) value.now) }
    ensures same { patterns.new ≡ patterns.old }
{
    match value {
        Value::Text(text) => patterns.find(alloc, n, text),
        _ => Ok(false),
    }
}

fn is_within(address: Option<Ip>, net: &Network) -> bool
    ensures { result ≡ passes (is_inside net.now) address }
{
    match address {
        Some(ip) => holds(net, &ip),
        None => false,
    }
}

fn is_one_of(value: &Value, operands: &[Value]) -> bool
    ensures { result ≡ list_any (λ operand. equal operand value.now) operands.now }
{
    operands.iter().any(|operand| equal(operand, value))
}

// Whether a time is more than so many seconds before now.
fn is_before(time: Option<u64>, now: u64, span: u64) -> bool
    ensures { result ≡ passes (is_before now span) time }
{
    match time {
        Some(time) => (time as u128) + (span as u128) < now as u128 + EPOCH,
        None => false,
    }
}

// Whether a time is less than so many seconds before now.
fn is_after(time: Option<u64>, now: u64, span: u64) -> bool
    ensures { result ≡ passes (is_after now span) time }
{
    match time {
        Some(time) => now as u128 + EPOCH < time as u128 + span as u128,
        None => false,
    }
}

/// What a test says of the value of a field.
pub fn says(
    alloc: Global,
    setting: &mut Setting,
    test: &Test,
    value: &Value,
) -> Result<bool, OutOfMemory>
    ensures says { IfOk result (λ holds. holds ≡ says setting.old.patterns setting.old.moment test.now value.now) }
    ensures same { setting.new ≡ setting.old }
{
    Ok(match test {
        Test::Exists => true,
        Test::Absent => false,
        Test::Equal(operand) => equal(operand, value),
        Test::Differs(operand) => !equal(operand, value),
        Test::Contains(part) => has_part(value, part),
        Test::Found { pattern } => finds(alloc, &mut setting.patterns, *pattern, value)?,
        Test::NotFound { pattern } => !finds(alloc, &mut setting.patterns, *pattern, value)?,
        Test::Below(n) => is_below(value, amount(*n)),
        Test::AtMost(n) => is_at_most(value, amount(*n)),
        Test::Above(n) => is_above(value, amount(*n)),
        Test::AtLeast(n) => is_at_least(value, amount(*n)),
        Test::Within(net) => is_within(setting.addresses.read(value), net),
        Test::In(operands) => is_one_of(value, operands.as_slice()),
        Test::Before { span } => is_before(setting.times.read(value), setting.moment, *span),
        Test::After { span } => is_after(setting.times.read(value), setting.moment, *span),
    })
}

/// What a test says where the field is absent.
pub fn says_of_none(test: &Test) -> bool
    ensures { result ≡ says_of_none test.now }
{
    matches!(
        test,
        Test::Absent | Test::Differs(_) | Test::NotFound { .. }
    )
}
