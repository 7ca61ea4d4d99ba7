//! Conditions as texts: `any(..)` and `all(..)` for rows with `||` and `&&`, and tests with their operands as they are understood.
use crate::texts::{push_json, push_text};
use base_types::OutOfMemory;
use field_types::{FieldName, Value};
use scalar_net::{Network, print_network};
use sieve_tree::{Amount, Cond, Test};

#[cycle(conditions)]
pub fn push_condition(out: &mut String, cond: &Cond) -> Result<(), OutOfMemory> {
    match cond {
        Cond::Any(inner) => push_row(out, "any", inner.as_slice()),
        Cond::All(inner) => push_row(out, "all", inner.as_slice()),
        Cond::Not(inner) => {
            out.push_str("not(")?;
            push_condition(out, inner.get())?;
            out.push_str(")")?;
            Ok(())
        }
        Cond::Test { key, test } => push_test(out, key, test),
    }
}

#[cycle(conditions)]
fn push_row(out: &mut String, word: &str, conds: &[Cond]) -> Result<(), OutOfMemory> {
    out.push_str(word)?;
    for (i, cond) in conds.iter().enumerate() {
        out.push_str(if i == 0 { "(" } else { ", " })?;
        push_condition(out, cond)?;
    }
    out.push_str(")")?;
    Ok(())
}

fn push_test(out: &mut String, key: &FieldName, test: &Test) -> Result<(), OutOfMemory> {
    out.push_str(key.as_str())?;
    out.push_str(operator(test))?;
    push_operand(out, test)
}

fn operator(test: &Test) -> &'static str {
    match test {
        Test::Exists => " exists",
        Test::Absent => " absent",
        Test::Equal(_) => " == ",
        Test::Differs(_) => " != ",
        Test::Contains(_) => " contains ",
        Test::Found { .. } => " =~ ",
        Test::NotFound { .. } => " !~ ",
        Test::Below(_) => " < ",
        Test::AtMost(_) => " <= ",
        Test::Above(_) => " > ",
        Test::AtLeast(_) => " >= ",
        Test::Within(_) => " << ",
        Test::In(_) => " in ",
        Test::Before { .. } => " before ",
        Test::After { .. } => " after ",
    }
}

fn push_operand(out: &mut String, test: &Test) -> Result<(), OutOfMemory> {
    match test {
        Test::Exists | Test::Absent => Ok(()),
        Test::Equal(value) | Test::Differs(value) => push_json(out, value),
        Test::Contains(text) => push_text(out, text),
        Test::Found { pattern } | Test::NotFound { pattern } => push_pattern(out, *pattern),
        Test::Below(n) | Test::AtMost(n) | Test::Above(n) | Test::AtLeast(n) => {
            push_amount(out, *n)
        }
        Test::Within(net) => push_network(out, net),
        Test::In(values) => push_values(out, values.as_slice()),
        Test::Before { span } | Test::After { span } => push_span(out, *span),
    }
}

fn push_pattern(out: &mut String, number: u32) -> Result<(), OutOfMemory> {
    write!(out, "pattern {number}")?;
    Ok(())
}

fn push_span(out: &mut String, seconds: u64) -> Result<(), OutOfMemory> {
    write!(out, "{seconds} seconds")?;
    Ok(())
}

fn push_amount(out: &mut String, amount: Amount) -> Result<(), OutOfMemory> {
    match amount {
        Amount::Whole(n) => push_json(out, &Value::Whole(n)),
        Amount::Decimal(n) => push_json(out, &Value::Decimal(n)),
    }
}

fn push_network(out: &mut String, net: &Network) -> Result<(), OutOfMemory> {
    let text = print_network(*out.allocator(), net)?;
    out.push_str(text.as_str())?;
    Ok(())
}

fn push_values(out: &mut String, values: &[Value]) -> Result<(), OutOfMemory> {
    for (i, value) in values.iter().enumerate() {
        out.push_str(if i == 0 { "[" } else { ", " })?;
        push_json(out, value)?;
    }
    out.push_str("]")?;
    Ok(())
}
