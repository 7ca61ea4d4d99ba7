ghost use Rattle.std.specs.Prelude.{◌≡◌, ◌<◌, int_lt, int_le};
ghost use Rattle.sieve_eval.specs.Amount.{amount, amount_of, equal, is_amount, is_flag, is_list, is_text, millionths};
ghost use Rattle.sieve_eval.specs.Says.{is_number};

use base_types::Text;
use field_types::{ItemList, Value};
use sieve_tree::Amount;

fn millionths(n: i64) -> i128
    ensures { result ≡ millionths n }
{
    n as i128 * 1_000_000
}

// The amount of a number, in millionths.
fn amount_of(value: &Value) -> Option<i128>
    ensures { result ≡ amount_of value.now }
{
    match value {
        Value::Whole(n) => Some(millionths(*n)),
        Value::Decimal(n) => Some(*n as i128),
        _ => None,
    }
}

/// The amount that a number writes, in millionths.
pub fn amount(written: Amount) -> i128
    ensures { result ≡ amount written }
{
    match written {
        Amount::Whole(n) => millionths(n),
        Amount::Decimal(n) => n as i128,
    }
}

/// Whether a value is a number below that amount.
pub fn is_below(value: &Value, n: i128) -> bool
    ensures { result ≡ is_number (λ m. int_lt m n) value.now }
{
    match amount_of(value) {
        Some(m) => m < n,
        None => false,
    }
}

/// Whether a value is a number of at most that amount.
pub fn is_at_most(value: &Value, n: i128) -> bool
    ensures { result ≡ is_number (λ m. int_le m n) value.now }
{
    match amount_of(value) {
        Some(m) => m <= n,
        None => false,
    }
}

/// Whether a value is a number above that amount.
pub fn is_above(value: &Value, n: i128) -> bool
    ensures { result ≡ is_number (λ m. int_lt n m) value.now }
{
    match amount_of(value) {
        Some(m) => n < m,
        None => false,
    }
}

/// Whether a value is a number of at least that amount.
pub fn is_at_least(value: &Value, n: i128) -> bool
    ensures { result ≡ is_number (λ m. int_le n m) value.now }
{
    match amount_of(value) {
        Some(m) => n <= m,
        None => false,
    }
}

fn is_amount(value: &Value, n: i128) -> bool
    ensures { result ≡ is_amount n (amount_of value.now) }
{
    match amount_of(value) {
        Some(m) => n == m,
        None => false,
    }
}

fn is_text(value: &Value, text: &Text) -> bool
    ensures { result ≡ is_text text.now value.now }
{
    match value {
        Value::Text(other) => text.as_str() == other.as_str(),
        _ => false,
    }
}

fn is_flag(value: &Value, flag: bool) -> bool
    ensures { result ≡ is_flag flag value.now }
{
    match value {
        Value::Flag(other) => flag == *other,
        _ => false,
    }
}

fn is_list(value: &Value, items: &ItemList) -> bool
    ensures { result ≡ is_list items.now value.now }
{
    match value {
        Value::List(others) => items == others,
        _ => false,
    }
}

/// Whether a value equals the operand: a number of the same amount, or a value of the same sort and content.
pub fn equal(operand: &Value, value: &Value) -> bool
    ensures { result ≡ equal operand.now value.now }
{
    match operand {
        Value::Text(text) => is_text(value, text),
        Value::Whole(n) => is_amount(value, millionths(*n)),
        Value::Flag(flag) => is_flag(value, *flag),
        Value::Decimal(n) => is_amount(value, *n as i128),
        Value::List(items) => is_list(value, items),
    }
}
