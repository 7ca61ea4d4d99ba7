use crate::Boxed;
use base_types::{ListOf, Text, TextList};
use field_types::{FieldName, Value};
use scalar_net::Network;

pub type CondList = ListOf<Cond>;

pub type ValueList = ListOf<Value>;

pub type SieveItemList = ListOf<SieveItem>;

/// A condition, and the items that run where it holds.
pub type Case = (Cond, SieveItemList);

pub type CaseList = ListOf<Case>;

/// A number as it is written.
#[derive(Clone, Copy, Debug, PartialEq, Eq)]
pub enum Amount {
    Whole(i64),
    /// In millionths.
    Decimal(i64),
}

/// What a condition asks of a field, with its operand.
#[derive(Debug, Drop)]
pub enum Test {
    Exists,
    Absent,
    Equal(Value),
    Differs(Value),
    Contains(Text),
    /// The pattern with this number, from 0.
    Found { pattern: u32 },
    NotFound { pattern: u32 },
    Below(Amount),
    AtMost(Amount),
    Above(Amount),
    AtLeast(Amount),
    Within(Network),
    In(ValueList),
    /// Earlier than so many seconds ago.
    Before { span: u64 },
    /// Later than so many seconds ago.
    After { span: u64 },
}

/// A condition as it is written. A row of one is a row.
#[derive(Debug, Drop)]
pub enum Cond {
    /// Conditions with `||` between.
    Any(CondList),
    /// Conditions with `&&` between.
    All(CondList),
    Not(Boxed<Cond>),
    Test { key: FieldName, test: Test },
}

/// Which of the fields that are to be set are set.
#[derive(Clone, Copy, Debug, PartialEq, Eq)]
pub enum How {
    /// An absent one.
    Add,
    Force,
    /// A present one.
    Update,
}

/// What a field is set to.
#[derive(Debug, Drop)]
pub enum PutSource {
    Fixed(Value),
    /// The value of this field.
    Copy(FieldName),
}

/// A part of a sieve that is run.
#[derive(Debug, Drop)]
pub enum SieveItem {
    Choice {
        cases: CaseList,
        otherwise: SieveItemList,
    },
    Keep,
    Drop,
    Path {
        names: TextList,
    },
    /// Its source stands at that offset.
    Put {
        key: FieldName,
        how: How,
        source: PutSource,
        at: u32,
    },
    Remove {
        key: FieldName,
    },
}
