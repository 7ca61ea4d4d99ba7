use base_types::{ListOf, Text};
use event_model::Fields;
use field_types::{FieldName, Value};

/// What a condition wants of a field.
#[derive(Debug, Drop)]
pub enum Want<P> {
    Absent,
    /// A match of the pattern in the text that the field's value shows.
    Pattern(P),
    /// A value that equals this one.
    Value(Value),
}

pub type ConditionList = ListOf<(FieldName, Want<Text>)>;

/// The fields that are set where all conditions hold.
#[derive(Debug, Drop)]
pub struct Rule {
    /// In byte order of the names.
    pub conditions: ConditionList,
    pub sets: Fields,
}

/// The rules of a file, in the order in which they are written.
pub type ModifyRules = ListOf<Rule>;
