use field_types::Value;

/// What a leaf of a tree adds to the fields.
#[derive(Debug, Drop)]
pub enum Part {
    Nothing,
    Set(Value),
    Bad,
}
