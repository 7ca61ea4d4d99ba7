use base_types::{Text, TextList};
use event_model::Fields;

/// What a parameter is taken as.
#[derive(Debug, Drop)]
pub enum Setting {
    Whole(u64),
    Switch(bool),
    Line(Text),
    Lines(TextList),
    Defaults(Fields),
    /// Nothing, which the parameter may be.
    Unset,
}
