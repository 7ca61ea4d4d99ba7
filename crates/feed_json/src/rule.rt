use event_model::Fields;

/// How the objects stand in a report.
#[derive(Clone, Copy, Debug, PartialEq, Eq)]
pub enum Style {
    /// The report is one object.
    Object,
    /// The report is one array of objects.
    Array,
    /// Each line that isn't empty is an object.
    Lines,
}

/// How reports in JSON are read.
#[derive(Debug, Drop)]
pub struct JsonRule {
    pub style: Style,
    /// The fields of an event that lacks them.
    pub defaults: Fields,
}
