use crate::ColumnList;
use event_model::Fields;

/// How reports in CSV are read.
#[derive(Debug, Drop)]
pub struct CsvRule {
    /// One for each cell of a line, from the left.
    pub columns: ColumnList,
    /// The byte between cells.
    pub delimiter: u8,
    /// Whether the first line of each report is a header and no row.
    pub skip_header: bool,
    /// The fields of an event that lacks them.
    pub defaults: Fields,
}
