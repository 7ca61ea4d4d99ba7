//! The parser of reports in CSV (RFC 4180), a line at a time.
#![tactic(auto)]

mod column;
mod laws;
mod parse;
mod row;
mod rule;

pub use column::{Column, ColumnList};
pub use laws::{bad_lines_are_kept, empty_lines_are_skipped, none_is_lost};
pub use parse::parse_csv;
pub use rule::CsvRule;
