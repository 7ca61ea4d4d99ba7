//! What a parser makes of a report, row by row: an event, a bad report with its note, or nothing.
#![tactic(auto)]

mod laws;
mod notes;
mod parsed;
mod report;

pub use laws::{content_reads_back, defaults_fill_gaps};
pub use notes::{
    RowFault, column_note, json_note, key_note, kind_note, raw_note, row_note, sieve_note,
};
pub use parsed::{Bad, BadList, FieldsList, ParseFault, Parsed, Row, event_row, spoiled_row};
pub use report::{content, fill, fill_with_raw, others, with_raw, with_raw_and_room};
