//! A line of CSV by itself (RFC 4180), as the kit's csv reads it.
#![tactic(auto)]

mod cells;
mod laws;
mod plain;
mod record;

pub use cells::{bare, fields_in, has_odd_quotes, is_text, parts_of};
pub use laws::plain_lines_are_split;
pub use plain::is_plain;
pub use record::record_of;
