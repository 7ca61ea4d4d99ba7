//! The parser of reports in JSON (RFC 8259): one object, an array of objects, or an object a line.
#![tactic(auto)]

mod array;
mod laws;
mod lines;
mod object;
mod parse;
mod rule;

pub use laws::{no_item_is_lost, no_line_is_lost};
pub use parse::parse_json;
pub use rule::{JsonRule, Style};
