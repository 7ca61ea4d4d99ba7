//! Texts of values, fields, messages, tokens, words and statuses, as lines of data.
//!
//! A case is `CALL: INPUT`. Inputs and answers are texts with the escapes `\n`, `\r`, `\t`, `\\` and `\xHH`. `long CALL: ` takes an
//! input that is built of parts.
#![tactic(auto)]

mod cases;
mod edits;
mod faults;
mod fields;
mod inputs;
mod messages;
mod numbers;
mod sieves;
mod statuses;
mod values;
mod words;

pub use cases::answer;
