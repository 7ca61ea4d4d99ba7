//! The lines of table programs: cases that a program of tests reads, and answers that it prints.
//!
//! Bytes stand in a line in hex, or as a text with the escapes `\n`, `\r`, `\t`, `\\` and `\xHH` (two hex digits in lower case, a byte).
#![tactic(auto)]

mod escapes;
mod hex;
mod repeats;

pub use escapes::{escaped, push_escaped, unescaped};
pub use hex::bytes_of;
pub use repeats::repeated;
