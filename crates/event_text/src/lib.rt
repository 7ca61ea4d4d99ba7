//! The canonical text of a message, and its strict reading; the lenient reading of any text, by a tree.
#![tactic(auto)]

pub mod laws;
mod pairs;
mod strict;
mod string;
mod tree;
mod value;
mod write;

pub use strict::{message_in, read_message};
pub use tree::clean_any;
pub use write::{opening, push_message, write_message};
