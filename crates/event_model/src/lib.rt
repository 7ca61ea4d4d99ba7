//! Messages: a kind, and typed fields; the values of JSON trees.
#![tactic(auto)]

mod builder;
mod clean;
mod compact;
mod fault;
mod fields;
mod leaves;
mod message;
mod names;
mod part;
mod place;
mod read;
mod tree;
mod tree_value;

pub use clean::{clean_tree, kind_of_word};
pub use compact::{NoText, push_compact};
pub use fault::{EventFault, ReadFault};
pub use fields::{Fields, is_field};
pub use leaves::{flattens, is_dropped_text};
pub use message::{Kind, Message};
pub use place::PlaceHint;
pub use read::read_tree;
pub use tree_value::value_of;
