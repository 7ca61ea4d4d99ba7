//! The lenient reading of messages, as JSON comes in feeds: to canonical texts, or to messages.
#![tactic(auto)]

mod at_once;
mod clean;
mod compact;
mod direct;
mod leaf;
mod line;
mod list_items;
mod members;
mod message_line;
mod numbers;
mod ordered;
mod text_line;

pub use clean::{Cleaner, clean_message};
