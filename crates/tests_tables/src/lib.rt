//! Steps and states as they stand in tables: lines of text.
#![tactic(auto)]

mod states;
mod steps;
mod text;
mod words;

pub use states::read_state;
pub use steps::read_step;
pub use text::text_of;
pub use words::{number, unreadable};
