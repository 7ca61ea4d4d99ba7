//! How a command ended: the statuses of the program, their numbers and their printed texts.
#![tactic(auto)]

mod fault;
mod status;

pub use fault::fault_number;
pub use status::{FeedWhy, Status, status_text};
