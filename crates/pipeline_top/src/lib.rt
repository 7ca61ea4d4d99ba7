//! The top calls: what the program does for each command.
#![tactic(auto)]

mod audit;
mod buffer;
mod check;
mod convert;
mod drain;
mod drill;
mod halt;
mod init;
mod line;
mod pieces;
mod pipeline;
mod run;
mod show;
mod statuses;
mod tool;

pub use pipeline::run_pipeline;
pub use status_texts::{FeedWhy, Status, status_text};
pub use tool::run_tool;
