//! Runs of a book's calls: what they make of it together, whatever a crash leaves; steps that are committed with a flush where one is due;
//! and what a whole call on a store leaves of its history, which is opened, goes on, and has its outputs completed.
#![tactic(auto)]

mod committing;
mod completing;
mod laws;

pub use committing::{CommitFault, commit, commit_within, is_half_full};
pub use completing::complete_outputs;
pub use laws::{calls_go_on, durable_calls, what_opens_is_replayed};
