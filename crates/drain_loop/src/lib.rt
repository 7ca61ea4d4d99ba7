//! The loop over turns: one thread opens a call, goes on until nothing is left to do, and gives the feeds of its collectors back.
#![tactic(auto)]

mod begin;
mod closing;
mod collectors;
mod drain;
mod feeds;
mod next;

pub use begin::{Opening, open_rounds, open_turns, reload};
pub use drain::drain_book;
