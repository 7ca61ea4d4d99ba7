//! Codes of steps and states, as lines of data.
#![tactic(auto)]

mod calls;
mod changes;
mod marked;
mod states;
mod steps;
mod words;

pub use calls::answer;
