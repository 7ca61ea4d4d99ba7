//! The command that drains a store: it is opened, turns are made until nothing is left to do, and what came of it is printed.
#![tactic(auto)]

mod draining;
mod laws;
mod turning;

pub use draining::{Asked, drain, ended, has_memory};
pub use laws::free_drains_end_idle;
