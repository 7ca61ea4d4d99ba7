//! What a sieve makes of an event.
#![tactic(auto)]

mod amount;
mod automaton;
mod fault;
mod holding;
mod memo;
mod pattern;
mod prepared;
mod putting;
mod running;
mod saying;
mod state;
mod verdict;

pub use amount::equal;
pub use fault::EvalFault;
pub use pattern::Pattern;
pub use prepared::Prepared;
pub use verdict::{Fate, Verdict};
