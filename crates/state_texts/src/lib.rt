//! What the program prints of a state.
#![tactic(auto)]

mod line;
mod state;
mod summary;

pub use state::state_text;
pub use summary::summary_text;
