//! Which states a store may hold: a test of what was stored, before the core takes it in.
#![tactic(auto)]

mod distinct;
mod soundness;
mod standing;

pub use soundness::is_sound;
