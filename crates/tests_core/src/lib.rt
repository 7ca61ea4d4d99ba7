//! What the tests of the core share: a core over small rules.
#![tactic(auto)]

mod attempt;
mod tiny_core;

pub use tiny_core::{NEW, TinyCore};
