//! Rules with three small bundles, for the tests of the core.
#![tactic(auto)]

mod rules;

pub use rules::{TinyPlan, TinyRules, TinyWork};
