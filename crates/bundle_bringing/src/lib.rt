//! Bundles that a command names: fetched from a shelf, with their plans, or why there is none.
#![tactic(auto)]

mod bringing;

pub use bringing::{Unbrought, bring, bring_code, code_of};
