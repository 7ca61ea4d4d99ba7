//! Output files: a sealed front that no crash takes away, completed by the lines behind it.
#![tactic(auto)]

mod out_files;

pub use out_files::{OutFault, bring_up};
