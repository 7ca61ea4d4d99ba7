//! Bundles, and what their bots give, as lines of data.
#![tactic(auto)]

mod answers;
mod bots;
mod bundles;
mod codes;
mod facts;
mod files;
mod loads;
mod modules;
mod notes;
mod parsers;
mod plans;
mod settings;
mod texts;

pub use answers::answer;
pub use files::with_files;
