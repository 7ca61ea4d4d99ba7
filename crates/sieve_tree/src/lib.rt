//! A sieve as a tree, with the texts of its patterns and the names of its paths.
#![tactic(auto)]

mod boxed;
mod copying;
mod pattern;
mod sieve;
mod tree;

pub use boxed::Boxed;
pub use pattern::is_pattern;
pub use sieve::{PathList, PathSpots, Sieve};
pub use tree::{
    Amount, Case, CaseList, Cond, CondList, How, PutSource, SieveItem, SieveItemList, Test,
    ValueList,
};
