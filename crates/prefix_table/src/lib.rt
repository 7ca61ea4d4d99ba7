//! Networks as a table: the longest that holds an address.
#![tactic(auto)]

mod bits;
mod growing;
pub mod laws;
pub mod nodes;
mod search;
mod steps;
mod table;

pub use nodes::{Nodes, TrieNode};
pub use steps::Steps;
pub use table::{NetworkList, PrefixTable};
