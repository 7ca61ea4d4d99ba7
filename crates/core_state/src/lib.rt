//! The state of a pipeline in parts that grow, and the numbers that a step brings.
#![tactic(auto)]

pub mod backlog;
pub mod caches;
pub mod copies;
pub mod feeds;
pub mod outputs;
pub mod room;
pub mod sends;
pub mod spent;
pub mod state;
