//! Configurations: the plan of their bots with parameters, files and paths, or what is wrong with them.
#![tactic(auto)]

mod fault;
mod file_rules;
pub mod laws;
mod limits;
mod loading;
mod paths;
mod plan;
mod planning;
mod rules;
mod sieve;
mod whole;

pub use fault::LoadFault;
pub use loading::load;
pub use plan::{Module, NamesList, Plan, Planned, PlannedList, Route, RouteList};
