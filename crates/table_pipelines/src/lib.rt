//! Sessions with the program over the outside in memory, as lines of a script.
#![tactic(auto)]

mod command;
mod crashes;
mod files;
mod outside;
mod playing;
mod script;
mod store;
mod trials;

pub use outside::Outside;
pub use script::answer;
