//! What the words of a command line ask for.
#![tactic(auto)]

mod command;
mod pairs;
mod value;
mod words;

pub use command::{Ask, Command, Run};
pub use value::is_name;
pub use words::{command_of, run_of};
