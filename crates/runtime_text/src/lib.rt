//! A runtime text: its bots, what is given to them, the files that it names, and which bot sends to which.
#![tactic(auto)]

mod bot;
mod cycle;
pub mod given;
pub mod laws;
mod named;
mod object;
mod runtime;
mod wires;

pub use bot::Bot;
pub use cycle::comes_back;
pub use named::named_files;
pub use object::{Object, object_of};
pub use runtime::{bots_in, tree_in};
pub use wires::{graph_of, owner};
