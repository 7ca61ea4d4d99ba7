//! Lists whose items stand in one vector, joined both ways by index.
//!
//! Each list is a ring of slots: a slot of its own stands before its first item and behind its last. The free slots are one more ring.
//! So each change moves one slot from one ring to another, and none has to look for an end.
#![tactic(auto)]

mod growth;
pub mod laws;
mod links;
mod moves;
mod node;
mod rings;
mod slots;

pub use links::Links;
pub use node::Node;
