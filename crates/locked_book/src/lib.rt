//! The book under the lock: a book that goes on within its generation from the one that a round began with, and a mark that ends the
//! round. Contracts see it as a list that only grows.
#![tactic(auto)]

mod entry;
mod hold_fault;
mod locked;

pub use entry::{EndMark, Entry};
pub use hold_fault::HoldFault;
pub use locked::Locked;
