//! A lock over a value that contracts see as a list which only grows. Whoever takes the turn finds all that its seat has seen and
//! added; whoever closes the lock knows of every entry which seat added it.
#![tactic(auto)]

mod acts;
mod grows;
mod held_value;
mod lock;
mod rule;
mod view;

pub use grows::Grows;
pub use lock::{BookLock, Busy, Held, Seat};
