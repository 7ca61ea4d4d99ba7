//! The outside in memory: objects that keep the promises of the outside, tell what they hold, and fail where they
//! are told to.
#![tactic(auto)]

mod calls;
mod change;
mod choice;
mod clock;
mod crash;
mod disk;
mod files;
mod gate;
mod log;
mod plan;
mod replay;
mod shelf;
mod sink;
mod source;

pub use choice::Choice;
pub use clock::MemClock;
pub use disk::{MemDisk, image_is_left_since};
pub use gate::NoGate;
pub use shelf::MemShelf;
pub use sink::MemSink;
pub use source::MemSource;
