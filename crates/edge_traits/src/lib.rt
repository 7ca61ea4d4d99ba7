//! The outside as traits: what a feed, a shelf of files, an output, a disk and a clock may do.
//!
//! Each object counts its faults, and the count never falls. Some objects tell what they hold, as those in memory
//! do, and others don't, as those over the system's files: a clause on what is held speaks of the first alone.
#![tactic(auto)]

mod clock;
mod disk;
mod gate;
mod no_disk;
mod shelf;
mod sink;
mod source;
mod write;

pub use clock::Clock;
pub use disk::Disk;
pub use gate::{Gate, When};
pub use no_disk::NoDisk;
pub use shelf::{Shelf, ShelfFault};
pub use sink::Sink;
pub use source::{Failed, Source};
pub use write::write_all;
