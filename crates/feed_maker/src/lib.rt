//! The drill: feeds, lines of CSV (RFC 4180) that are made from a number so that a drill can be repeated, its bundle, and a shelf
//! that has its feed.
#![tactic(auto)]

mod bundle;
mod laws;
mod lines;
mod maker;
mod making;
mod shelf;

pub use bundle::drill_bundle;
pub use laws::drills_never_fail;
pub use maker::{MakeFault, make_feed};
pub use shelf::{DrillShelf, DrillSource};
