//! Holds: what a worker does while it has the turn, and what it computes between two of them. No function here knows of a lock or of a
//! thread.
#![tactic(auto)]

mod caller;
mod collector;
mod commits;
mod computing;
mod feed;
mod instance;
mod job;
mod looked;
mod place;
mod turned;

pub use caller::{caller_turn, stop_turn};
pub use collector::{Collector, collector_turn};
pub use computing::compute;
pub use feed::ReadFeed;
pub use instance::{Instance, instance_turn};
pub use job::{Done, Job, Ready};
pub use looked::{FeedFault, Looked};
pub use place::{Place, Sight};
pub use turned::{HoldEnd, Turned};
