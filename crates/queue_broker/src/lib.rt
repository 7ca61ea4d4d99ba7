//! The messages of a pipeline that wait in queues, and those that are in the hands of bots' instances.
//!
//! Each queue has a list of its own, and so has each full hand, which is a list of one message. All lists stand in one vector. What a
//! step may need is reserved before. Then messages move from list to list without memory, and each call takes the same time whatever
//! the number of messages that wait.
#![tactic(auto)]

mod broker;
mod copies;
mod lists;
mod moves;
mod places;
mod reads;

pub use broker::{AckFault, Broker, TakeFault};
pub use reads::{HandAt, InHand};
