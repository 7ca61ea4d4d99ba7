//! Bots that are ready for work, and what they give of the messages in their instances' hands.
#![tactic(auto)]

mod giving;
mod works;

pub use giving::give;
pub use works::Ready;
