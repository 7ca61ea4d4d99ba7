//! The feeds of collectors during a call: each is fetched at its first look, read on from where its collector stands, and
//! given back.
#![tactic(auto)]

mod back;
mod feed;
mod found;
mod looking;
mod open_feed;
mod stage;

pub use back::{give_all_back, give_back};
pub use feed::CollectorFeed;
pub use found::Found;
pub use looking::{LookFault, look};
pub use open_feed::{OpenFeed, find_in};
