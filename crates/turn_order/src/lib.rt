//! The order of one thread: whose turn it is in a state, and whether anything is left to do.
#![tactic(auto)]

mod actor;
mod laws;
mod order;

pub use actor::Actor;
pub use laws::{
    first_actors_may_act, full_hands_fit, hands_are_live, idle_is_told, nothing_waits, takes_fit,
};
pub use order::{first_actor, has_finished, is_idle};
