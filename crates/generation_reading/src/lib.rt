//! What the records of a store's files hold: the generation that its root names, the state that a generation begins with, and
//! the steps behind it, each of which is replayed, or all of them as values; and the state of a new store.
#![tactic(auto)]

mod history;
mod lent;
mod new_store;
mod reading;
mod replaying;
mod values;

pub use history::{History, history_of};
pub use lent::Lent;
pub use new_store::first_state;
pub use reading::{FRAME, HEADER, base_of, generation_named};
pub use replaying::replay_bodies;
pub use values::{StepList, decode_history};
