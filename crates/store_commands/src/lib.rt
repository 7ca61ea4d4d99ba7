//! Commands on a store: one is made, what is shown of its state, its outputs are completed, and a message that was put aside
//! is redone.
#![tactic(auto)]

mod beginning;
mod completing;
mod end;
mod laws;
mod printing;
mod redoing;
mod showing;

pub use beginning::{find_store, init, make_store};
pub use completing::{complete, finish};
pub use end::{StoreEnd, end_of};
pub use laws::sealed_states_print_alike;
pub use printing::Shown;
pub use redoing::redo;
pub use showing::show;

/// The codes of a generation's steps have at most so many bytes together.
pub const STEP_BYTES: u64 = 67_108_864;
