//! Whether a stored step may be taken: whether it carries what the rules give.
#![tactic(auto)]

mod carried;
mod taking;

pub use taking::may_take;
