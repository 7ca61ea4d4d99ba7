//! What the whole history of a store comes to: each generation is gone through with the rules, the first one first, up to the first
//! fault.
#![tactic(auto)]

mod audit;
mod base;
mod generation;
mod laws;
mod root;
mod sealed;
mod steps;
mod verdict;

pub use audit::audit_store;
pub use laws::{an_audit_is_one, what_is_legal_stands, what_stands_is_legal};
pub use verdict::{AuditFault, Verdict};
