//! What the experts for prefixes, taxonomies, rules and duplicates make of an event's fields.
#![tactic(auto)]

mod chosen;
mod classifying;
mod enriching;
pub mod laws;
mod modifying;
mod setting;
mod word;

pub use chosen::{DedupRule, dedup_fields};
pub use classifying::taxonomy;
pub use enriching::{FieldsList, enrich};
pub use modifying::modify;
