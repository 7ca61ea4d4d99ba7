//! Rules that set fields of the events that they match: their file, and whether an event matches.
#![tactic(auto)]

mod fault;
mod prepared;
mod reading;
mod rule;

pub use fault::RulesFault;
pub use prepared::PreparedRules;
pub use reading::read_rules;
pub use rule::{ConditionList, ModifyRules, Rule, Want};
