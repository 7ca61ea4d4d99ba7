//! Sieves and experts, as lines of data.
#![tactic(auto)]

mod answers;
mod conditions;
mod experts;
mod items;
mod messages;
mod prefixes;
mod rules;
mod sieves;
mod texts;
mod verdicts;

pub use answers::answer;
