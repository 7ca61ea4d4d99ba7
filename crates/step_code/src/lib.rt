//! The pipeline's state and the steps that change it, and what a store of rules means.
#![tactic(auto)]

mod base;
mod cache;
mod code_laws;
mod decode;
mod encode;
mod facts;
mod feed;
mod limits;
mod output;
mod rules;
mod step;

pub use base::{Base, BotList};
pub use cache::{BotCache, CacheList};
pub use code_laws::{bases_have_one_code, steps_have_one_code};
pub use decode::{decode_base, decode_step};
pub use encode::{encode_base, encode_step};
pub use facts::{bot_named, collects, is_collector, is_instance, is_live_queue, writes};
pub use feed::{Feed, FeedList};
pub use limits::{BACKLOG_LIMIT, LAST_GIVEN, LAST_MOMENT, LONGEST_BASE, LONGEST_FEED};
pub use output::{OutList, Output};
pub use rules::{CacheRule, Facts, FactsList, FeedFacts, Given, PlanFault, Role, Rules};
pub use step::{Step, StepKind, StepRefusal};
