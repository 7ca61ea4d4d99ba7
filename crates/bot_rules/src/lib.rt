//! Rules: what the bots of a configuration are, report and give.
#![tactic(auto)]

mod body;
mod change;
mod copies;
mod experts;
mod facts;
mod give;
mod job;
mod parsers;
mod plan;
mod planned;
mod report;
mod rules;
mod sieves;
mod table;
mod work;

pub use change::{Change, ModifyJob};
pub use job::{Job, SieveJob};
pub use plan::IntelPlan;
pub use rules::IntelRules;
pub use table::{Rows, Table, TableList};
pub use work::IntelWork;
