//! The command `audit`: a store is opened, all of its generations are gone through, and what they come to is told.
#![tactic(auto)]

mod auditing;
mod end;

pub use auditing::audit;
pub use end::AuditEnd;
