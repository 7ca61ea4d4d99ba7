//! Messages that were put aside, since a bot couldn't process them.
#![tactic(auto)]

mod dumps;
mod escape;
mod export;

pub use dumps::Dumps;
pub use export::ExportFault;
