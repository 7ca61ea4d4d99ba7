//! The book: a durable history of a pipeline's steps. A crash at any moment leaves a store that stands for a front of the
//! steps that were committed, and that front has each acknowledged one.
#![tactic(auto)]

mod book;
mod book_fault;
mod create;
mod entering;
mod files;
mod laws;
mod opening;
mod outputs;
mod past;
mod past_fault;
mod renew_fault;
mod renewing;
mod stage_refusal;
mod staging;

pub use book::{Book, FlushFault};
pub use book_fault::BookFault;
pub use laws::what_stands_opens;
pub use past::Past;
pub use past_fault::PastFault;
pub use renew_fault::RenewFault;
pub use stage_refusal::StageRefusal;
pub use staging::Move;
