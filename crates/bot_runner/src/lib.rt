//! A round: each worker on a thread of its own, under one lock.
#![tactic(auto)]

mod caller_part;
mod calls;
mod collector_part;
mod ends;
mod instance_part;
mod outside;
mod round;
mod slots;
mod turns;
mod watching;
mod worker;
mod worker_part;

pub use outside::Until;
pub use round::run_round;
pub use worker::{FeedSource, RoundEnd, Why, Worker, WorkerEnd};
