//! The command that runs a store with a thread for each bot instance: it is opened, laps are made until nothing is left to do, and what came
//! of it is printed. A lap is a turn as a drain makes it, and a round of all workers.
#![tactic(auto)]

mod following;
mod laps;
mod laws;
mod rounds;
mod running;
mod turning;
mod workers;

pub use laws::{free_runs_end_idle, workers_keep_feeds_readable};
pub use running::{Ran, run};
