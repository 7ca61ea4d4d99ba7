use base_types::{Moment, Msg};
use step_code::Given;

/// A message, as it stood in the hand of an instance under the bundle of this number.
#[derive(Debug, Drop)]
pub struct Job {
    pub bundle: u64,
    pub message: Msg,
    pub since: Moment,
}

/// A bot that is ready for work under the bundle of this number.
#[derive(Drop)]
pub struct Ready<W> {
    pub bundle: u64,
    pub work: W,
}

/// What a bot gave of a message.
#[derive(Debug, Drop)]
pub struct Done {
    pub job: Job,
    pub given: Given,
}
