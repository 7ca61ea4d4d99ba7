//! Holds of one worker after another on a book in memory, as lines of data.
#![tactic(auto)]

mod cases;
mod playing;
mod texts;

pub use cases::answer;
