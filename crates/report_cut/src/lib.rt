//! Cuts a feed into pieces of whole lines, in whatever slices the feed comes.
#![tactic(auto)]

mod cutter;
mod laws;
mod line;
mod lines;
mod pending;
mod piece;
mod scan;

pub use cutter::Cutter;
pub use laws::{any_slices, pieces_have_lines, pieces_make_up_feed, runs_are_longest};
pub use line::{first_line, without_newline};
pub use piece::{Cut, CutFault, CutList, CutRule};
pub use scan::LONGEST_LINE;
