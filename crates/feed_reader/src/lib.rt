//! The reader of a feed: pieces of whole lines, over any source, in bounded memory.
#![tactic(auto)]

mod ahead;
mod begin;
mod coming;
mod front;
mod reader;

pub use ahead::{Ahead, ReaderFault};
pub use begin::{Beginning, begin_at};
pub use front::read_front;
pub use reader::FeedReader;
