use crate::{HoldEnd, Place, Sight};

/// Why no more of a feed can be read.
#[derive(Clone, Copy, Debug, PartialEq, Eq)]
pub enum FeedFault {
    /// It has so many bytes, fewer than were collected of it.
    Short { have: u64, need: u64 },
    /// The line that begins at this feed offset, in bytes, passes 1,048,576 bytes with its newline.
    LongLine { at: u64 },
    /// The next piece would end past the longest feed, 1,073,741,824 bytes.
    LongFeed,
}

/// What a hold of a collector came to.
#[derive(Debug, Drop)]
pub enum Looked {
    /// The collector looks here next.
    Looks(Place),
    /// After so many steps of the history so much waits that nothing is collected. What was found is kept.
    Waits { at: u64, sight: Sight },
    /// After so many steps of the history there is nothing for the collector to look for; nor anything to do for any other worker where
    /// nothing is left to do at all.
    Nothing { at: u64, idle: bool },
    Unreadable(FeedFault),
    Ended(HoldEnd),
}
