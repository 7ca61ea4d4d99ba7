use base_types::{BotName, Text};

/// Why the turns ended.
#[derive(Debug, PartialEq, Eq, Drop)]
pub enum TurnsEnd {
    /// Nothing is left to do.
    Idle,
    /// As many steps were made as might be, and something is left to do.
    Left,
    /// The shelf has no feed of this name.
    Absent { name: Text },
    /// Fetches and reads of the feed of this name failed more often than its collector tries again.
    Failed { name: Text },
    /// A feed has so many bytes, fewer than its collector has read.
    Short { have: u64, need: u64 },
    /// The line that begins at this offset of the collector's feed, in bytes, passes 1,048,576 bytes with its newline.
    LongLine { bot: BotName, at: u64 },
    /// The collector's next piece would end behind 1,073,741,824 bytes.
    LongFeed { bot: BotName },
    /// No bot may step, and this is the first that was halted.
    Halted { bot: BotName },
    /// The next step, or the generation that it begins, would bring this number past the last one that may be given.
    Spent { next: u64 },
    /// The codes of the generation's steps would have so many bytes together, more than the limit; or that of the state with which the next
    /// generation would begin, more than a store may hold.
    Full { bytes: u64 },
    /// The file of an output has this length in bytes, less than what is sealed of it.
    Damaged { file: u64, at: u64 },
    /// The disk failed, and the book is broken.
    Disk,
    Memory,
}
