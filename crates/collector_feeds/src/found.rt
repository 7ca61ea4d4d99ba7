use report_cut::Cut;

/// What stands at an offset of a collector's feed.
#[derive(Debug, PartialEq, Eq, Drop)]
pub enum Found {
    /// These lines come next.
    Piece { cut: Cut },
    /// The feed ends here.
    End,
    /// There is no feed of this name.
    Absent,
    /// The feed has so many bytes, fewer than the offset.
    Short { have: u64 },
    /// The line that begins at this feed offset, in bytes, passes 1,048,576 bytes with its newline.
    LongLine { at: u64 },
    /// The next piece would end behind the longest feed, 1,073,741,824 bytes.
    LongFeed,
}
