ghost use Rattle.std.specs.Prelude.{◌≡◌};
ghost use Rattle.report_cut.specs.declared.piece.CutFault.TheVariants.{OutOfMemory};

use base_types::{Blob, ListOf};
use std::alloc::AllocError;

/// How a feed is cut.
#[derive(Clone, Copy, Debug, PartialEq, Eq)]
pub struct CutRule {
    /// The most bytes that a piece of more than one line has, with the header before it: 1 to 1,048,576.
    pub chunk_size: u32,
    /// Whether the feed's first line is a header, which stands before each piece.
    pub replicate: bool,
}

/// A piece of a feed.
#[derive(Debug, PartialEq, Eq, Drop)]
pub struct Cut {
    /// The header, where it is repeated, and then whole lines.
    pub piece: Blob,
    /// The feed offset behind the piece's last line, in bytes.
    pub upto: u64,
}

pub type CutList = ListOf<Cut>;

/// Why no piece is handed out.
#[derive(Clone, Copy, Debug, PartialEq, Eq)]
pub enum CutFault {
    /// The line that begins at this feed offset, in bytes, passes 1,048,576 bytes with its newline.
    LongLine { at: u64 },
    OutOfMemory,
}

impl From<AllocError> for CutFault {
    ghost from_gives = { λ _ fault. fault ≡ OutOfMemory };

    fn from(_: AllocError) -> Self {
        CutFault::OutOfMemory
    }
}

impl From<base_types::OutOfMemory> for CutFault {
    ghost from_gives = { λ _ fault. fault ≡ OutOfMemory };

    fn from(_: base_types::OutOfMemory) -> Self {
        CutFault::OutOfMemory
    }
}
