ghost use Rattle.std.specs.Prelude.{◌≡◌};
ghost use Rattle.feed_reader.specs.declared.ahead.ReaderFault.TheVariants as fault;

use base_types::OutOfMemory;
use edge_traits::Failed;
use report_cut::Cut;
use std::alloc::AllocError;

/// What comes next in a feed.
#[derive(Debug, PartialEq, Eq, Drop)]
pub enum Ahead {
    /// These lines come.
    Piece { cut: Cut },
    /// The feed ends here.
    End,
    /// The line that begins at this feed offset, in bytes, passes 1,048,576 bytes with its newline.
    LongLine { at: u64 },
}

/// Why a feed isn't read on. The reader stands where it stood, and may be asked again.
#[derive(Clone, Copy, Debug, PartialEq, Eq)]
pub enum ReaderFault {
    /// The source failed.
    Failed,
    OutOfMemory,
}

impl From<Failed> for ReaderFault {
    ghost from_gives = { λ _ reader_fault. reader_fault ≡ fault.Failed };

    fn from(_: Failed) -> Self {
        ReaderFault::Failed
    }
}

impl From<OutOfMemory> for ReaderFault {
    ghost from_gives = { λ _ reader_fault. reader_fault ≡ fault.OutOfMemory };

    fn from(_: OutOfMemory) -> Self {
        ReaderFault::OutOfMemory
    }
}

impl From<AllocError> for ReaderFault {
    ghost from_gives = { λ _ reader_fault. reader_fault ≡ fault.OutOfMemory };

    fn from(_: AllocError) -> Self {
        ReaderFault::OutOfMemory
    }
}
