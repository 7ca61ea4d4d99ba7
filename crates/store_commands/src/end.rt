ghost use Rattle.std.specs.Prelude.{◌≡◌, ◌≢◌};
ghost use Rattle.store_commands.specs.Ends.{end_of, refusal_end};

use journal_book::{BookFault, StageRefusal};

/// How a command on a store ended.
#[derive(Clone, Copy, Debug, PartialEq, Eq)]
pub enum StoreEnd {
    Done,
    /// There was no memory.
    Memory,
    /// The disk failed.
    Disk,
    /// The output failed.
    Sink,
    /// The root has so many bytes: there is no store, or one where one is to be made.
    Store { have: u64 },
    /// The bytes of a file from this offset on are none that a store has there.
    Damaged { file: u64, at: u64 },
    /// No store begins with the bundle.
    Refused,
    /// There is no dump of this number.
    NoDump { no: u64 },
    /// The step would bring this number past the last one that may be given.
    Spent { next: u64 },
    /// The codes of the generation's steps would have so many bytes together, and that is too many.
    Full { bytes: u64 },
}

/// What comes of a store that can't be made or opened, or whose outputs can't be completed.
pub fn end_of(fault: BookFault) -> StoreEnd
    ensures { result ≡ end_of fault }
{
    match fault {
        BookFault::Disk => StoreEnd::Disk,
        BookFault::Damaged { file, at } => StoreEnd::Damaged { file, at },
        BookFault::Store { have } => StoreEnd::Store { have },
        BookFault::Refused => StoreEnd::Refused,
        BookFault::OutOfMemory => StoreEnd::Memory,
    }
}

/// What comes of a refusal of the step that redoes the dump of this number.
pub(crate) fn refusal_end(dump: u64, refusal: StageRefusal) -> StoreEnd
    requires { refusal ≢ StageRefusal.Broken }
    ensures { result ≡ refusal_end dump refusal }
{
    match refusal {
        StageRefusal::Broken => unreachable!(),
        StageRefusal::Step(_) => StoreEnd::NoDump { no: dump },
        StageRefusal::Spent { next } => StoreEnd::Spent { next },
        StageRefusal::Full { bytes } => StoreEnd::Full { bytes },
        StageRefusal::OutOfMemory => StoreEnd::Memory,
    }
}
