ghost use Rattle.std.specs.Prelude.{◌≡◌};

use ack_steps::CoreFault;
use base_types::OutOfMemory;
use disk_journal::JournalFault;
use edge_traits::Failed;

/// Why a store could not be made or opened, or its outputs not be completed.
#[derive(Clone, Copy, Debug, PartialEq, Eq)]
pub enum BookFault {
    Disk,
    /// The bytes of a file from this offset on are none that a store has there. Of an output that is shorter than its sealed
    /// front the offset is its length.
    Damaged { file: u64, at: u64 },
    /// The root has so many bytes: there is a store where one is to be made, or none where one is to be opened.
    Store { have: u64 },
    /// The bundle doesn't load, or no store may begin with it.
    Refused,
    OutOfMemory,
}

impl From<Failed> for BookFault {
    ghost use Rattle.journal_book.specs.declared.book_fault.BookFault.TheVariants as fault;

    ghost from_gives = { λ _ e. e ≡ fault.Disk };

    fn from(_: Failed) -> Self {
        BookFault::Disk
    }
}

impl From<OutOfMemory> for BookFault {
    ghost use Rattle.journal_book.specs.declared.book_fault.BookFault.TheVariants as fault;

    ghost from_gives = { λ _ e. e ≡ fault.OutOfMemory };

    fn from(_: OutOfMemory) -> Self {
        BookFault::OutOfMemory
    }
}
