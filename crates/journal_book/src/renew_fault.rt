ghost use Rattle.std.specs.Prelude.{◌≡◌};

use base_types::OutOfMemory;

/// Why a generation could not be begun.
#[derive(Clone, Copy, Debug, PartialEq, Eq)]
pub enum RenewFault {
    /// The disk failed in an earlier call of this book.
    Broken,
    /// The number of the generation, or the length of the root's file in bytes, would be this one, past the last that may be given.
    Spent { next: u64 },
    /// The code of the state with which the generation would begin has so many bytes, more than a store may hold.
    Full { bytes: u64 },
    /// The disk failed. The book is broken from now on: open the store again.
    Disk,
    /// The file of an output is shorter than what is sealed of it, and has this length in bytes.
    Damaged { file: u64, at: u64 },
    OutOfMemory,
}

impl From<OutOfMemory> for RenewFault {
    ghost use Rattle.journal_book.specs.declared.renew_fault.RenewFault.TheVariants as fault;

    ghost from_gives = { λ _ e. e ≡ fault.OutOfMemory };

    fn from(_: OutOfMemory) -> Self {
        RenewFault::OutOfMemory
    }
}
