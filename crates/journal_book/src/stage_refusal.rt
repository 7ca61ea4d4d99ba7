ghost use Rattle.std.specs.Prelude.{◌≡◌};

use base_types::OutOfMemory;
use step_code::StepRefusal;

/// Why a step was not committed. The book is as it was.
#[derive(Clone, Copy, Debug, PartialEq, Eq)]
pub enum StageRefusal {
    /// The disk failed in an earlier call of this book.
    Broken,
    /// The step doesn't fit the state.
    Step(StepRefusal),
    /// The step would bring this number past the last one that may be given.
    Spent { next: u64 },
    /// The codes of the generation's steps would have so many bytes together, more than the limit.
    Full { bytes: u64 },
    OutOfMemory,
}

impl From<OutOfMemory> for StageRefusal {
    ghost use Rattle.journal_book.specs.declared.stage_refusal.StageRefusal.TheVariants as refusal;

    ghost from_gives = { λ _ r. r ≡ refusal.OutOfMemory };

    fn from(_: OutOfMemory) -> Self {
        StageRefusal::OutOfMemory
    }
}
