use journal_book::StageRefusal;

/// Why a hold committed no step.
#[derive(Clone, Copy, Debug, PartialEq, Eq)]
pub enum HoldFault {
    /// The next generation is due. The round is marked so.
    Half,
    /// The disk failed in the flush ahead of the step. The round is marked as broken.
    Disk,
    Refused(StageRefusal),
}
