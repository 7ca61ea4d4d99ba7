use crate::Job;
use journal_book::StageRefusal;
use locked_book::EndMark;

/// Why a worker's part in a round ends.
#[derive(Clone, Copy, Debug, PartialEq, Eq)]
pub enum HoldEnd {
    /// The round had this mark as the worker took its turn.
    Found(EndMark),
    /// The next generation is due, and the round has that mark now.
    Half,
    /// A step was due, and as many were made as may be.
    Left,
    /// The disk failed in the flush before a step, and the round has that mark now.
    Disk,
    /// A number or a length refused a step.
    Refused(StageRefusal),
    OutOfMemory,
}

/// What a hold came to.
#[derive(Debug, Drop)]
pub enum Turned {
    /// The worker's message is this one.
    Holds(Job),
    /// The message is tried again after so many seconds.
    Retried { delay: u64 },
    /// After so many steps of the history there is nothing for the worker to do; nor for any other where nothing is left to do at all.
    Nothing { at: u64, idle: bool },
    Ended(HoldEnd),
}
