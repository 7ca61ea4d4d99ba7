//! What books answer, in short.
use journal_book::{FlushFault, StageRefusal};

/// What a book answered: the number of the step or of the last durable one, or why there is none.
#[derive(Clone, Copy, Debug, PartialEq, Eq)]
pub enum Answer {
    Number(u64),
    Broken,
    Full(u64),
    Disk,
    Other,
}

pub(crate) fn refused(refusal: StageRefusal) -> Answer {
    match refusal {
        StageRefusal::Broken => Answer::Broken,
        StageRefusal::Full { bytes } => Answer::Full(bytes),
        _ => Answer::Other,
    }
}

pub(crate) fn unflushed(fault: FlushFault) -> Answer {
    match fault {
        FlushFault::Disk => Answer::Disk,
        FlushFault::Broken => Answer::Broken,
    }
}
