//! Workers and how they end.
use base_types::{BotName, Text};
use edge_traits::{Disk, Source};
use journal_book::{Book, StageRefusal};
use step_code::Rules;
use worker_turns::FeedFault;

/// The feed of a collector: the name under which its source was fetched, and how many reads of it have failed.
pub struct FeedSource<S: Source> {
    pub file: Text,
    pub source: S,
    pub failed: u64,
}

/// A worker: an instance of a bot that takes messages, or a collector with its feed.
pub struct Worker<S: Source> {
    pub bot: BotName,
    /// From 1.
    pub instance: u8,
    pub feed: Option<FeedSource<S>>,
}

/// Why a worker's part in a round ended.
#[derive(Clone, Copy, Debug, PartialEq, Eq)]
pub enum Why {
    /// For 200 looks in a row there was nothing to do, the last time after so many steps of the history.
    Quiet { at: u64 },
    /// The next generation is due.
    Half,
    /// As many steps were made as may be.
    Left,
    /// An order asked for it.
    Stop,
    /// So many reads of the feed failed, more than the bot tries again.
    Feed { failed: u64 },
    /// No more of the feed can be read.
    Unreadable(FeedFault),
    /// A number or a length refused a step, or the book is broken.
    Refused(StageRefusal),
    /// The disk failed.
    Disk,
    Memory,
}

/// How a worker ended.
pub struct WorkerEnd<S: Source> {
    /// The numbers of the steps that it made, in the history.
    pub steps: Vec<u64>,
    pub why: Why,
    /// None for who waited for the workers.
    pub worker: Option<Worker<S>>,
}

/// How a round ended: an end for each worker, in their order, and the last one of who waited for them.
pub struct RoundEnd<D: Disk, R: Rules, S: Source> {
    pub book: Book<D, R>,
    pub ends: Vec<WorkerEnd<S>>,
}
