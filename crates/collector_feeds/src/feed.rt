ghost use Rattle.std.specs.Prelude.{◌≡◌, ◌≤◌, Some, IfOk};
ghost use Rattle.report_cut.specs.Pieces.{longest_line};
ghost use Rattle.collector_feeds.specs.Standing.{closed};

use crate::stage::Stage;
use base_types::{BotName, OutOfMemory, Text};
use edge_traits::Source;
use report_cut::Cut;
use std::alloc::Global;
use std::marker::Model;
use step_code::FeedFacts;

/// The feed of a collector during a call. It can't be dropped, so that what was fetched is given back.
pub struct CollectorFeed<S: Source> {
    pub(crate) bot: BotName,
    pub(crate) facts: FeedFacts,
    pub(crate) retries: u32,
    /// How many fetches and reads failed.
    pub(crate) failed: u64,
    pub(crate) stage: Stage<S>,
    /// A piece that was put back, and the offset at which it was found.
    pub(crate) kept: Option<(u64, Cut)>,
}

impl<S: Source> Model for CollectorFeed<S> {
    ghost use Rattle.std.specs.Prelude.{◌≤◌, ◌+◌};
    ghost use Rattle.report_cut.specs.Pieces.{longest_line};
    ghost use Rattle.collector_feeds.specs.Standing.{FeedView};
    ghost use Rattle.collector_feeds.specs.Stage.{read_in, source_in, HasRule};

    ghost Value = { FeedView };

    ghost view = { λ f. record { bot = f.bot; facts = f.facts; retries = f.retries; failed = f.failed; source = source_in S.source f.stage; read = read_in f.stage; kept = f.kept } };

    ghost invariant = { λ f. HasRule f.facts f.stage × (1 ≤ f.facts.chunk_size) × (f.facts.chunk_size ≤ longest_line) × (f.failed ≤ f.retries + 1) };
}

impl<S: Source> CollectorFeed<S> {
    /// The feed of a collector that tries a failed fetch or read again so often. Nothing is fetched yet.
    pub fn new(
        alloc: Global,
        bot: BotName,
        facts: &FeedFacts,
        retries: u32,
    ) -> Result<CollectorFeed<S>, OutOfMemory>
        requires some { 1 ≤ facts.now.chunk_size }
        requires chunk { facts.now.chunk_size ≤ longest_line }
        ensures { IfOk result (λ feed. feed ≡ closed bot facts.now retries) }
    {
        let facts = FeedFacts {
            file: facts.file.copy(alloc)?,
            chunk_size: facts.chunk_size,
            replicate: facts.replicate,
        };
        Ok(CollectorFeed {
            bot,
            facts,
            retries,
            failed: 0,
            stage: Stage::Closed,
            kept: None,
        })
    }

    /// The collector.
    pub fn bot(&self) -> &BotName
        ensures { result.now ≡ self.now.bot }
    {
        &self.bot
    }

    /// The name of the feed's file.
    pub fn file(&self) -> &Text
        ensures { result.now ≡ self.now.facts.file }
    {
        &self.facts.file
    }

    /// Puts back a piece that was found at an offset, in bytes, for the next look there.
    pub fn put_back(&mut self, at: u64, cut: Cut)
        ensures { self.new ≡ record self.old { kept = Some (at, cut) } }
    {
        self.kept = Some((at, cut));
    }
}
