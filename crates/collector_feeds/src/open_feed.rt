//! A feed that was fetched, read without its shelf.
ghost use Rattle.std.specs.Prelude.{◌≡◌, ◌≤◌, ◌<◌, List, ℕ, length, Some, IfOk, IfSome, IsErrOf};
ghost use Rattle.base_types.specs.Lists.{AreBytes};
ghost use Rattle.edge_traits.specs.Count.{Rose};
ghost use Rattle.report_cut.specs.Pieces.{longest_line, next, Piece};
ghost use Rattle.feed_reader.specs.Ahead.{IsOnwardPiece};
ghost use Rattle.report_cut.specs.declared.piece.CutRule.{CutRule};
ghost use Rattle.step_code.specs.Sound.{last_number};
ghost use Rattle.collector_feeds.specs.Found.{found_at, rule_of, within_limit, IsAhead};
ghost use Rattle.collector_feeds.specs.Open.{read_of, source_of, GoesOn, IsCutBy, IsReadWithin, IsThere};

use crate::Found;
use edge_traits::Source;
use feed_reader::{Ahead, Beginning, FeedReader, ReaderFault, begin_at};
use report_cut::{Cut, CutRule};
use std::alloc::Global;
use step_code::{FeedFacts, LONGEST_FEED};

/// A feed that was fetched, and how far it is read. It can't be dropped, so that its source is given back.
pub enum OpenFeed<S: Source> {
    /// Nothing of it was read.
    Fetched { source: S },
    Reading { reader: FeedReader<S> },
}

impl<S: Source> OpenFeed<S> {
    /// Its source.
    pub fn into_source(self) -> S
        ensures { S.source result ≡ source_of S.source self }
    {
        match self {
            OpenFeed::Fetched { source } => source,
            OpenFeed::Reading { reader } => reader.into_source(),
        }
    }
}

/// What stands at an offset of an open feed, in bytes, and how far it is read then. It is read on where it was read up to there.
///
/// # Errors
///
/// The source failed, or there was no memory. The feed may be asked again.
pub fn find_in<S: Source>(
    alloc: Global,
    facts: &FeedFacts,
    feed: OpenFeed<S>,
    at: u64,
) -> (OpenFeed<S>, Result<Found, ReaderFault>)
    requires rule { IsCutBy (rule_of facts.now) feed }
    requires near { at ≤ last_number }
    requires some { 1 ≤ facts.now.chunk_size }
    requires chunk { facts.now.chunk_size ≤ longest_line }
    ensures found { (content : List ℕ) → (source_of S.source feed).told ≡ Some content → IsReadWithin content (read_of feed) → IfOk result.1 (λ what. what ≡ found_at (rule_of facts.now) (Some content) at) }
    ensures ahead { IfOk result.1 (IsAhead at) }
    ensures there { IfOk result.1 IsThere }
    ensures goes_on { GoesOn (source_of S.source feed) (source_of S.source result.0) }
    ensures within { (content : List ℕ) → (source_of S.source feed).told ≡ Some content → IsReadWithin content (read_of feed) → IsReadWithin content (read_of result.0) }
    ensures rule { IsCutBy (rule_of facts.now) result.0 }
    ensures failed { IsErrOf result.1 ReaderFault.Failed → Rose (source_of S.source feed).faults (source_of S.source result.0).faults }
{
    match standing_at(feed, at) {
        OpenFeed::Fetched { source } => begin(alloc, source, facts, at),
        OpenFeed::Reading { reader } => read_on(reader),
    }
}

// A feed that was read up to another offset is read anew.
fn standing_at<S: Source>(feed: OpenFeed<S>, at: u64) -> OpenFeed<S>
    ensures source { source_of S.source result ≡ source_of S.source feed }
    ensures read { IfSome (read_of result) (λ read. read ≡ at) }
    ensures within { (content : List ℕ) → IsReadWithin content (read_of feed) → IsReadWithin content (read_of result) }
    ensures rule { (rule : CutRule) → IsCutBy rule feed → IsCutBy rule result }
{
    match feed {
        OpenFeed::Fetched { source } => OpenFeed::Fetched { source },
        OpenFeed::Reading { reader } => {
            if reader.at() == at {
                OpenFeed::Reading { reader }
            } else {
                OpenFeed::Fetched {
                    source: reader.into_source(),
                }
            }
        }
    }
}

// Looks for the offset in a source that wasn't read.
fn begin<S: Source>(
    alloc: Global,
    source: S,
    facts: &FeedFacts,
    at: u64,
) -> (OpenFeed<S>, Result<Found, ReaderFault>)
    requires near { at ≤ last_number }
    requires some { 1 ≤ facts.now.chunk_size }
    requires chunk { facts.now.chunk_size ≤ longest_line }
    ensures found { (feed : List ℕ) → (S.source source).told ≡ Some feed → IfOk result.1 (λ what. what ≡ found_at (rule_of facts.now) (Some feed) at) }
    ensures ahead { IfOk result.1 (IsAhead at) }
    ensures there { IfOk result.1 IsThere }
    ensures goes_on { GoesOn (S.source source) (source_of S.source result.0) }
    ensures within { (feed : List ℕ) → (S.source source).told ≡ Some feed → IsReadWithin feed (read_of result.0) }
    ensures rule { IsCutBy (rule_of facts.now) result.0 }
    ensures failed { IsErrOf result.1 ReaderFault.Failed → Rose (S.source source).faults (source_of S.source result.0).faults }
{
    let mut source = source;
    match begin_at(alloc, &mut source, rule_of(facts), at) {
        Ok(Beginning::Cutter { cutter }) => read_on(FeedReader::new(alloc, source, cutter)),
        Ok(Beginning::End) => (OpenFeed::Fetched { source }, Ok(Found::End)),
        Ok(Beginning::Short { have }) => (OpenFeed::Fetched { source }, Ok(Found::Short { have })),
        Ok(Beginning::LongHeader) => (OpenFeed::Fetched { source }, Ok(Found::LongLine { at: 0 })),
        Err(fault) => (OpenFeed::Fetched { source }, Err(fault)),
    }
}

fn rule_of(facts: &FeedFacts) -> CutRule
    ensures { result ≡ rule_of facts.now }
{
    CutRule {
        chunk_size: facts.chunk_size,
        replicate: facts.replicate,
    }
}

// What comes next in a feed.
fn read_on<S: Source>(reader: FeedReader<S>) -> (OpenFeed<S>, Result<Found, ReaderFault>)
    requires near { reader.at ≤ last_number }
    ensures found { (feed : List ℕ) → reader.source.told ≡ Some feed → IfOk result.1 (λ what. what ≡ within_limit (next reader.rule feed reader.at)) }
    ensures ahead { IfOk result.1 (IsAhead reader.at) }
    ensures there { IfOk result.1 IsThere }
    ensures goes_on { GoesOn reader.source (source_of S.source result.0) }
    ensures within { (feed : List ℕ) → reader.source.told ≡ Some feed → reader.at ≤ length feed → IsReadWithin feed (read_of result.0) }
    ensures rule { IsCutBy reader.rule result.0 }
    ensures failed { IsErrOf result.1 ReaderFault.Failed → Rose reader.source.faults (source_of S.source result.0).faults }
{
    let mut reader = reader;
    let found = match reader.next_piece() {
        Ok(Ahead::Piece { cut }) => Ok(within_limit(cut)),
        Ok(Ahead::End) => Ok(Found::End),
        Ok(Ahead::LongLine { at }) => Ok(Found::LongLine { at }),
        Err(fault) => Err(fault),
    };
    (OpenFeed::Reading { reader }, found)
}

// A piece, where it ends within the longest feed.
fn within_limit(cut: Cut) -> Found
    ensures found { result ≡ within_limit (Piece cut) }
    ensures ahead { (at : ℕ) → IsOnwardPiece at cut → IsAhead at result }
{
    are_bytes(cut.piece.bytes());
    if cut.upto > LONGEST_FEED {
        Found::LongFeed
    } else {
        Found::Piece { cut }
    }
}

// What is read is bytes, which the prover knows of a slice alone.
fn are_bytes(bytes: &[u8])
    ensures { AreBytes bytes.now }
{
    let _len = bytes.len();
}
