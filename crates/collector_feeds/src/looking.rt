ghost use Rattle.std.specs.Prelude.{◌≡◌, ◌≢◌, ◌≤◌, ◌<◌, ◌+◌, List, ℕ, Some, None, Err, IfOk, IfSome, IsErrOf, true, false};
ghost use Rattle.edge_traits.specs.Count.{Rose};
ghost use Rattle.edge_traits.specs.Shelf.{content_of, count_on, IsListed};
ghost use Rattle.report_cut.specs.Pieces.{longest_line};
ghost use Rattle.step_code.specs.Sound.{last_number};
ghost use Rattle.collector_feeds.specs.Found.{MayFind};
ghost use Rattle.collector_feeds.specs.Open.{IsReadWithin};
ghost use Rattle.collector_feeds.specs.Stage.{read_in, source_in, HasRule};
ghost use Rattle.collector_feeds.specs.Standing.{all_faults, faults_in, IsFetched, IsReady, RoseBy};

use crate::stage::Stage;
use crate::{CollectorFeed, Found, OpenFeed, find_in};
use edge_traits::{Shelf, ShelfFault, Source};
use feed_reader::ReaderFault;
use std::alloc::Global;
use std::mem;
use step_code::FeedFacts;

/// Why a feed wasn't looked at.
#[derive(Clone, Copy, Debug, PartialEq, Eq)]
pub enum LookFault {
    /// Fetches and reads failed more often than they may be tried again.
    Failed,
    OutOfMemory,
}

/// What stands at an offset of a collector's feed, in bytes. The feed is fetched if it wasn't, and read on where it was read
/// up to there. A fetch or a read that fails is tried again, as often as the collector may.
///
/// # Errors
///
/// `Failed` once more of them failed in all looks at this feed. `OutOfMemory`. The feed may be looked at again.
pub fn look<H: Shelf>(
    alloc: Global,
    feed: &mut CollectorFeed<H::Src>,
    shelf: &mut H,
    at: u64,
) -> Result<Found, LookFault>
    requires ready { IsReady (H.shelf shelf.old) feed.old }
    requires near { at ≤ last_number }
    ensures found { IfOk result (MayFind (H.shelf shelf.old) feed.old.facts at) }
    ensures ready { IsReady (H.shelf shelf.new) feed.new }
    ensures bot { feed.new.bot ≡ feed.old.bot }
    ensures facts { feed.new.facts ≡ feed.old.facts }
    ensures retries { feed.new.retries ≡ feed.old.retries }
    ensures failed { IsErrOf result LookFault.Failed → feed.new.retries < feed.new.failed }

    // In all looks at a feed no more tries fail than one and those that may be made again.
    ensures tries { feed.new.failed ≤ feed.new.retries + 1 }

    // Each failure is counted, by the shelf or by the source.
    ensures counted { (first : ℕ) → RoseBy feed.old.failed first (all_faults (H.shelf shelf.old) feed.old) → RoseBy feed.new.failed first (all_faults (H.shelf shelf.new) feed.new) }
    ensures told { (H.shelf shelf.new).told ≡ (H.shelf shelf.old).told }
    ensures count { count_on (H.shelf shelf.old) feed.old.facts.file ≤ count_on (H.shelf shelf.new) feed.old.facts.file }
    ensures other_counts { (other : List ℕ) → other ≢ feed.old.facts.file → count_on (H.shelf shelf.new) other ≡ count_on (H.shelf shelf.old) other }
    ensures stay_listed { (other : List ℕ) → IsListed (H.shelf shelf.old) other → IsListed (H.shelf shelf.new) other }
{
    if let Some((place, cut)) = feed.kept.take() {
        if place == at {
            return Ok(Found::Piece { cut });
        }
    }
    'tries: while feed.failed <= feed.retries as u64 {
        match try_once(alloc, feed, shelf, at) {
            Ok(found) => return Ok(found),
            Err(ReaderFault::OutOfMemory) => return Err(LookFault::OutOfMemory),
            Err(ReaderFault::Failed) => {}
        }
    }
    Err(LookFault::Failed)
}

// One try, which counts its failure.
fn try_once<H: Shelf>(
    alloc: Global,
    feed: &mut CollectorFeed<H::Src>,
    shelf: &mut H,
    at: u64,
) -> Result<Found, ReaderFault>
    requires ready { IsReady (H.shelf shelf.old) feed.old }
    requires none { feed.old.kept ≡ None }
    requires near { at ≤ last_number }
    requires tries { feed.old.failed ≤ feed.old.retries }
    ensures found { IfOk result (MayFind (H.shelf shelf.old) feed.old.facts at) }
    ensures ready { IsReady (H.shelf shelf.new) feed.new }
    ensures bot { feed.new.bot ≡ feed.old.bot }
    ensures facts { feed.new.facts ≡ feed.old.facts }
    ensures retries { feed.new.retries ≡ feed.old.retries }
    ensures none { feed.new.kept ≡ None }
    ensures tried { IsErrOf result ReaderFault.Failed → feed.new.failed ≡ feed.old.failed + 1 }
    ensures still { (result ≢ Err ReaderFault.Failed) → feed.new.failed ≡ feed.old.failed }
    ensures counted { (first : ℕ) → RoseBy feed.old.failed first (all_faults (H.shelf shelf.old) feed.old) → RoseBy feed.new.failed first (all_faults (H.shelf shelf.new) feed.new) }
    ensures told { (H.shelf shelf.new).told ≡ (H.shelf shelf.old).told }
    ensures count { count_on (H.shelf shelf.old) feed.old.facts.file ≤ count_on (H.shelf shelf.new) feed.old.facts.file }
    ensures other_counts { (other : List ℕ) → other ≢ feed.old.facts.file → count_on (H.shelf shelf.new) other ≡ count_on (H.shelf shelf.old) other }
    ensures stay_listed { (other : List ℕ) → IsListed (H.shelf shelf.old) other → IsListed (H.shelf shelf.new) other }
{
    let stage = mem::replace(&mut feed.stage, Stage::Closed);
    let (stage, found) = find_from(alloc, shelf, &feed.facts, stage, at);
    let before = mem::replace(&mut feed.stage, stage);
    end_closed(before);
    if is_failed(&found) {
        feed.failed += 1;
    }
    found
}

fn end_closed<S: Source>(stage: Stage<S>)
    requires { stage ≡ Stage.Closed }
{
    match stage {
        Stage::Closed => {}
        Stage::Open { feed: _feed } => unreachable!(),
    }
}

fn is_failed(found: &Result<Found, ReaderFault>) -> bool
    ensures failed { result ≡ true → IsErrOf found.now ReaderFault.Failed }
    ensures other { result ≡ false → found.now ≢ Err ReaderFault.Failed }
{
    matches!(found, Err(ReaderFault::Failed))
}

// What stands at an offset of a feed that is open so far, and how far it is open then.
fn find_from<H: Shelf>(
    alloc: Global,
    shelf: &mut H,
    facts: &FeedFacts,
    stage: Stage<H::Src>,
    at: u64,
) -> (Stage<H::Src>, Result<Found, ReaderFault>)
    requires of { IfSome (source_in H.Src.source stage) (IsFetched (H.shelf shelf.old) facts.now.file) }
    requires within { (content : List ℕ) → content_of (H.shelf shelf.old) facts.now.file ≡ Some content → IsReadWithin content (read_in stage) }
    requires rule { HasRule facts.now stage }
    requires near { at ≤ last_number }
    requires some { 1 ≤ facts.now.chunk_size }
    requires chunk { facts.now.chunk_size ≤ longest_line }
    ensures found { IfOk result.1 (MayFind (H.shelf shelf.old) facts.now at) }
    ensures of { IfSome (source_in H.Src.source result.0) (IsFetched (H.shelf shelf.new) facts.now.file) }
    ensures within { (content : List ℕ) → content_of (H.shelf shelf.old) facts.now.file ≡ Some content → IsReadWithin content (read_in result.0) }
    ensures rule { HasRule facts.now result.0 }
    ensures failed { IsErrOf result.1 ReaderFault.Failed
        → Rose (count_on (H.shelf shelf.old) facts.now.file + faults_in (source_in H.Src.source stage)) (count_on (H.shelf shelf.new) facts.now.file + faults_in (source_in H.Src.source result.0)) }
    ensures faults { count_on (H.shelf shelf.old) facts.now.file + faults_in (source_in H.Src.source stage) ≤ count_on (H.shelf shelf.new) facts.now.file + faults_in (source_in H.Src.source result.0) }
    ensures told { (H.shelf shelf.new).told ≡ (H.shelf shelf.old).told }
    ensures count { count_on (H.shelf shelf.old) facts.now.file ≤ count_on (H.shelf shelf.new) facts.now.file }
    ensures other_counts { (other : List ℕ) → other ≢ facts.now.file → count_on (H.shelf shelf.new) other ≡ count_on (H.shelf shelf.old) other }
    ensures stay_listed { (other : List ℕ) → IsListed (H.shelf shelf.old) other → IsListed (H.shelf shelf.new) other }
{
    match stage {
        Stage::Closed => match shelf.fetch(alloc, &facts.file) {
            Ok(source) => {
                let (feed, found) = find_in(alloc, facts, OpenFeed::Fetched { source }, at);
                (Stage::Open { feed }, found)
            }
            Err(ShelfFault::Absent) => (Stage::Closed, Ok(Found::Absent)),
            Err(ShelfFault::Failed) => (Stage::Closed, Err(ReaderFault::Failed)),
            Err(ShelfFault::OutOfMemory) => (Stage::Closed, Err(ReaderFault::OutOfMemory)),
        },
        Stage::Open { feed } => {
            let (feed, found) = find_in(alloc, facts, feed, at);
            (Stage::Open { feed }, found)
        }
    }
}
