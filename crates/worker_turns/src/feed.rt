//! The feed of a collector on a thread.
ghost use Rattle.std.specs.Prelude.{◌≡◌, ◌≤◌, List, ℕ, Some, IfOk, IsErrOf};
ghost use Rattle.edge_traits.specs.Count.{Rose};
ghost use Rattle.report_cut.specs.Pieces.{longest_line};
ghost use Rattle.step_code.specs.Sound.{last_number};
ghost use Rattle.collector_feeds.specs.Found.{found_at, rule_of, IsAhead};
ghost use Rattle.collector_feeds.specs.Open.{read_of, source_of, GoesOn, IsCutBy, IsReadWithin, IsThere};

use crate::Place;
use collector_feeds::{Found, OpenFeed, find_in};
use edge_traits::Source;
use feed_reader::ReaderFault;
use report_cut::CutRule;
use std::alloc::Global;
use std::marker::Model;
use step_code::FeedFacts;

/// A feed that was fetched, as its collector reads it. It can't be dropped, so that its source is given back.
pub struct ReadFeed<S: Source> {
    open: OpenFeed<S>,
    // How it is cut.
    rule: CutRule,
}

impl<S: Source> Model for ReadFeed<S> {
    ghost use Rattle.std.specs.Prelude.{◌≡◌, List, ℕ, Some};
    ghost use Rattle.edge_traits.specs.Source.{SourceView};
    ghost use Rattle.collector_feeds.specs.Open.{read_of, source_of, IsCutBy, IsReadWithin};

    ghost Value = { SourceView };

    ghost view = { λ f. source_of S.source f.open };

    ghost invariant = { λ f. IsCutBy f.rule f.open × ((content : List ℕ) → (source_of S.source f.open).told ≡ Some content → IsReadWithin content (read_of f.open)) };
}

impl<S: Source> ReadFeed<S> {
    /// A feed that was fetched just now.
    pub fn new(source: S) -> ReadFeed<S>
        ensures { result ≡ S.source source }
    {
        ReadFeed {
            open: OpenFeed::Fetched { source },
            rule: CutRule {
                chunk_size: 1,
                replicate: false,
            },
        }
    }

    /// What stands at a place of the feed.
    ///
    /// # Errors
    ///
    /// The source failed, or there was no memory. The feed may be asked again.
    pub fn look(self, alloc: Global, place: &Place) -> (ReadFeed<S>, Result<Found, ReaderFault>)
        requires near { place.now.at ≤ last_number }
        requires some { 1 ≤ place.now.facts.chunk_size }
        requires chunk { place.now.facts.chunk_size ≤ longest_line }
        ensures found { (content : List ℕ) → self.told ≡ Some content → IfOk result.1 (λ what. what ≡ found_at (rule_of place.now.facts) (Some content) place.now.at) }
        ensures ahead { IfOk result.1 (IsAhead place.now.at) }
        ensures there { IfOk result.1 IsThere }
        ensures goes_on { GoesOn self result.0 }
        ensures failed { IsErrOf result.1 ReaderFault.Failed → Rose self.faults result.0.faults }
    {
        let ReadFeed { open, rule } = self;
        let asked = rule_of(&place.facts);
        let open = cut_by(open, rule, asked);
        let (open, found) = find_in(alloc, &place.facts, open, place.at);
        (ReadFeed { open, rule: asked }, found)
    }

    /// Its source.
    pub fn into_source(self) -> S
        ensures { S.source result ≡ self }
    {
        let ReadFeed { open, rule: _ } = self;
        open.into_source()
    }
}

fn rule_of(facts: &FeedFacts) -> CutRule
    ensures { result ≡ rule_of facts.now }
{
    CutRule {
        chunk_size: facts.chunk_size,
        replicate: facts.replicate,
    }
}

// A feed that was cut by another rule is read anew.
fn cut_by<S: Source>(feed: OpenFeed<S>, rule: CutRule, asked: CutRule) -> OpenFeed<S>
    requires { IsCutBy rule feed }
    ensures source { source_of S.source result ≡ source_of S.source feed }
    ensures rule { IsCutBy asked result }
    ensures within { (content : List ℕ) → IsReadWithin content (read_of feed) → IsReadWithin content (read_of result) }
{
    if rule == asked {
        feed
    } else {
        OpenFeed::Fetched {
            source: feed.into_source(),
        }
    }
}
