ghost use Rattle.std.specs.Prelude.{◌≡◌, ◌≤◌, ◌+◌, ◌^◌, ◌<◌, ℕ, List, [], length, false, Some, None, IfOk, IfSome, IsErrOf, MatchResult};
ghost use Rattle.edge_traits.specs.Count.{Rose};
ghost use Rattle.report_cut.specs.Pieces.{Long, longest_line, next};
ghost use Rattle.feed_reader.specs.Coming.{IsCounted, StandsIn, steps_left};
ghost use Rattle.report_cut.specs.Laws.{beginning};
ghost use Rattle.feed_reader.specs.Ahead.{Reading, ahead_of, behind, IsOnward, IsPlainAhead};
ghost use Rattle.feed_reader.specs.declared.ahead.ReaderFault.TheVariants as fault;

use crate::coming::Coming;
use crate::{Ahead, ReaderFault};
use edge_traits::Source;
use report_cut::Cutter;
use std::alloc::Global;
use std::collections::VecDeque;
use std::marker::Model;

// How much is read at a time, in bytes.
const SLICE: usize = 16384;

/// Reads a feed over a source, and hands out its pieces one after the other.
///
/// It holds what a `Cutter` holds and the pieces that one read has finished: a header, at most two lines of the longest
/// length and 16 KiB, whatever the feed's length.
pub struct FeedReader<S: Source> {
    source: S,
    coming: Coming,
}

impl<S: Source> Model for FeedReader<S> {
    ghost use Rattle.std.specs.Prelude.{◌≡◌, List, ℕ, Some};
    ghost use Rattle.feed_reader.specs.Ahead.{Reading};
    ghost use Rattle.feed_reader.specs.Coming.{IsCounted, StandsIn};

    ghost Value = { Reading };

    ghost view = { λ r. record { source = S.source r.source; rule = r.coming.cutter.rule; at = r.coming.at } };

    ghost invariant = { λ r. IsCounted r.coming × ((feed : List ℕ) → (S.source r.source).told ≡ Some feed → StandsIn feed r.coming) };
}

impl<S: Source> FeedReader<S> {
    /// A reader of the source's feed from where a new cutter stands.
    pub fn new(alloc: Global, source: S, cutter: Cutter) -> FeedReader<S>
        requires new { cutter ≡ record { rule = cutter.rule; header = cutter.header; at = cutter.at; held = []; long = None; ended = false } }
        requires chunk { cutter.rule.chunk_size ≤ longest_line }
        requires header { cutter.rule.replicate ≡ false → cutter.header ≡ None }
        requires stands { (feed : List ℕ) → (S.source source).told ≡ Some feed → (cutter ≡ beginning cutter.rule feed cutter.at) × (cutter.at ≤ length feed) }
        ensures { result ≡ record { source = S.source source; rule = cutter.rule; at = cutter.at } }
    {
        let at = cutter.at();
        FeedReader {
            source,
            coming: Coming {
                cutter,
                pieces: VecDeque::new(alloc),
                at,
                read: at,
                ended: false,
            },
        }
    }

    /// What comes next in the feed. A piece is handed out, and the reader stands behind it then.
    pub fn next_piece(&mut self) -> Result<Ahead, ReaderFault>
        requires { self.old.at ≤ 2 ^ 62 + 1 }
        ensures next { (feed : List ℕ) → self.old.source.told ≡ Some feed → IfOk result (λ ahead. ahead ≡ ahead_of (next self.old.rule feed self.old.at)) }
        ensures at { MatchResult result (λ ahead. self.new.at ≡ behind self.old.at ahead) (λ _. self.new.at ≡ self.old.at) }
        ensures plain { self.old.rule.replicate ≡ false → IfOk result (IsPlainAhead self.old.at) }
        ensures onward { IfOk result (IsOnward self.old.at) }
        ensures rule { self.new.rule ≡ self.old.rule }

        ensures failed { IsErrOf result ReaderFault.Failed → Rose self.old.source.faults self.new.source.faults }
        ensures name { self.new.source.name ≡ self.old.source.name }
        ensures told { self.new.source.told ≡ self.old.source.told }
        ensures count { self.old.source.faults ≤ self.new.source.faults }
    {
        'slices: loop {
            if let Some(cut) = self.coming.take() {
                return Ok(Ahead::Piece { cut });
            }
            if self.coming.ended {
                return Ok(Ahead::End);
            }
            if let Some(at) = read_on(&mut self.source, &mut self.coming)? {
                return Ok(Ahead::LongLine { at });
            }
        }
    }

    /// The offset in the feed up to which pieces were handed out, in bytes.
    pub fn at(&self) -> u64
        ensures { result ≡ self.now.at }
    {
        self.coming.at
    }

    /// The source, to be given back.
    pub fn into_source(self) -> S
        ensures { S.source result ≡ self.source }
    {
        let FeedReader { source, coming: _ } = self;
        source
    }
}

// Reads the next bytes. Answers where the next line begins, if it is too long.
fn read_on<S: Source>(source: &mut S, coming: &mut Coming) -> Result<Option<u64>, ReaderFault>
    requires counted { IsCounted coming.old }
    requires going { coming.old.ended ≡ false }
    requires none { coming.old.pieces.items ≡ [] }
    requires near { coming.old.at ≤ 2 ^ 62 + 1 }
    ensures counted { IsCounted coming.new }
    ensures at { coming.new.at ≡ coming.old.at }
    ensures rule { coming.new.cutter.rule ≡ coming.old.cutter.rule }
    ensures steps { IfOk result (λ found. found ≡ None → steps_left coming.new < steps_left coming.old) }
    ensures stands { (feed : List ℕ) → (S.source source.old).told ≡ Some feed → StandsIn feed coming.old → StandsIn feed coming.new }
    ensures long { (feed : List ℕ) → (S.source source.old).told ≡ Some feed → StandsIn feed coming.old
        → IfOk result (λ found. IfSome found (λ line. next coming.old.cutter.rule feed coming.old.at ≡ Long line)) }

    ensures failed { IsErrOf result ReaderFault.Failed → Rose (S.source source.old).faults (S.source source.new).faults }
    ensures name { (S.source source.new).name ≡ (S.source source.old).name }
    ensures told { (S.source source.new).told ≡ (S.source source.old).told }
    ensures count { (S.source source.old).faults ≤ (S.source source.new).faults }
{
    let mut slice = [0; SLICE];
    let n = source.read_at(coming.read, &mut slice)?;
    if n == 0 {
        coming.end()
    } else {
        coming.take_in(&slice[..n])
    }
}
