ghost use Rattle.std.specs.Prelude.{◌≡◌, ◌≢◌, ◌+◌, ◌∷◌, ◌++◌, ◌<◌, ◌≤◌, ◌^◌, ℕ, List, [], length, drop, true, false, None, MatchOption, IfOk, IfSome, IsErrOf};
ghost use Rattle.report_cut.specs.Pieces.{Piece, End, Long, next};
ghost use Rattle.feed_reader.specs.Coming.{IsCounted, StandsIn, steps_left, longest_slice};
ghost use Rattle.feed_reader.specs.Ahead.{IsOnwardPiece, IsPlainPiece};

use crate::ReaderFault;
use report_cut::{Cut, CutFault, Cutter};
use std::collections::VecDeque;

/// The pieces of a feed that is coming.
#[derive(Drop)]
pub(crate) struct Coming {
    pub(crate) cutter: Cutter,
    /// Pieces that are cut off and wait, the next one first.
    pub(crate) pieces: VecDeque<Cut>,
    /// The feed offset behind the last piece that was handed out.
    pub(crate) at: u64,
    /// The feed offset up to which the feed was read.
    pub(crate) read: u64,
    /// Whether the feed's end was met.
    pub(crate) ended: bool,
}

impl Coming {
    /// Hands out the next piece, if one waits.
    pub(crate) fn take(&mut self) -> Option<Cut>
        requires counted { IsCounted self.old }
        ensures counted { IsCounted self.new }
        ensures none { result ≡ None → self.new.pieces.items ≡ [] }
        ensures steps { result ≡ None → steps_left self.new ≡ steps_left self.old }
        ensures next { (feed : List ℕ) → StandsIn feed self.old → IfSome result (λ cut. next self.old.cutter.rule feed self.old.at ≡ Piece cut) }
        ensures plain { self.old.cutter.rule.replicate ≡ false → IfSome result (IsPlainPiece self.old.at) }
        ensures onward { IfSome result (IsOnwardPiece self.old.at) }
        ensures at { MatchOption result (self.new.at ≡ self.old.at) (λ cut. self.new.at ≡ cut.upto) }
        ensures stands { (feed : List ℕ) → StandsIn feed self.old → StandsIn feed self.new }
        ensures rule { self.new.cutter.rule ≡ self.old.cutter.rule }
    {
        let cut = self.pieces.pop_front()?;
        self.at = cut.upto;
        Some(cut)
    }

    /// Takes in the next bytes. Answers where the next line begins, if it is too long.
    pub(crate) fn take_in(&mut self, bytes: &[u8]) -> Result<Option<u64>, ReaderFault>
        requires counted { IsCounted self.old }
        requires going { self.old.ended ≡ false }
        requires none { self.old.pieces.items ≡ [] }
        requires near { self.old.at ≤ 2 ^ 62 + 1 }
        requires some { 0 < length bytes.now }
        requires few { length bytes.now ≤ longest_slice }
        ensures counted { IsCounted self.new }
        ensures at { self.new.at ≡ self.old.at }
        ensures rule { self.new.cutter.rule ≡ self.old.cutter.rule }
        ensures memory { IsErrOf result ReaderFault.Failed → ⊥ }
        ensures steps { IfOk result (λ found. found ≡ None → steps_left self.new < steps_left self.old) }
        ensures stands { (feed : List ℕ) → StandsIn feed self.old → drop self.old.read feed ≡ bytes.now ++ drop (self.old.read + length bytes.now) feed
            → StandsIn feed self.new }
        ensures long { (feed : List ℕ) → StandsIn feed self.old → drop self.old.read feed ≡ bytes.now ++ drop (self.old.read + length bytes.now) feed
            → IfOk result (λ found. IfSome found (λ line. next self.old.cutter.rule feed self.old.at ≡ Long line)) }
    {
        match self.cutter.feed(bytes) {
            Ok(cuts) => {
                self.pieces = VecDeque::from_vec(cuts.into_vec());
                self.read += bytes.len() as u64;
                Ok(None)
            }
            Err(CutFault::LongLine { at }) => Ok(Some(at)),
            Err(CutFault::OutOfMemory) => Err(ReaderFault::OutOfMemory),
        }
    }

    /// Ends the feed. Answers where the next line begins, if it is too long.
    pub(crate) fn end(&mut self) -> Result<Option<u64>, ReaderFault>
        requires counted { IsCounted self.old }
        requires going { self.old.ended ≡ false }
        requires none { self.old.pieces.items ≡ [] }
        ensures counted { IsCounted self.new }
        ensures at { self.new.at ≡ self.old.at }
        ensures rule { self.new.cutter.rule ≡ self.old.cutter.rule }
        ensures memory { IsErrOf result ReaderFault.Failed → ⊥ }
        ensures steps { IfOk result (λ found. found ≡ None → steps_left self.new < steps_left self.old) }
        ensures stands { (feed : List ℕ) → StandsIn feed self.old → length feed ≤ self.old.read → StandsIn feed self.new }
        ensures long { (feed : List ℕ) → StandsIn feed self.old
            → IfOk result (λ found. IfSome found (λ line. next self.old.cutter.rule feed self.old.at ≡ Long line)) }
    {
        match self.cutter.end() {
            Ok(cuts) => {
                self.pieces = VecDeque::from_vec(cuts.into_vec());
                self.ended = true;
                Ok(None)
            }
            Err(CutFault::LongLine { at }) => Ok(Some(at)),
            Err(CutFault::OutOfMemory) => Err(ReaderFault::OutOfMemory),
        }
    }
}
