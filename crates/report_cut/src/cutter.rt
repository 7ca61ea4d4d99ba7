ghost use Rattle.std.specs.Prelude.{◌≡◌, ◌≢◌, ℕ, ◌+◌, ◌*◌, ◌^◌, ◌<◌, ◌≤◌, ◌↔◌, ◌++◌, [], length, true, false, Some, None, IsTrue, IsSome, IfOk, IfErr, OnOk, OnErr};
ghost use Rattle.std.specs.Option.{ForSome};
ghost use Rattle.report_cut.specs.Pieces.{longest_line};
ghost use Rattle.report_cut.specs.Cutter.{ComeNext, HaveCome, Follows, ShowsLong, IsFaultOf, CutsAll};

use crate::pending::Pending;
use crate::{CutFault, CutList, CutRule};
use base_types::{Blob, OutOfMemory};
use std::alloc::Global;
use std::marker::Model;

/// Cuts a feed into pieces of whole lines, in whatever slices the feed comes.
///
/// It holds back at most a header and a line, each of at most 1,048,576 bytes, and looks at each byte a bounded number
/// of times, however short the slices are.
#[derive(Debug, Drop)]
pub struct Cutter {
    alloc: Global,
    pending: Pending,
    ended: bool,
}

impl Model for Cutter {
    ghost use Rattle.report_cut.specs.Cutter.{Cutting};

    ghost Value = { Cutting };

    ghost use Rattle.report_cut.specs.Pending.{IsSound, cutting_of};

    ghost view = { λ c. cutting_of c.pending c.ended };

    ghost invariant = { λ c. IsSound c.pending };
}

impl Cutter {
    /// A cutter for the feed from the offset `at` on, in bytes, where a line begins.
    ///
    /// The header is the feed's first line. It is given exactly where the rule repeats it and it isn't fed.
    pub fn new(
        alloc: Global,
        rule: CutRule,
        header: Option<Blob>,
        at: u64,
    ) -> Result<Cutter, OutOfMemory>
        requires some { 0 < rule.chunk_size }
        requires chunk { rule.chunk_size ≤ 1_048_576 }
        requires given { IsSome header ↔ (IsTrue rule.replicate × (at ≢ 0)) }
        requires short { ForSome header (λ bytes. length bytes ≤ 1_048_576) }
        ensures { IfOk result (λ cutter. cutter ≡ record { rule = rule; header = header; at = at; held = []; long = None; ended = false }) }
    {
        let head = match &header {
            Some(bytes) => bytes.bytes().len(),
            None => 0,
        };
        let bytes = match header {
            Some(bytes) => bytes.bytes().to_vec(alloc)?,
            None => Vec::new(alloc),
        };
        Ok(Cutter {
            alloc,
            pending: Pending {
                rule,
                at,
                bytes,
                head,
                whole: 0,
                in_header: rule.replicate && at == 0,
                long: None,
            },
            ended: false,
        })
    }

    /// The feed offset behind the last piece that was handed out, in bytes.
    pub fn at(&self) -> u64
        ensures { result ≡ self.now.at }
    {
        self.pending.at
    }

    /// Takes the next bytes of the feed, and hands out the pieces that are finished now.
    ///
    /// # Errors
    ///
    /// `LongLine` where the next line is too long and no piece before it is left to hand out; every later call
    /// answers it too. `OutOfMemory` changes nothing.
    pub fn feed(&mut self, piece: &[u8]) -> Result<CutList, CutFault>
        requires going { self.old.ended ≡ false }
        requires counted { self.old.at + length self.old.held + length piece.now ≤ 2 ^ 63 }
        // These pieces come next in each feed that goes on like this, and they are those that are finished by now.
        ensures next { IfOk result (ComeNext self.old (self.old.held ++ piece.now)) }
        ensures finished { IfOk result (HaveCome self.old (self.old.held ++ piece.now)) }
        ensures follows { IfOk result (λ cuts. Follows self.old (self.old.held ++ piece.now) cuts self.new) }

        // A line that is too long is answered, unless pieces before it are handed out, or memory runs out.
        ensures no_long { OnOk result ((at : ℕ) → ShowsLong self.old (self.old.held ++ piece.now) at → ⊥) }
        ensures fault { IfErr result (IsFaultOf self.old (self.old.held ++ piece.now) self.new) }
        ensures again { (at : ℕ) → self.old.long ≡ Some at → result ≡ Err (CutFault.LongLine at) }

        ensures bounded { length self.new.held ≤ 2 * longest_line }
        ensures counted { self.new.at + length self.new.held ≤ self.old.at + length self.old.held + length piece.now }
        ensures going { self.new.ended ≡ false }
    {
        self.pending.feed(self.alloc, piece)
    }

    /// Ends the feed, and hands out all that is left.
    ///
    /// # Errors
    ///
    /// `LongLine` where a line was too long. `OutOfMemory` changes nothing.
    pub fn end(&mut self) -> Result<CutList, CutFault>
        requires { self.old.ended ≡ false }
        ensures all { IfOk result (CutsAll self.old) }
        ensures ended { OnOk result (self.new ≡ record self.old { ended = true }) }
        ensures long { (at : ℕ) → (result ≡ Err (CutFault.LongLine at)) ↔ (self.old.long ≡ Some at) }
        ensures err { OnErr result (self.new ≡ self.old) }
    {
        if let Some(at) = self.pending.long {
            return Err(CutFault::LongLine { at });
        }
        let cuts = self.pending.last(self.alloc)?;
        self.ended = true;
        Ok(cuts)
    }
}
