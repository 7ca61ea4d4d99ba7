ghost use Rattle.std.specs.Prelude.{◌≡◌, ℕ, ◌+◌, ◌^◌, ◌≤◌, ◌++◌, length, true, false, IfOk, IfErr, OnOk, OnErr, MatchOption};
ghost use Rattle.report_cut.specs.Pieces.{longest_line};
ghost use Rattle.report_cut.specs.Scan.{IsOneLine};

use crate::lines::{Parts, cut_lines, hand_out, lines_start};
use crate::scan::{LONGEST_LINE, newline_in};
use crate::{CutFault, CutList, CutRule};
use base_types::OutOfMemory;
use std::alloc::{AllocError, Global};

/// The piece that is coming.
#[derive(Debug, Drop)]
pub(crate) struct Pending {
    pub(crate) rule: CutRule,
    /// The feed offset behind the last piece that was handed out.
    pub(crate) at: u64,
    /// The header, and then the lines that have come for this piece.
    pub(crate) bytes: Vec<u8>,
    /// How many bytes the header has.
    pub(crate) head: usize,
    /// How many bytes behind the header are whole lines.
    pub(crate) whole: usize,
    /// Whether the header is the feed's first line and is still coming.
    pub(crate) in_header: bool,
    /// Where a line begins that is too long.
    pub(crate) long: Option<u64>,
}

/// What the bytes that have come lead to.
pub(crate) enum Advance {
    /// No piece is finished.
    Waits {
        head: usize,
        whole: usize,
        in_header: bool,
    },
    /// These pieces are finished, and this is left.
    Cuts {
        cuts: CutList,
        left: Pending,
    },
    /// The next line is too long.
    LongLine {
        at: u64,
    },
}

fn joined(alloc: Global, header: &[u8], lines: &[u8]) -> Result<Vec<u8>, AllocError>
    ensures { IfOk result (λ bytes. bytes.items ≡ header.now ++ lines.now) }
{
    let mut bytes = header.to_vec(alloc)?;
    bytes.extend_from_slice(lines)?;
    Ok(bytes)
}

/// Puts the piece behind the bytes.
fn append(bytes: &mut Vec<u8>, piece: &[u8]) -> Result<(), AllocError>
    ensures ok { OnOk result (bytes.new.items ≡ bytes.old.items ++ piece.now) }
    ensures err { OnErr result (bytes.new.items ≡ bytes.old.items) }
{
    bytes.extend_from_slice(piece)?;
    Ok(())
}

impl Pending {
    ghost use Rattle.report_cut.specs.Cutter.{ComeNext, HaveCome, Follows, ShowsLong, IsFaultOf, CutsAll};
    ghost use Rattle.report_cut.specs.Pending.{IsGrown, IsHeaderEnd, IsParted, IsLeftBehind, IsAdvance, IsSound, held_of, cutting_of};

    /// Where the header ends, unless it is still coming. Bytes up to `before` were there before.
    fn header_end(&self, before: usize) -> Option<usize>
        requires { IsGrown self.now before }
        ensures { MatchOption result ((self.now.in_header ≡ true) × IsOneLine self.now.bytes.items) (IsHeaderEnd self.now before) }
    {
        if !self.in_header {
            return Some(self.head);
        }
        let i = newline_in(&self.bytes[before..])?;
        Some(before + i + 1)
    }

    /// What is left behind these parts: the header, and the lines that didn't go into them.
    fn left_behind(&self, alloc: Global, head: usize, parts: &Parts) -> Result<Pending, OutOfMemory>
        requires { IsParted self.now head parts.now }
        ensures { IfOk result (IsLeftBehind self.now head parts.now) }
    {
        let (header, lines) = self.bytes.split_at(head);
        let end = lines_start(self.rule, header, self.at) + parts.taken as u64;
        if parts.long {
            return Ok(Pending {
                rule: self.rule,
                at: end,
                bytes: header.to_vec(alloc)?,
                head,
                whole: parts.whole,
                in_header: false,
                long: Some(end),
            });
        }
        Ok(Pending {
            rule: self.rule,
            at: end,
            bytes: joined(alloc, header, &lines[parts.taken..])?,
            head,
            whole: parts.whole,
            in_header: false,
            long: None,
        })
    }

    /// Hands out what was cut off behind the header.
    fn cut_off(&self, alloc: Global, head: usize, parts: Parts) -> Result<Advance, OutOfMemory>
        requires { IsParted self.now head parts }
        ensures { IfOk result (IsAdvance self.now) }
    {
        if parts.taken > 0 {
            let left = self.left_behind(alloc, head, &parts)?;
            return Ok(Advance::Cuts {
                cuts: parts.cuts,
                left,
            });
        }
        if parts.long {
            let at = lines_start(self.rule, &self.bytes[..head], self.at);
            return Ok(Advance::LongLine { at });
        }
        Ok(Advance::Waits {
            head,
            whole: parts.whole,
            in_header: false,
        })
    }

    /// Where the header is still coming.
    fn advance_in_header(&self, before: usize) -> Advance
        requires grown { IsGrown self.now before }
        requires in_header { self.now.in_header ≡ true }
        requires partial { IsOneLine self.now.bytes.items }
        ensures { IsAdvance self.now result }
    {
        if self.bytes.len() > LONGEST_LINE {
            return Advance::LongLine { at: 0 };
        }
        Advance::Waits {
            head: 0,
            whole: 0,
            in_header: true,
        }
    }

    /// What the bytes behind the first `before` lead to.
    fn advance(&self, alloc: Global, before: usize) -> Result<Advance, OutOfMemory>
        requires { IsGrown self.now before }
        ensures { IfOk result (IsAdvance self.now) }
    {
        let Some(head) = self.header_end(before) else {
            return Ok(self.advance_in_header(before));
        };
        if head > LONGEST_LINE {
            return Ok(Advance::LongLine { at: 0 });
        }
        let (header, lines) = self.bytes.split_at(head);
        let seen = before.saturating_sub(head);
        let parts = cut_lines(alloc, self.rule, header, self.at, lines, self.whole, seen)?;
        self.cut_off(alloc, head, parts)
    }

    /// Takes the next bytes of the feed, and hands out the pieces that are finished now.
    ///
    /// A line that is too long is answered from then on. Without memory, nothing changes.
    pub(crate) fn feed(&mut self, alloc: Global, piece: &[u8]) -> Result<CutList, CutFault>
        requires sound { IsSound self.old }
        requires counted { self.old.at + length (held_of self.old) + length piece.now ≤ 2 ^ 63 }
        ensures sound { IsSound self.new }
        ensures next { IfOk result (ComeNext (cutting_of self.old false) (held_of self.old ++ piece.now)) }
        ensures finished { IfOk result (HaveCome (cutting_of self.old false) (held_of self.old ++ piece.now)) }
        ensures follows { IfOk result (λ cuts. Follows (cutting_of self.old false) (held_of self.old ++ piece.now) cuts (cutting_of self.new false)) }
        ensures no_long { OnOk result ((at : ℕ) → ShowsLong (cutting_of self.old false) (held_of self.old ++ piece.now) at → ⊥) }
        ensures fault { IfErr result (IsFaultOf (cutting_of self.old false) (held_of self.old ++ piece.now) (cutting_of self.new false)) }
        ensures again { (at : ℕ) → self.old.long ≡ Some at → result ≡ Err (CutFault.LongLine at) }
    {
        if let Some(at) = self.long {
            return Err(CutFault::LongLine { at });
        }
        let before = self.bytes.len();
        append(&mut self.bytes, piece)?;
        let Ok(advance) = self.advance(alloc, before) else {
            self.bytes.truncate(before);
            return Err(CutFault::OutOfMemory);
        };
        match advance {
            Advance::Cuts { cuts, left } => {
                *self = left;
                Ok(cuts)
            }
            Advance::Waits {
                head,
                whole,
                in_header,
            } => {
                self.head = head;
                self.whole = whole;
                self.in_header = in_header;
                Ok(CutList::new(alloc))
            }
            Advance::LongLine { at } => {
                self.bytes.truncate(before);
                self.long = Some(at);
                Err(CutFault::LongLine { at })
            }
        }
    }

    /// How many bytes are held from the offset on.
    fn held_len(&self) -> usize
        requires { IsSound self.now }
        ensures { result ≡ length (held_of self.now) }
    {
        if self.at == 0 {
            self.bytes.len()
        } else {
            self.bytes.len() - self.head
        }
    }

    /// The last piece, where the feed ends here.
    pub(crate) fn last(&self, alloc: Global) -> Result<CutList, OutOfMemory>
        requires sound { IsSound self.now }
        requires none_long { self.now.long ≡ None }
        ensures { IfOk result (CutsAll (cutting_of self.now false)) }
    {
        let mut cuts = CutList::new(alloc);
        let held = self.held_len();
        if held == 0 {
            return Ok(cuts);
        }
        let (header, lines) = self.bytes.split_at(self.head);
        hand_out(alloc, &mut cuts, header, lines, self.at + held as u64)?;
        Ok(cuts)
    }
}
