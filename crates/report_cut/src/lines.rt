ghost use Rattle.std.specs.Prelude.{◌≡◌, ℕ, ◌+◌, ◌-◌, ◌^◌, ◌<◌, ◌≤◌, [], ◌∷◌, ◌++◌, length, IfOk, OnOk};
ghost use Rattle.report_cut.specs.Pieces.{longest_line, start_of};
ghost use Rattle.report_cut.specs.Scan.{IsRead, IsCutUp};

use crate::scan::{Step, next_step};
use crate::{Cut, CutList, CutRule};
use base_types::{Blob, OutOfMemory};
use std::alloc::Global;

/// What the lines behind a header were cut into.
#[derive(Drop)]
pub(crate) struct Parts {
    pub(crate) cuts: CutList,
    /// How many bytes of the lines went into the pieces.
    pub(crate) taken: usize,
    /// How many bytes of whole lines are left behind the pieces.
    pub(crate) whole: usize,
    /// Whether the line behind the pieces is too long.
    pub(crate) long: bool,
}

/// Puts the piece of these lines behind the others.
pub(crate) fn hand_out(
    alloc: Global,
    cuts: &mut CutList,
    header: &[u8],
    lines: &[u8],
    upto: u64,
) -> Result<(), OutOfMemory>
    ensures { OnOk result (cuts.new ≡ cuts.old ++ record { piece = header.now ++ lines.now; upto = upto } ∷ []) }
{
    let mut piece = Blob::new(alloc, header)?;
    piece.append(lines)?;
    match cuts.push(Cut { piece, upto }) {
        Ok(()) => Ok(()),
        Err(_) => Err(OutOfMemory),
    }
}

/// The feed offset where the lines of the next piece begin.
pub(crate) fn lines_start(rule: CutRule, header: &[u8], at: u64) -> u64
    ensures { result ≡ start_of rule header.now at }
{
    if rule.replicate && at == 0 {
        header.len() as u64
    } else {
        at
    }
}

/// Cuts off the finished pieces. The first `whole` bytes are whole lines, and from there to `seen` stands no newline.
pub(crate) fn cut_lines(
    alloc: Global,
    rule: CutRule,
    header: &[u8],
    at: u64,
    lines: &[u8],
    mut whole: usize,
    mut seen: usize,
) -> Result<Parts, OutOfMemory>
    requires chunk { rule.chunk_size ≤ longest_line }
    requires header { length header.now ≤ longest_line }
    requires place { at ≤ start_of rule header.now at }
    requires counted { start_of rule header.now at + length lines.now < 2 ^ 64 }
    requires read { IsRead (rule.chunk_size - length header.now) lines.now whole seen }
    ensures { IfOk result (IsCutUp rule header.now at lines.now) }
{
    let room = (rule.chunk_size as usize).saturating_sub(header.len());
    let start = lines_start(rule, header, at);
    let mut cuts = CutList::new(alloc);
    let mut taken = 0;
    'pieces: loop {
        match next_step(room, &lines[taken..], whole, seen) {
            Step::Piece { len, seen: read } => {
                let end = taken + len;
                hand_out(
                    alloc,
                    &mut cuts,
                    header,
                    &lines[taken..end],
                    start + end as u64,
                )?;
                taken = end;
                whole = 0;
                seen = read - len;
            }
            Step::Long => {
                return Ok(Parts {
                    cuts,
                    taken,
                    whole: 0,
                    long: true,
                });
            }
            Step::Open { whole } => {
                return Ok(Parts {
                    cuts,
                    taken,
                    whole,
                    long: false,
                });
            }
        }
    }
}
