ghost use Rattle.std.specs.Prelude.{◌≡◌, ◌==◌, ◌≤◌, position};
ghost use Rattle.base_types.specs.Lines.{newline};
ghost use Rattle.report_cut.specs.Pieces.{longest_line};
ghost use Rattle.report_cut.specs.Scan.{IsRead, IsStep};

use memchr::memchr;

/// The byte that ends a line.
pub(crate) const NEWLINE: u8 = b'\n';

/// The most bytes of a line, its newline included.
pub const LONGEST_LINE: usize = 1_048_576;

/// What the lines behind a header come to.
pub(crate) enum Step {
    /// The first `len` bytes are the lines of a finished piece; from there up to `seen` stands no newline.
    Piece { len: usize, seen: usize },
    /// The first line is too long.
    Long,
    /// No piece is finished. The first `whole` bytes are whole lines, and behind them stands no newline.
    Open { whole: usize },
}

/// The place of the first newline.
pub(crate) fn newline_in(bytes: &[u8]) -> Option<usize>
    ensures { result ≡ position (λ b. b == newline) bytes.now }
{
    memchr(NEWLINE, bytes)
}

/// Reads on behind `seen`, where the first `whole` bytes are whole lines and no newline stands between.
pub(crate) fn next_step(room: usize, bytes: &[u8], mut whole: usize, mut seen: usize) -> Step
    requires room { room ≤ longest_line }
    requires read { IsRead room bytes.now whole seen }
    ensures { IsStep room bytes.now result }
{
    'lines: while let Some(i) = newline_in(&bytes[seen..]) {
        let end = seen + i + 1;
        if whole > 0 && end > room {
            return Step::Piece { len: whole, seen };
        }
        if end - whole > LONGEST_LINE {
            return Step::Long;
        }
        whole = end;
        seen = end;
    }
    let len = bytes.len();
    if whole > 0 && len > room {
        return Step::Piece {
            len: whole,
            seen: len,
        };
    }
    if len - whole > LONGEST_LINE {
        return Step::Long;
    }
    Step::Open { whole }
}
