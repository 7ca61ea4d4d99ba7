ghost use Rattle.std.specs.Prelude.{◌≡◌, ◌<◌, ◌∷◌, ◌++◌, [], length, None, IfSome};
ghost use Rattle.base_types.specs.Lines.{lines_of};
ghost use Rattle.report_cut.specs.Line.{without_newline};

use crate::scan::{NEWLINE, newline_in};

/// The first line, with its newline where it has one, and what is behind it. There is none where there are no bytes.
pub fn first_line(bytes: &[u8]) -> Option<(&[u8], &[u8])>
    ensures none { result ≡ None → bytes.now ≡ [] }
    ensures lines { IfSome result (λ parts. lines_of bytes.now ≡ parts.0.now ∷ lines_of parts.1.now) }
    ensures split { IfSome result (λ parts. bytes.now ≡ parts.0.now ++ parts.1.now) }
    ensures some { IfSome result (λ parts. 0 < length parts.0.now) }
{
    match newline_in(bytes) {
        Some(at) => Some(bytes.split_at(at + 1)),
        None if bytes.is_empty() => None,
        None => Some((bytes, b"")),
    }
}

/// A line without the newline at its end, if one is there.
pub fn without_newline(line: &[u8]) -> &[u8]
    ensures { result.now ≡ without_newline line.now }
{
    match line.len().checked_sub(1) {
        Some(end) if line[end] == NEWLINE => &line[..end],
        _ => line,
    }
}
