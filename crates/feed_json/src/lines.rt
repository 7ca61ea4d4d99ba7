//! A report with an object a line.
ghost use Rattle.std.specs.Prelude.{◌≡◌, IfOk};
ghost use Rattle.base_types.specs.Lines.{lines_of};
ghost use Rattle.feed_rows.specs.Rows.{parsed};
ghost use Rattle.feed_json.specs.Rows.{line_row, line_rows};

use crate::object::event_in;
use base_types::OutOfMemory;
use event_json::Cleaner;
use event_model::Fields;
use feed_rows::{ParseFault, Parsed, Row, event_row, spoiled_row};
use report_cut::{first_line, without_newline};
use std::alloc::Global;

#[tactic(auto, unfolding(crate::specs::Rows::line_row))]
fn line_row(
    alloc: Global,
    cleaner: &mut Cleaner,
    defaults: &Fields,
    others: &Fields,
    line: &[u8],
) -> Result<Row, OutOfMemory>
    ensures { IfOk result (λ row. row ≡ line_row defaults.now others.now line.now) }
{
    let text = without_newline(line);
    if text.is_empty() {
        return Ok(Row::Skipped);
    }
    match event_in(alloc, cleaner, others, text) {
        Ok(event) => event_row(alloc, defaults, event),
        Err(ParseFault::Fault(note)) => spoiled_row(alloc, others, line, note),
        Err(ParseFault::OutOfMemory) => Err(OutOfMemory),
    }
}

/// The rows of these lines.
pub(crate) fn parse_lines(
    alloc: Global,
    defaults: &Fields,
    others: &Fields,
    lines: &[u8],
) -> Result<Parsed, OutOfMemory>
    ensures { IfOk result (λ all. all ≡ parsed (line_rows defaults.now others.now (lines_of lines.now))) }
{
    let mut cleaner = Cleaner::new(alloc);
    let mut all = Parsed::new(alloc);
    let mut rest = lines;
    'lines: while let Some((line, more)) = first_line(rest) {
        let row = line_row(alloc, &mut cleaner, defaults, others, line)?;
        all.put(row)?;
        rest = more;
    }
    Ok(all)
}
