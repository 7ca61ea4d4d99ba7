//! A report as events and bad lines.
ghost use Rattle.std.specs.Prelude.{◌≡◌, Ok, Err, None, IfOk, MatchResult};
ghost use Rattle.std.specs.FinMap.{get};
ghost use Rattle.base_types.specs.Lines.{lines_of};
ghost use Rattle.base_types.specs.declared.message.FaultNote.{FaultNote as Note};
ghost use Rattle.feed_rows.specs.Reports.{raw_key};
ghost use Rattle.feed_rows.specs.Rows.{parsed, IsFaultOf};
ghost use Rattle.feed_csv.specs.Rows.{body_of, csv_parsed, csv_rows, header_of};

use crate::CsvRule;
use crate::row::row_of_line;
use base_types::OutOfMemory;
use event_model::Fields;
use feed_rows::{ParseFault, Parsed, content, others, raw_note};
use report_cut::first_line;
use std::alloc::Global;

// The header of a report, and the bytes of the lines that are rows.
fn header_and_body<'a>(rule: &CsvRule, content: &'a [u8]) -> (&'a [u8], &'a [u8])
    ensures header { result.0.now ≡ header_of rule.now content.now }
    ensures body { lines_of result.1.now ≡ body_of rule.now content.now }
{
    if !rule.skip_header {
        return (b"", content);
    }
    match first_line(content) {
        Some(parts) => parts,
        None => (b"", b""),
    }
}

// The rows of these lines.
fn parse_lines(
    alloc: Global,
    rule: &CsvRule,
    others: &Fields,
    header: &[u8],
    lines: &[u8],
) -> Result<Parsed, OutOfMemory>
    ensures { IfOk result (λ all. all ≡ parsed (csv_rows rule.now others.now header.now (lines_of lines.now))) }
{
    let mut all = Parsed::new(alloc);
    let mut rest = lines;
    'lines: while let Some((line, more)) = first_line(rest) {
        let row = row_of_line(alloc, rule, others, header, line)?;
        all.put(row)?;
        rest = more;
    }
    Ok(all)
}

/// The events of a report and its bad lines, each line read by itself: 1 `Fault` with the note `raw` exactly where the
/// report has no `raw`.
#[tactic(auto, unfolding(crate::specs::Rows::csv_parsed))]
pub fn parse_csv(alloc: Global, rule: &CsvRule, report: &Fields) -> Result<Parsed, ParseFault>
    ensures parsed { MatchResult result (λ all. csv_parsed rule.now report.now ≡ Ok all) (IsFaultOf (csv_parsed rule.now report.now)) }
    ensures absent { (note : Note) → result ≡ Err (ParseFault.Fault note) → get report.now raw_key ≡ None }
{
    let Some(bytes) = content(alloc, report)? else {
        return Err(ParseFault::Fault(raw_note(alloc)?));
    };
    let fields = others(alloc, report)?;
    let (header, body) = header_and_body(rule, bytes.bytes());
    Ok(parse_lines(alloc, rule, &fields, header, body)?)
}
