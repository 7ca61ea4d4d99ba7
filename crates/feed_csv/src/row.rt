//! A line as a row.
ghost use Rattle.std.specs.Prelude.{◌≡◌, ◌++◌, ◌<◌, true, Ok, IfOk, IsTrue, MatchResult};
ghost use Rattle.csv_line.specs.Line.{one_record};
ghost use Rattle.csv_line.specs.Plain.{is_plain};
ghost use Rattle.feed_rows.specs.Notes.{row_note};
ghost use Rattle.feed_rows.specs.Rows.{IsFaultOf, IsNoted, spoiled_row};
ghost use Rattle.feed_csv.specs.Cells.{cells_in, of_record};
ghost use Rattle.feed_csv.specs.Rows.{csv_row, event_of, of_cells};

use crate::CsvRule;
use crate::column::{put_cells, put_parts};
use base_types::{FaultNote, OutOfMemory};
use csv_line::{bare, fields_in, has_odd_quotes, is_plain, plain_lines_are_split, record_of};
use event_model::Fields;
use feed_rows::{ParseFault, Row, RowFault, event_row, row_note, spoiled_row, with_raw_and_room};
use std::alloc::Global;
use std::str;

// Most lines set no more fields; others grow once or twice. A rule may have far more columns than a line has cells.
const USUAL_FIELDS: usize = 12;

// Why a line is no row, with its note.
fn refused(alloc: Global, fault: RowFault) -> ParseFault
    ensures { IsNoted (row_note fault) result }
{
    match row_note(alloc, fault) {
        Ok(note) => ParseFault::Fault(note),
        Err(OutOfMemory) => ParseFault::OutOfMemory,
    }
}

// Sets what the cells of a plain line set, which needs no reader of CSV.
fn put_plain(
    alloc: Global,
    rule: &CsvRule,
    line: &str,
    event: &mut Fields,
) -> Result<(), ParseFault>
    requires plain { is_plain line.now ≡ true }
    requires ascii { rule.now.delimiter < 128 }
    ensures { MatchResult result (λ _. of_cells rule.now event.old (of_record (one_record rule.now.delimiter line.now)) ≡ Ok event.new)
        (IsFaultOf (of_cells rule.now event.old (of_record (one_record rule.now.delimiter line.now)))) }
{
    plain_lines_are_split();
    put_parts(alloc, rule.columns.as_slice(), rule.delimiter, line, event)
}

// The same of any line that is UTF-8 and has an even number of quotes.
fn put_record(
    alloc: Global,
    rule: &CsvRule,
    line: &[u8],
    event: &mut Fields,
) -> Result<(), ParseFault>
    ensures { MatchResult result (λ _. of_cells rule.now event.old (of_record (one_record rule.now.delimiter line.now)) ≡ Ok event.new)
        (IsFaultOf (of_cells rule.now event.old (of_record (one_record rule.now.delimiter line.now)))) }
{
    let Some(row) = record_of(alloc, rule.delimiter, line)? else {
        return Err(refused(alloc, RowFault::Records));
    };
    let cells = fields_in(alloc, &row)?;
    put_cells(alloc, rule.columns.as_slice(), &cells, event)
}

// Whether the cells of a line are its parts between the delimiters, each a text by itself.
fn is_split(delimiter: u8, line: &[u8]) -> bool
    ensures { IsTrue result → (delimiter < 128) × (is_plain line.now ≡ true) }
{
    delimiter < 128 && is_plain(line)
}

// Sets what a line that is UTF-8 sets, unless it is no row.
fn put_text_line(
    alloc: Global,
    rule: &CsvRule,
    line: &str,
    event: &mut Fields,
) -> Result<(), ParseFault>
    ensures { MatchResult result (λ _. of_cells rule.now event.old (cells_in rule.now.delimiter line.now) ≡ Ok event.new)
        (IsFaultOf (of_cells rule.now event.old (cells_in rule.now.delimiter line.now))) }
{
    let bytes = line.as_bytes();
    if is_split(rule.delimiter, bytes) {
        return put_plain(alloc, rule, line, event);
    }
    if has_odd_quotes(bytes) {
        return Err(refused(alloc, RowFault::Quotes));
    }
    put_record(alloc, rule, bytes, event)
}

// Sets what a line sets, unless it is no row.
fn put_line(
    alloc: Global,
    rule: &CsvRule,
    line: &[u8],
    event: &mut Fields,
) -> Result<(), ParseFault>
    ensures { MatchResult result (λ _. of_cells rule.now event.old (cells_in rule.now.delimiter line.now) ≡ Ok event.new)
        (IsFaultOf (of_cells rule.now event.old (cells_in rule.now.delimiter line.now))) }
{
    match str::from_utf8(line) {
        Ok(text) => put_text_line(alloc, rule, text, event),
        Err(_) => Err(refused(alloc, RowFault::Utf8)),
    }
}

// The event of a line without its end.
#[tactic(auto, unfolding(crate::specs::Rows::event_of))]
fn event_of(
    alloc: Global,
    rule: &CsvRule,
    others: &Fields,
    text: &[u8],
) -> Result<Fields, ParseFault>
    ensures { MatchResult result (λ event. event_of rule.now others.now text.now ≡ Ok event) (IsFaultOf (event_of rule.now others.now text.now)) }
{
    let mut event = with_raw_and_room(alloc, others, text, USUAL_FIELDS)?;
    put_line(alloc, rule, text, &mut event)?;
    Ok(event)
}

// The row of a bad line, which stands behind the header in a report of its own.
fn spoiled(
    alloc: Global,
    others: &Fields,
    header: &[u8],
    line: &[u8],
    note: FaultNote,
) -> Result<Row, OutOfMemory>
    ensures { IfOk result (λ row. row ≡ spoiled_row others.now (header.now ++ line.now) note) }
{
    let mut part = header.to_vec(alloc)?;
    part.extend_from_slice(line)?;
    spoiled_row(alloc, others, &part, note)
}

/// The row of a line. Of the report, its fields but `raw` are given.
#[tactic(auto, unfolding(crate::specs::Rows::csv_row))]
pub(crate) fn row_of_line(
    alloc: Global,
    rule: &CsvRule,
    others: &Fields,
    header: &[u8],
    line: &[u8],
) -> Result<Row, OutOfMemory>
    ensures { IfOk result (λ row. row ≡ csv_row rule.now others.now header.now line.now) }
{
    let text = bare(line);
    if text.is_empty() {
        return Ok(Row::Skipped);
    }
    match event_of(alloc, rule, others, text) {
        Ok(event) => event_row(alloc, &rule.defaults, event),
        Err(ParseFault::Fault(note)) => spoiled(alloc, others, header, line, note),
        Err(ParseFault::OutOfMemory) => Err(OutOfMemory),
    }
}
