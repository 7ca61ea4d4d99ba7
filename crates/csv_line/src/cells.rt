//! A line, and its cells.
ghost use Rattle.std.specs.Prelude.{◌≡◌, ◌==◌, map, IfOk};
ghost use Rattle.std.specs.List.{slice_split};
ghost use Rattle.std.specs.Str.{is_utf8};
ghost use Rattle.csv.specs.Records.{fields_of};
ghost use Rattle.csv_line.specs.Cells.{bare, has_odd_quotes};

use base_types::OutOfMemory;
use csv::ByteRecord;
use report_cut::without_newline;
use std::alloc::{AllocError, Global};
use std::str;

/// A line without its newline, and without one carriage return before it.
pub fn bare(line: &[u8]) -> &[u8]
    ensures { result.now ≡ bare line.now }
{
    if line.ends_with(b"\r\n") {
        &line[..line.len() - 2]
    } else {
        without_newline(line)
    }
}

/// Whether the line has an odd number of double quotes.
pub fn has_odd_quotes(line: &[u8]) -> bool
    ensures { result ≡ has_odd_quotes line.now }
{
    line.iter().filter(|b| **b == b'"').count() % 2 == 1
}

/// Whether the line is UTF-8 (RFC 3629).
pub fn is_text(line: &[u8]) -> bool
    ensures { result ≡ is_utf8 line.now }
{
    match str::from_utf8(line) {
        Ok(_) => true,
        Err(_) => false,
    }
}

/// The fields of a record.
pub fn fields_in<'a>(alloc: Global, row: &'a ByteRecord) -> Result<Vec<&'a [u8]>, OutOfMemory>
    ensures { IfOk result (λ cells. map (λ cell. cell.now) cells.items ≡ fields_of row.now) }
{
    let mut cells = Vec::with_capacity(alloc, row.len())?;
    let mut at = 0;
    'fields: while let Some(cell) = row.get(at) {
        cells.push(cell)?;
        at += 1;
    }
    Ok(cells)
}

/// What stands between the delimiters.
pub fn parts_of(alloc: Global, delimiter: u8, line: &[u8]) -> Result<Vec<&[u8]>, AllocError>
    ensures { IfOk result (λ cells. map (λ cell. cell.now) cells.items ≡ slice_split (λ b. b == delimiter) line.now) }
{
    line.split(|b| *b == delimiter).collect(alloc)
}
