//! What the cells of a line set.
ghost use Rattle.std.specs.Prelude.{◌≡◌, ◌<◌, ◌==◌, ◌∷◌, [], Ok, IfOk, IfSome, MatchOption, MatchResult, length, map};
ghost use Rattle.std.specs.List.{list_any, slice_split};
ghost use Rattle.field_types.specs.Cleaning.{of_text};
ghost use Rattle.scalar_text.specs.Strip.{strip};
ghost use Rattle.field_types.specs.declared.value.Value.TheVariants as value;
ghost use Rattle.feed_rows.specs.Rows.{IsFaultOf};
ghost use Rattle.feed_csv.specs.Columns.{attempt_text, is_ignored, moment_in, moment_text, put_cell, put_cells, put_stripped, stamp_in, text_for, text_under};

use base_types::{ListOf, OutOfMemory, Text, TextList, read_digits};
use event_model::{Fields, is_dropped_text};
use feed_rows::{ParseFault, column_note};
use field_types::{FieldFault, FieldName, FieldType, Kept, Value, keep};
use scalar_text::{print_time, strip};
use std::alloc::Global;
use std::str;

const SECONDS_TO_1970: u64 = 62_135_596_800;

const LAST_MOMENT: u64 = 253_402_300_799;

/// What a cell sets.
#[derive(Debug, Drop)]
pub struct Column {
    /// Fields that are tried in order. An empty name and `__IGNORE__` end the trying, and set nothing.
    pub names: TextList,
    /// Whether a field that is a time takes seconds since 1970 as well.
    pub stamp: bool,
}

pub type ColumnList = ListOf<Column>;

/// What the names of a column make of a cell.
#[derive(Debug, Drop)]
pub(crate) enum Taken {
    /// An ignored name ends the trying.
    Ends,
    /// The field takes the cell.
    Sets(FieldName, Value),
    /// No name takes the cell.
    Untaken,
}

// The text of the time so many seconds after 1970.
fn moment_text(alloc: Global, seconds: u64) -> Result<Option<Text>, OutOfMemory>
    ensures { IfOk result (λ text. text ≡ moment_text seconds) }
{
    if seconds > LAST_MOMENT {
        return Ok(None);
    }
    Ok(Some(print_time(alloc, SECONDS_TO_1970 + seconds)?))
}

// The text of the time that digits write as seconds since 1970.
fn moment_in(alloc: Global, text: &str) -> Result<Option<Text>, OutOfMemory>
    ensures { IfOk result (λ moment. moment ≡ moment_in text.now) }
{
    match read_digits(text.as_bytes(), 12) {
        Some(seconds) => moment_text(alloc, seconds),
        None => Ok(None),
    }
}

// That time, for a field that is a time.
fn stamp_in(alloc: Global, kind: FieldType, text: &str) -> Result<Option<Value>, OutOfMemory>
    ensures { IfOk result (λ value. value ≡ stamp_in kind text.now) }
{
    let FieldType::DateTime = kind else {
        return Ok(None);
    };
    match moment_in(alloc, text)? {
        Some(text) => Ok(Some(Value::Text(text))),
        None => Ok(None),
    }
}

fn copy_of(alloc: Global, text: &str) -> Result<Value, OutOfMemory>
    ensures { IfOk result (λ copied. copied ≡ value.Text text.now) }
{
    Ok(Value::Text(Text::from(String::from_str(alloc, text)?)))
}

// The canonical value of a kind for a stripped text, if the kind takes it.
fn kept_of(alloc: Global, kind: FieldType, text: &str) -> Result<Option<Value>, OutOfMemory>
    ensures { IfOk result (λ kept. kept ≡ of_text kind text.now) }
{
    match keep(alloc, kind, text) {
        Ok(Kept::Same) => Ok(Some(copy_of(alloc, text)?)),
        Ok(Kept::Other(kept)) => Ok(Some(kept)),
        Err(FieldFault::BadValue) => Ok(None),
        Err(FieldFault::OutOfMemory) => Err(OutOfMemory),
    }
}

// The same for a text that may be a stamp.
fn text_under(
    alloc: Global,
    stamp: bool,
    text: &str,
    kind: FieldType,
) -> Result<Option<Value>, OutOfMemory>
    ensures { IfOk result (λ kept. kept ≡ text_under stamp text.now kind) }
{
    match kept_of(alloc, kind, text)? {
        Some(kept) => Ok(Some(kept)),
        None if stamp => stamp_in(alloc, kind, text),
        None => Ok(None),
    }
}

// The value of the field of this name for a stripped text, if there is such a field and it takes the text.
fn text_for(
    alloc: Global,
    stamp: bool,
    text: &str,
    name: &FieldName,
) -> Result<Option<Value>, OutOfMemory>
    ensures { IfOk result (λ kept. kept ≡ text_for stamp text.now name.now) }
{
    match name.kind() {
        Some(kind) => text_under(alloc, stamp, text, kind),
        None => Ok(None),
    }
}

fn is_ignored(name: &Text) -> bool
    ensures { result ≡ is_ignored name.now }
{
    name.as_str().is_empty() || name.as_str() == "__IGNORE__"
}

// What the first name does that is ignored or takes the stripped text.
fn attempt(alloc: Global, column: &Column, text: &str) -> Result<Taken, OutOfMemory>
    ensures { IfOk result (λ what. what ≡ attempt_text column.now.stamp text.now column.now.names) }
{
    'names: for name in column.names.as_slice() {
        if is_ignored(name) {
            return Ok(Taken::Ends);
        }
        let field = FieldName::new(alloc, name.as_str())?;
        if let Some(kept) = text_for(alloc, column.stamp, text, &field)? {
            return Ok(Taken::Sets(field, kept));
        }
    }
    Ok(Taken::Untaken)
}

// Whether an ignored name is among them.
fn has_ignored(names: &[Text]) -> bool
    ensures { result ≡ list_any is_ignored names.now }
{
    names.iter().any(|name| is_ignored(name))
}

// Sets what a cell with this stripped text sets by the column with this number, from 1.
#[tactic(auto, unfolding(crate::specs::Columns::put_stripped))]
fn put_stripped(
    alloc: Global,
    number: u64,
    column: &Column,
    text: &str,
    event: &mut Fields,
) -> Result<(), ParseFault>
    requires { strip text.now ≡ text.now }
    ensures { MatchResult result (λ _. put_stripped number column.now text.now event.old ≡ Ok event.new) (IsFaultOf (put_stripped number column.now text.now event.old)) }
{
    if is_dropped_text(text) {
        return Ok(());
    }
    match attempt(alloc, column, text)? {
        Taken::Ends => Ok(()),
        Taken::Sets(name, kept) => Ok(event.put_named(name, kept)?),
        Taken::Untaken => Err(ParseFault::Fault(column_note(alloc, number, &column.names)?)),
    }
}

// Sets what a cell that is UTF-8 sets.
fn put_text(
    alloc: Global,
    number: u64,
    column: &Column,
    cell: &str,
    event: &mut Fields,
) -> Result<(), ParseFault>
    ensures { MatchResult result (λ _. put_cell number column.now cell.now event.old ≡ Ok event.new) (IsFaultOf (put_cell number column.now cell.now event.old)) }
{
    put_stripped(alloc, number, column, strip(cell), event)
}

// Sets what a cell sets. No field takes one that isn't UTF-8.
fn put_cell(
    alloc: Global,
    number: u64,
    column: &Column,
    cell: &[u8],
    event: &mut Fields,
) -> Result<(), ParseFault>
    ensures { MatchResult result (λ _. put_cell number column.now cell.now event.old ≡ Ok event.new) (IsFaultOf (put_cell number column.now cell.now event.old)) }
{
    match str::from_utf8(cell) {
        Ok(text) => put_text(alloc, number, column, text, event),
        Err(_) if has_ignored(column.names.as_slice()) => Ok(()),
        Err(_) => Err(ParseFault::Fault(column_note(alloc, number, &column.names)?)),
    }
}

/// Sets what the cells of a line set, each by the column at its place, from the left.
pub(crate) fn put_cells(
    alloc: Global,
    columns: &[Column],
    cells: &[&[u8]],
    event: &mut Fields,
) -> Result<(), ParseFault>
    ensures { MatchResult result (λ _. put_cells 0 columns.now (map (λ cell. cell.now) cells.now) event.old ≡ Ok event.new)
        (IsFaultOf (put_cells 0 columns.now (map (λ cell. cell.now) cells.now) event.old)) }
{
    let mut columns = columns;
    let mut cells = cells;
    let mut before = 0;
    'cells: loop {
        let [column, more_columns @ ..] = columns else {
            return Ok(());
        };
        let [cell, more_cells @ ..] = cells else {
            return Ok(());
        };
        put_cell(alloc, before + 1, column, cell, event)?;
        columns = more_columns;
        cells = more_cells;
        before += 1;
    }
}

// The first part of a text between delimiters, and what is behind its delimiter, if there is one.
fn first_part(text: &str, delimiter: u8) -> (&str, Option<&str>)
    requires { delimiter < 128 }
    ensures { MatchOption result.1 (slice_split (λ b. b == delimiter) text.now ≡ result.0.now ∷ [])
        (λ more. slice_split (λ b. b == delimiter) text.now ≡ result.0.now ∷ slice_split (λ b. b == delimiter) more.now) }
{
    match text.split_once(char::from(delimiter)) {
        Some((part, more)) => (part, Some(more)),
        None => (text, None),
    }
}

/// Sets what the parts of a text between delimiters set, each by the column at its place, from the left.
pub(crate) fn put_parts(
    alloc: Global,
    columns: &[Column],
    delimiter: u8,
    text: &str,
    event: &mut Fields,
) -> Result<(), ParseFault>
    requires { delimiter < 128 }
    ensures { MatchResult result (λ _. put_cells 0 columns.now (slice_split (λ b. b == delimiter) text.now) event.old ≡ Ok event.new)
        (IsFaultOf (put_cells 0 columns.now (slice_split (λ b. b == delimiter) text.now) event.old)) }
{
    let mut columns = columns;
    let mut rest = text;
    let mut before = 0;
    'parts: loop {
        let [column, more_columns @ ..] = columns else {
            return Ok(());
        };
        let (part, more) = first_part(rest, delimiter);
        put_text(alloc, before + 1, column, part, event)?;
        let Some(more) = more else {
            return Ok(());
        };
        columns = more_columns;
        rest = more;
        before += 1;
    }
}
