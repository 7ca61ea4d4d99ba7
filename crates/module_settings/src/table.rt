//! The file of a prefix expert: a header of names of fields, and rows of a network and values.
ghost use Rattle.std.specs.Prelude.{◌≡◌, ◌<◌, ◌^◌, ◌∷◌, [], ◌++◌, ◌&&◌, true, not, length, count_by, map, option_map, option_and_then, Some, None, IfOk, OnOk, MatchResult, Ok, if◌then◌else◌};
ghost use Rattle.std.specs.Str.{is_utf8};
ghost use Rattle.base_types.specs.Lines.{lines_of};
ghost use Rattle.csv_line.specs.Cells.{has_odd_quotes};
ghost use Rattle.csv_line.specs.Line.{one_record};
ghost use Rattle.csv_line.specs.Plain.{is_plain};
ghost use Rattle.field_types.specs.declared.value.Value.TheVariants as value;
ghost use Rattle.event_model.specs.Fields.{value_for, IsField};
ghost use Rattle.module_settings.specs.Rows.{with_row, IsPut, IsTableFault};
ghost use Rattle.module_settings.specs.Table.{cells_of, columns_of, comma, header_in, header_of, is_column, is_empty_line, network_cell, network_of, put_cell, put_cells, row_count, row_in, row_of, rows_of, table_in};

use base_types::{ListOf, OutOfMemory, Text};
use csv_line::{
    bare, fields_in, has_odd_quotes, is_plain, is_text, parts_of, plain_lines_are_split, record_of,
};
use event_model::Fields;
use field_types::{FieldFault, FieldName, Value, sanitise_text};
use report_cut::first_line;
use scalar_net::{Network, read_network};
use scalar_text::strip;
use std::alloc::{AllocError, Global};
use std::marker::Model;
use std::str;

pub type NetworkList = ListOf<Network>;

pub type FieldsList = ListOf<Fields>;

/// Networks, and what each of them sets.
#[derive(Debug, Drop)]
pub struct Rows {
    pub networks: NetworkList,
    pub sets: FieldsList,
}

impl Rows {
    fn new(alloc: Global) -> Self
        ensures { result ≡ record { networks = []; sets = [] } }
    {
        Rows {
            networks: NetworkList::new(alloc),
            sets: FieldsList::new(alloc),
        }
    }
}

/// Rows with as many sets as networks, fewer than 2^31. Contracts see the rows.
#[derive(Debug, Drop)]
pub struct Table {
    rows: Rows,
}

impl Model for Table {
    ghost use Rattle.std.specs.Prelude.{◌≡◌, ◌<◌, ◌^◌, length};
    ghost use Rattle.std.specs.Coded.{codes};
    ghost use Rattle.event_model.specs.contracts.fields.Fields as fields;
    ghost use Rattle.module_settings.specs.declared.table.Rows.{Rows};

    ghost Value = { Rows };

    ghost coded = { Prim.hlevel (codes, fields.the_row.coded) };

    ghost view = { λ t. t.rows };

    ghost invariant = { λ t. (length t.rows.sets ≡ length t.rows.networks) × (length t.rows.networks < 2 ^ 31) };
}

// No table has so many rows.
const ROWS_LIMIT: usize = 0x8000_0000;

impl Table {
    /// A table of no rows. It takes no memory.
    pub fn new(alloc: Global) -> Self
        ensures { result ≡ record { networks = []; sets = [] } }
    {
        Table {
            rows: Rows::new(alloc),
        }
    }

    // There is no room for 2^31 rows.
    fn with_rows(rows: Rows) -> Result<Table, OutOfMemory>
        requires { length rows.sets ≡ length rows.networks }
        ensures { IfOk result (λ table. table ≡ rows) }
    {
        if rows.networks.len() >= ROWS_LIMIT {
            return Err(OutOfMemory);
        }
        Ok(Table { rows })
    }

    /// The rows, with as many sets as networks.
    pub fn rows(&self) -> &Rows
        ensures rows { result.now ≡ self.now }
        ensures paired { length result.now.sets ≡ length result.now.networks }
        ensures few { length result.now.networks < 2 ^ 31 }
    {
        &self.rows
    }
}

/// Why a file is no table.
#[derive(Clone, Copy, Debug, PartialEq, Eq)]
pub enum TableFault {
    /// The line with this number, from 1, is no header or row.
    Line(u64),
    OutOfMemory,
}

impl From<OutOfMemory> for TableFault {
    ghost use Rattle.std.specs.Prelude.{◌≡◌};
    ghost use Rattle.module_settings.specs.declared.table.TableFault.TheVariants.{OutOfMemory as NoMemory};

    ghost from_gives = { λ _ fault. fault ≡ NoMemory };

    fn from(_: OutOfMemory) -> Self {
        TableFault::OutOfMemory
    }
}

const COMMA: u8 = b',';

// ---- how many rows

// 1, or 0 for an empty line.
fn count_of(line: &[u8]) -> usize
    ensures { result ≡ count_by (λ l. not (is_empty_line l)) (line.now ∷ []) }
{
    if bare(line).is_empty() { 0 } else { 1 }
}

// How many of these lines aren't empty.
fn count_rows(lines: &[u8]) -> usize
    ensures { result ≡ count_by (λ line. not (is_empty_line line)) (lines_of lines.now) }
{
    let mut count = 0;
    let mut rest = lines;
    'lines: while let Some((line, behind)) = first_line(rest) {
        count += count_of(line);
        rest = behind;
    }
    count
}

/// How many rows a file has, bad ones too: the lines behind the first that aren't empty.
#[tactic(auto, unfolding(crate::specs::Table::row_count))]
pub fn row_count(content: &[u8]) -> usize
    ensures { result ≡ row_count content.now }
{
    match first_line(content) {
        Some((_, lines)) => count_rows(lines),
        None => 0,
    }
}

// ---- a row

// The value of a field for a text.
#[tactic(auto, unfolding(event_model::specs::Fields::value_for))]
fn value_for(alloc: Global, name: &FieldName, text: &str) -> Result<Option<Value>, OutOfMemory>
    ensures { IfOk result (λ v. v ≡ value_for name.now (value.Text text.now)) }
{
    let Some(kind) = name.kind() else {
        return Ok(None);
    };
    match sanitise_text(alloc, kind, text) {
        Ok(value) => Ok(Some(value)),
        Err(FieldFault::BadValue) => Ok(None),
        Err(FieldFault::OutOfMemory) => Err(OutOfMemory),
    }
}

fn text_of_name(alloc: Global, name: &FieldName) -> Result<Text, AllocError>
    ensures { IfOk result (λ text. text ≡ name.now) }
{
    Ok(Text::from(String::from_str(alloc, name.as_str())?))
}

// The fields with what a cell sets.
#[tactic(auto, unfolding(crate::specs::Table::put_cell))]
fn put_cell(
    alloc: Global,
    name: &FieldName,
    cell: &[u8],
    mut fields: Fields,
) -> Result<Option<Fields>, OutOfMemory>
    ensures { IfOk result (λ put. put ≡ put_cell name.now cell.now fields) }
{
    let Ok(text) = str::from_utf8(cell) else {
        return Ok(None);
    };
    if strip(text).is_empty() {
        return Ok(Some(fields));
    }
    let Some(value) = value_for(alloc, name, text)? else {
        return Ok(None);
    };
    fields.put(text_of_name(alloc, name)?, value)?;
    Ok(Some(fields))
}

// The fields with what these cells set, each by the name at its place, from the left.
fn put_cells(
    alloc: Global,
    names: &[FieldName],
    cells: &[&[u8]],
    fields: Fields,
) -> Result<Option<Fields>, OutOfMemory>
    ensures { IfOk result (λ put. put ≡ put_cells names.now (map (λ cell. cell.now) cells.now) fields) }
{
    let mut names = names;
    let mut cells = cells;
    let mut fields = fields;
    'cells: loop {
        let [cell, more_cells @ ..] = cells else {
            return Ok(Some(fields));
        };
        let [name, more_names @ ..] = names else {
            return Ok(None);
        };
        match put_cell(alloc, name, cell, fields)? {
            Some(put) => fields = put,
            None => return Ok(None),
        }
        names = more_names;
        cells = more_cells;
    }
}

#[tactic(auto, unfolding(crate::specs::Table::network_of))]
fn network_of(text: &[u8]) -> Option<Network>
    ensures { result ≡ network_of text.now }
{
    match read_network(text) {
        Ok(network) => Some(network),
        Err(_) => None,
    }
}

fn network_cell(cell: &[u8]) -> Option<Network>
    ensures { result ≡ network_cell cell.now }
{
    match str::from_utf8(cell) {
        Ok(text) => network_of(strip(text).as_bytes()),
        Err(_) => None,
    }
}

fn row_of(
    alloc: Global,
    names: &[FieldName],
    cells: &[&[u8]],
) -> Result<Option<(Network, Fields)>, OutOfMemory>
    ensures { IfOk result (λ row. row ≡ row_of names.now (map (λ cell. cell.now) cells.now)) }
{
    let [first, others @ ..] = cells else {
        return Ok(None);
    };
    let Some(network) = network_cell(first) else {
        return Ok(None);
    };
    match put_cells(alloc, names, others, Fields::new(alloc))? {
        Some(fields) => Ok(Some((network, fields))),
        None => Ok(None),
    }
}

// A plain line needs no reader of CSV.
fn plain_row(
    alloc: Global,
    names: &[FieldName],
    line: &[u8],
) -> Result<Option<(Network, Fields)>, OutOfMemory>
    requires { is_plain line.now ≡ true }
    ensures { IfOk result (λ row. row ≡ option_and_then (row_of names.now) (one_record comma line.now)) }
{
    plain_lines_are_split();
    let cells = parts_of(alloc, COMMA, line)?;
    row_of(alloc, names, &cells)
}

fn record_row(
    alloc: Global,
    names: &[FieldName],
    line: &[u8],
) -> Result<Option<(Network, Fields)>, OutOfMemory>
    ensures { IfOk result (λ row. row ≡ option_and_then (row_of names.now) (one_record comma line.now)) }
{
    let Some(record) = record_of(alloc, COMMA, line)? else {
        return Ok(None);
    };
    let cells = fields_in(alloc, &record)?;
    row_of(alloc, names, &cells)
}

// The row that a line without its end is.
#[tactic(auto, unfolding(crate::specs::Table::row_in, crate::specs::Table::cells_of))]
fn row_in(
    alloc: Global,
    names: &[FieldName],
    line: &[u8],
) -> Result<Option<(Network, Fields)>, OutOfMemory>
    ensures { IfOk result (λ row. row ≡ row_in names.now line.now) }
{
    if !is_text(line) || has_odd_quotes(line) {
        return Ok(None);
    }
    if is_plain(line) {
        plain_row(alloc, names, line)
    } else {
        record_row(alloc, names, line)
    }
}

// ---- the header

fn name_of(alloc: Global, cell: &[u8]) -> Result<Option<FieldName>, OutOfMemory>
    ensures { IfOk result (λ name. name ≡ (if is_column cell.now then Some cell.now else None)) }
{
    let Ok(text) = str::from_utf8(cell) else {
        return Ok(None);
    };
    let name = FieldName::new(alloc, text)?;
    if name.kind().is_none() {
        return Ok(None);
    }
    Ok(Some(name))
}

fn names_of(alloc: Global, cells: &[&[u8]]) -> Result<Option<Vec<FieldName>>, OutOfMemory>
    ensures { IfOk result (λ names. option_map (λ ns. ns.items) names ≡ columns_of (map (λ cell. cell.now) cells.now)) }
{
    let mut names = Vec::with_capacity(alloc, cells.len())?;
    'cells: for cell in cells {
        let Some(name) = name_of(alloc, cell)? else {
            return Ok(None);
        };
        names.push(name)?;
    }
    Ok(Some(names))
}

fn header_of(alloc: Global, cells: &[&[u8]]) -> Result<Option<Vec<FieldName>>, OutOfMemory>
    ensures { IfOk result (λ names. option_map (λ ns. ns.items) names ≡ header_of (map (λ cell. cell.now) cells.now)) }
{
    match cells {
        [first, others @ ..] if *first == b"network".as_slice() => names_of(alloc, others),
        _ => Ok(None),
    }
}

fn plain_header(alloc: Global, line: &[u8]) -> Result<Option<Vec<FieldName>>, OutOfMemory>
    requires { is_plain line.now ≡ true }
    ensures { IfOk result (λ names. option_map (λ ns. ns.items) names ≡ option_and_then header_of (one_record comma line.now)) }
{
    plain_lines_are_split();
    let cells = parts_of(alloc, COMMA, line)?;
    header_of(alloc, &cells)
}

fn record_header(alloc: Global, line: &[u8]) -> Result<Option<Vec<FieldName>>, OutOfMemory>
    ensures { IfOk result (λ names. option_map (λ ns. ns.items) names ≡ option_and_then header_of (one_record comma line.now)) }
{
    let Some(record) = record_of(alloc, COMMA, line)? else {
        return Ok(None);
    };
    let cells = fields_in(alloc, &record)?;
    header_of(alloc, &cells)
}

// The names of the fields in a header without its end.
#[tactic(auto, unfolding(crate::specs::Table::header_in, crate::specs::Table::cells_of))]
fn header_in(alloc: Global, line: &[u8]) -> Result<Option<Vec<FieldName>>, OutOfMemory>
    ensures { IfOk result (λ names. option_map (λ ns. ns.items) names ≡ header_in line.now) }
{
    if !is_text(line) || has_odd_quotes(line) {
        return Ok(None);
    }
    if is_plain(line) {
        plain_header(alloc, line)
    } else {
        record_header(alloc, line)
    }
}

// ---- the whole

fn push_row(table: &mut Rows, row: (Network, Fields)) -> Result<(), OutOfMemory>
    ensures { OnOk result (table.new ≡ with_row table.old row) }
{
    let (network, fields) = row;
    if table.networks.push(network).is_err() {
        return Err(OutOfMemory);
    }
    match table.sets.push(fields) {
        Ok(()) => Ok(()),
        Err(_) => Err(OutOfMemory),
    }
}

// Puts the row that a line is behind the others, unless the line is empty.
fn put_line(
    alloc: Global,
    names: &[FieldName],
    number: u64,
    line: &[u8],
    table: &mut Rows,
) -> Result<(), TableFault>
    ensures { MatchResult result (λ _. IsPut (rows_of names.now number (line.now ∷ [])) table.old table.new) (IsTableFault (rows_of names.now number (line.now ∷ []))) }
{
    let text = bare(line);
    if text.is_empty() {
        return Ok(());
    }
    match row_in(alloc, names, text)? {
        Some(row) => Ok(push_row(table, row)?),
        None => Err(TableFault::Line(number)),
    }
}

// The rows that these lines are, behind a header.
fn rows_of(alloc: Global, names: &[FieldName], lines: &[u8]) -> Result<Rows, TableFault>
    ensures { MatchResult result (λ table. rows_of names.now 2 (lines_of lines.now) ≡ Ok table) (IsTableFault (rows_of names.now 2 (lines_of lines.now))) }
{
    let mut table = Rows::new(alloc);
    let mut before = 0;
    let mut rest = lines;
    'lines: while let Some((line, behind)) = first_line(rest) {
        put_line(alloc, names, before + 2, line, &mut table)?;
        before += 1;
        rest = behind;
    }
    Ok(table)
}

/// The table that a file is.
#[tactic(auto, unfolding(crate::specs::Table::table_in))]
pub fn table_in(alloc: Global, content: &[u8]) -> Result<Table, TableFault>
    ensures { MatchResult result (λ table. table_in content.now ≡ Ok table) (IsTableFault (table_in content.now)) }
{
    let Some((line, lines)) = first_line(content) else {
        return Err(TableFault::Line(1));
    };
    match header_in(alloc, bare(line))? {
        Some(names) => Ok(Table::with_rows(rows_of(alloc, &names, lines)?)?),
        None => Err(TableFault::Line(1)),
    }
}
