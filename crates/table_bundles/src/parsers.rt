//! What parsers make of reports of the feed `T`.
use crate::notes::names_in;
use crate::texts::{fields_of, push_message, push_note};
use base_types::OutOfMemory;
use event_model::{Fields, Kind};
use feed_csv::{Column, ColumnList, CsvRule, parse_csv};
use feed_json::{JsonRule, Style, parse_json};
use feed_rows::{ParseFault, Parsed, content, others, with_raw};
use std::alloc::Global;
use table_lines::{push_escaped, unescaped};

/// What is made of a report in CSV, by `COLUMNS | DELIMITER WORDS | DEFAULTS | CONTENT`: columns with commas and their names with bars
/// between them, the words `stamp` and `header`, and no content where the report has none.
pub fn csv(alloc: Global, case: &str) -> Result<String, OutOfMemory> {
    let Some((columns, rest)) = case.split_once(" | ") else {
        return Ok("no delimiter".to_string(alloc)?);
    };
    let Some((words, rest)) = rest.split_once(" | ") else {
        return Ok("no defaults".to_string(alloc)?);
    };
    let (defaults, content) = around_bar(rest);
    csv_by(alloc, &csv_rule(alloc, columns, words, defaults)?, content)
}

// The fields stand last, so that no call that may fail is behind them.
fn csv_rule(
    alloc: Global,
    columns: &str,
    words: &str,
    defaults: &str,
) -> Result<CsvRule, OutOfMemory> {
    Ok(CsvRule {
        delimiter: delimiter_in(alloc, words)?,
        skip_header: words.contains("header"),
        columns: columns_in(alloc, columns, words.contains("stamp"))?,
        defaults: fields_of(alloc, defaults)?,
    })
}

fn csv_by(alloc: Global, rule: &CsvRule, content: Option<&str>) -> Result<String, OutOfMemory> {
    let report = report_of(alloc, content)?;
    outcome_text(alloc, &parse_csv(alloc, rule, &report))
}

// What stands before the first bar, and what behind it.
fn around_bar(text: &str) -> (&str, Option<&str>) {
    match text.split_once(" | ") {
        Some((front, behind)) => (front, Some(behind)),
        None => (text, None),
    }
}

fn columns_in(alloc: Global, text: &str, stamp: bool) -> Result<ColumnList, OutOfMemory> {
    let mut columns = Vec::new(alloc);
    for names in text.split(',') {
        columns.push(Column {
            names: names_in(alloc, names)?,
            stamp,
        })?;
    }
    Ok(ColumnList::from(columns))
}

fn delimiter_in(alloc: Global, words: &str) -> Result<u8, OutOfMemory> {
    let (first, _) = words.split_once(' ').unwrap_or((words, ""));
    Ok(unescaped(alloc, first)?.first().copied().unwrap_or(b','))
}

/// What is made of a report in JSON, by `DEFAULTS | CONTENT`.
pub fn json(alloc: Global, style: &str, case: &str) -> Result<String, OutOfMemory> {
    let (defaults, content) = around_bar(case);
    let report = report_of(alloc, content)?;
    json_by(alloc, style, defaults, &report)
}

fn json_by(
    alloc: Global,
    style: &str,
    defaults: &str,
    report: &Fields,
) -> Result<String, OutOfMemory> {
    let rule = JsonRule {
        style: style_of(style),
        defaults: fields_of(alloc, defaults)?,
    };
    outcome_text(alloc, &parse_json(alloc, &rule, report))
}

fn style_of(word: &str) -> Style {
    match word {
        "object" => Style::Object,
        "array" => Style::Array,
        _ => Style::Lines,
    }
}

fn report_of(alloc: Global, content: Option<&str>) -> Result<Fields, OutOfMemory> {
    let fields = fields_of(alloc, "{\"feed.name\":\"T\"}")?;
    match content {
        Some(content) => with_raw(alloc, &fields, &unescaped(alloc, content)?),
        None => Ok(fields),
    }
}

fn outcome_text(alloc: Global, made: &Result<Parsed, ParseFault>) -> Result<String, OutOfMemory> {
    let mut out = String::new(alloc);
    match made {
        Ok(all) => push_parsed(&mut out, all)?,
        Err(ParseFault::Fault(note)) => {
            out.push_str("fault ")?;
            push_note(&mut out, note)?;
        }
        Err(ParseFault::OutOfMemory) => return Err(OutOfMemory),
    }
    if out.is_empty() {
        out.push_str("nothing")?;
    }
    Ok(out)
}

// A line for each event and each bad part: its content, and the message with its other fields.
fn push_parsed(out: &mut String, all: &Parsed) -> Result<(), OutOfMemory> {
    for event in all.events.as_slice() {
        out.push_str("event ")?;
        push_parts(out, Kind::Event, event)?;
    }
    for bad in all.bad.as_slice() {
        out.push_str("bad ")?;
        push_note(out, &bad.note)?;
        out.push_str(": ")?;
        push_parts(out, Kind::Report, &bad.report)?;
    }
    Ok(())
}

fn push_parts(out: &mut String, kind: Kind, fields: &Fields) -> Result<(), OutOfMemory> {
    let alloc = *out.allocator();
    match content(alloc, fields)? {
        Some(bytes) => push_escaped(out, bytes.bytes())?,
        None => out.push_str("no raw")?,
    }
    out.push_str(" ")?;
    push_message(out, kind, others(alloc, fields)?)?;
    out.push_str("\n")?;
    Ok(())
}
