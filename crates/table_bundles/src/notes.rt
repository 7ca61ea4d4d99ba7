//! The notes of causes.
use crate::texts::push_note;
use base_types::{FaultNote, OutOfMemory, Text, TextList};
use feed_rows::{
    RowFault, column_note, json_note, key_note, kind_note, raw_note, row_note, sieve_note,
};
use std::alloc::Global;

/// The code and the text of the note of a cause: `kind`, `json`, `raw`, `utf-8`, `quotes`, `records`, `key NAME`, `sieve AT`, or
/// `column NUMBER`, perhaps with names and bars between them.
pub fn note(alloc: Global, case: &str) -> Result<String, OutOfMemory> {
    let note = match case.split_once(' ') {
        Some((cause, rest)) => note_with(alloc, cause, rest)?,
        None => note_alone(alloc, case)?,
    };
    let mut out = String::new(alloc);
    push_note(&mut out, &note)?;
    Ok(out)
}

fn note_alone(alloc: Global, cause: &str) -> Result<FaultNote, OutOfMemory> {
    match cause {
        "kind" => kind_note(alloc),
        "json" => json_note(alloc),
        "utf-8" => row_note(alloc, RowFault::Utf8),
        "quotes" => row_note(alloc, RowFault::Quotes),
        "records" => row_note(alloc, RowFault::Records),
        _ => raw_note(alloc),
    }
}

fn note_with(alloc: Global, cause: &str, rest: &str) -> Result<FaultNote, OutOfMemory> {
    match cause {
        "key" => key_note(alloc, &Text::from(rest.to_string(alloc)?)),
        "sieve" => sieve_note(alloc, rest.parse::<u64>().unwrap_or(0)),
        _ => note_of_column(alloc, rest),
    }
}

fn note_of_column(alloc: Global, rest: &str) -> Result<FaultNote, OutOfMemory> {
    let (number, names) = match rest.split_once(' ') {
        Some((number, names)) => (number, names_in(alloc, names)?),
        None => (rest, TextList::new(alloc)),
    };
    column_note(alloc, number.parse::<u64>().unwrap_or(0), &names)
}

/// The names between bars.
pub fn names_in(alloc: Global, text: &str) -> Result<TextList, OutOfMemory> {
    let mut names = Vec::new(alloc);
    for name in text.split('|') {
        names.push(Text::from(name.to_string(alloc)?))?;
    }
    Ok(TextList::from(names))
}
