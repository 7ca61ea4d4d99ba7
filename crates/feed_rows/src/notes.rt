//! Why a message or a part of it couldn't be processed: the note of each cause.
ghost use Rattle.std.specs.Prelude.{◌≡◌, ◌∷◌, IfOk, OnOk, string_bytes};
ghost use Rattle.std.specs.List.{join_with_byte};
ghost use Rattle.feed_rows.specs.Notes.{bar, column_note, json_note, key_note, kind_note, raw_note, row_note, row_word, sieve_note};

use base_types::{FaultNote, OutOfMemory, Text, TextList};
use std::alloc::Global;

/// Why a line is no row.
#[derive(Clone, Copy, Debug, PartialEq, Eq)]
pub enum RowFault {
    /// It isn't UTF-8.
    Utf8,
    /// It has an odd number of double quotes.
    Quotes,
    /// It is no record, or more than one.
    Records,
}

fn note(alloc: Global, code: u16, text: &str) -> Result<FaultNote, OutOfMemory>
    ensures { IfOk result (λ note. note ≡ record { code = code; text = text.now }) }
{
    Ok(FaultNote {
        code,
        text: Text::from(String::from_str(alloc, text)?),
    })
}

/// The message is of the wrong kind.
pub fn kind_note(alloc: Global) -> Result<FaultNote, OutOfMemory>
    ensures { IfOk result (λ note. note ≡ kind_note) }
{
    note(alloc, 1, "kind")
}

/// There is no JSON text (RFC 8259), no object or array, or a report where an event has to be.
pub fn json_note(alloc: Global) -> Result<FaultNote, OutOfMemory>
    ensures { IfOk result (λ note. note ≡ json_note) }
{
    note(alloc, 2, "json")
}

fn row_word(fault: RowFault) -> &'static str
    ensures { result.now ≡ row_word fault }
{
    match fault {
        RowFault::Utf8 => "row: utf-8",
        RowFault::Quotes => "row: quotes",
        RowFault::Records => "row: records",
    }
}

/// The line is no row.
pub fn row_note(alloc: Global, fault: RowFault) -> Result<FaultNote, OutOfMemory>
    ensures { IfOk result (λ note. note ≡ row_note fault) }
{
    note(alloc, 3, row_word(fault))
}

// Puts further names behind a first one, each behind a bar.
fn push_others(text: &mut String, first: &Text, others: &[Text]) -> Result<(), OutOfMemory>
    requires { string_bytes text.old ≡ first.now }
    ensures { OnOk result (string_bytes text.new ≡ join_with_byte bar (first.now ∷ others.now)) }
{
    'names: for name in others {
        text.push_str("|")?;
        text.push_str(name.as_str())?;
    }
    Ok(())
}

// The names with bars between them.
fn joined(alloc: Global, names: &[Text]) -> Result<String, OutOfMemory>
    ensures { IfOk result (λ text. string_bytes text ≡ join_with_byte bar names.now) }
{
    match names {
        [] => Ok(String::new(alloc)),
        [first, others @ ..] => {
            let mut text = String::from_str(alloc, first.as_str())?;
            push_others(&mut text, first, others)?;
            Ok(text)
        }
    }
}

/// No name of the column with this number, from 1, takes its cell.
pub fn column_note(alloc: Global, number: u64, names: &TextList) -> Result<FaultNote, OutOfMemory>
    ensures { IfOk result (λ note. note ≡ column_note number names.now) }
{
    let joined = joined(alloc, names.as_slice())?;
    let mut text = format!(in alloc; "column {number}: ")?;
    text.push_str(joined.as_str())?;
    note(alloc, 4, text.as_str())
}

/// The kind of the field doesn't take its value, or there is no field of this name.
pub fn key_note(alloc: Global, key: &Text) -> Result<FaultNote, OutOfMemory>
    ensures { IfOk result (λ note. note ≡ key_note key.now) }
{
    let mut text = String::from_str(alloc, "key ")?;
    text.push_str(key.as_str())?;
    note(alloc, 4, text.as_str())
}

/// The sieve's action at this offset, in bytes, has a value that its field doesn't take.
pub fn sieve_note(alloc: Global, at: u64) -> Result<FaultNote, OutOfMemory>
    ensures { IfOk result (λ note. note ≡ sieve_note at) }
{
    let text = format!(in alloc; "sieve {at}")?;
    note(alloc, 5, text.as_str())
}

/// The report has no `raw`.
pub fn raw_note(alloc: Global) -> Result<FaultNote, OutOfMemory>
    ensures { IfOk result (λ note. note ≡ raw_note) }
{
    note(alloc, 6, "raw")
}
