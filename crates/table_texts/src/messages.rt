//! Messages and their texts.
use crate::inputs::push_repeated;
use base_types::OutOfMemory;
use event_json::{Cleaner, clean_message};
use event_model::{Message, ReadFault};
use event_text::{clean_any, read_message, write_message};
use std::alloc::Global;
use table_lines::{escaped, push_escaped};

// The text of a message that was read, or a word for the fault.
fn text_of(alloc: Global, read: &Result<Message, ReadFault>) -> Result<Vec<u8>, OutOfMemory> {
    match read {
        Ok(message) => Ok(write_message(alloc, message)?.bytes().to_vec(alloc)?),
        Err(fault) => word_of(alloc, fault),
    }
}

fn word_of(alloc: Global, fault: &ReadFault) -> Result<Vec<u8>, OutOfMemory> {
    let word: &[u8] = match fault {
        ReadFault::Json => b"json",
        ReadFault::NotObject => b"no object",
        ReadFault::Kind => b"kind",
        ReadFault::Spelling => b"spelling",
        ReadFault::Field { key } => return name_of(alloc, key.bytes()),
        ReadFault::OutOfMemory => return Err(OutOfMemory),
    };
    Ok(word.to_vec(alloc)?)
}

fn name_of(alloc: Global, key: &[u8]) -> Result<Vec<u8>, OutOfMemory> {
    let mut word = b"field ".to_vec(alloc)?;
    word.extend_from_slice(key)?;
    Ok(word)
}

/// The lenient reading of a line: the text of its message, or the fault. In further lines what is read by a cleaner that has read other
/// lines, by a tree, and from the text itself, if they are others.
pub fn lenient(alloc: Global, cleaner: &mut Cleaner, line: &[u8]) -> Result<String, OutOfMemory> {
    let text = text_of(alloc, &clean_message(alloc, line))?;
    let mut answer = escaped(alloc, &text)?;
    push_other(&mut answer, "pushed", &text, &pushed(alloc, cleaner, line)?)?;
    push_other(
        &mut answer,
        "by a tree",
        &text,
        &text_of(alloc, &clean_any(alloc, line))?,
    )?;
    if text.first() == Some(&b'{') {
        let back = text_of(alloc, &read_message(alloc, &text))?;
        push_other(&mut answer, "read back", &text, &back)?;
    }
    Ok(answer)
}

// What stands behind a text once a line was read: the text of its message, or nothing, and the fault.
fn pushed(alloc: Global, cleaner: &mut Cleaner, line: &[u8]) -> Result<Vec<u8>, OutOfMemory> {
    let mut out = b"> ".to_vec(alloc)?;
    if let Err(fault) = cleaner.push_clean(alloc, line, &mut out) {
        out.extend_from_slice(&word_of(alloc, &fault)?)?;
    }
    Ok(out.strip_prefix(b"> ").unwrap_or(b"").to_vec(alloc)?)
}

fn push_other(
    answer: &mut String,
    way: &str,
    text: &[u8],
    other: &[u8],
) -> Result<(), OutOfMemory> {
    if other != text {
        answer.push_str("\n")?;
        answer.push_str(way)?;
        answer.push_str(" ")?;
        push_escaped(answer, other)?;
    }
    Ok(())
}

/// The strict reading of a line: `again` where the text of its message is the line, else that text, or the fault. Of a message in
/// another spelling its text stands in a further line.
pub fn strict(alloc: Global, line: &[u8]) -> Result<String, OutOfMemory> {
    let text = text_of(alloc, &read_message(alloc, line))?;
    if text.as_slice() == line {
        return Ok(String::from_str(alloc, "again")?);
    }
    let mut answer = escaped(alloc, &text)?;
    if text.as_slice() == b"spelling".as_slice() {
        answer.push_str("\n")?;
        push_escaped(&mut answer, &text_of(alloc, &clean_message(alloc, line))?)?;
    }
    Ok(answer)
}

/// How many fields are read leniently from a line, or how long the bad name is; in a further line the same by a tree, if it is another.
pub fn count(alloc: Global, line: &[u8]) -> Result<String, OutOfMemory> {
    let mut answer = count_of(alloc, &clean_message(alloc, line))?;
    let other = count_of(alloc, &clean_any(alloc, line))?;
    if other != answer {
        answer.push_str("\nby a tree ")?;
        answer.push_str(other.as_str())?;
    }
    Ok(answer)
}

fn count_of(alloc: Global, read: &Result<Message, ReadFault>) -> Result<String, OutOfMemory> {
    match read {
        Ok(message) => {
            let count = message.fields.pairs().len();
            Ok(format!(in alloc; "{count} fields")?)
        }
        Err(ReadFault::Field { key }) => {
            let len = key.bytes().len();
            Ok(format!(in alloc; "a bad name of {len} bytes")?)
        }
        Err(fault) => Ok(escaped(alloc, &word_of(alloc, fault)?)?),
    }
}

/// The same by a tree alone, of a binary tree of objects, so many levels deep, under one name of so many bytes, with a leaf. In byte
/// order of the keys its leaves come in falling order of their names.
pub fn falling(alloc: Global, text: &str) -> Result<String, OutOfMemory> {
    let mut parts = text.split(" | ");
    match (parts.next(), parts.next(), parts.next()) {
        (Some(levels), Some(name), Some(leaf)) => match (levels.parse(), name.parse()) {
            (Ok(levels), Ok(name)) => {
                let line = falling_line(alloc, levels, name, leaf)?;
                count_of(alloc, &clean_any(alloc, &line))
            }
            _ => Ok(String::from_str(alloc, "no number")?),
        },
        _ => Ok(String::from_str(alloc, "no tree")?),
    }
}

fn falling_line(alloc: Global, levels: u64, name: u64, leaf: &str) -> Result<Vec<u8>, OutOfMemory> {
    let mut tree = format!(in alloc; "{{\"a\":{leaf}}}")?;
    for _ in 0..levels {
        tree = format!(in alloc; "{{\"\":{tree},\"!\":{tree}}}")?;
    }
    let mut line = b"{\"extra\":{\"".to_vec(alloc)?;
    push_repeated(&mut line, name, b"n")?;
    line.extend_from_slice(b"\":")?;
    line.extend_from_slice(tree.as_bytes())?;
    line.extend_from_slice(b"}}")?;
    Ok(line)
}
