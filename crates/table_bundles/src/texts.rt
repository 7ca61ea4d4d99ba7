//! Texts of parts of cases, and of what is answered.
use base_types::{Blob, FaultNote, OutOfMemory, QueueName, Text, push_quoted};
use event_model::{Fields, Kind, Message};
use event_text::{clean_any, write_message};
use std::alloc::Global;
use std::str;
use table_lines::unescaped;

/// The bytes of a part with escapes.
pub fn blob_of(alloc: Global, part: &str) -> Result<Blob, OutOfMemory> {
    Ok(Blob::from(unescaped(alloc, part)?))
}

/// The text of a part with escapes. One that isn't UTF-8 counts as want of memory, which ends the program.
pub fn text_of(alloc: Global, part: &str) -> Result<Text, OutOfMemory> {
    match Text::new(alloc, &unescaped(alloc, part)?) {
        Ok(text) => Ok(text),
        Err(_) => Err(OutOfMemory),
    }
}

/// Fields that stand there as an object in JSON. What is none counts as want of memory, which ends the program.
pub fn fields_of(alloc: Global, part: &str) -> Result<Fields, OutOfMemory> {
    match clean_any(alloc, &unescaped(alloc, part)?) {
        Ok(message) => Ok(message.fields),
        Err(_) => Err(OutOfMemory),
    }
}

/// Appends the canonical text of a message.
pub fn push_message(out: &mut String, kind: Kind, fields: Fields) -> Result<(), OutOfMemory> {
    let text = write_message(*out.allocator(), &Message { kind, fields })?;
    push_utf8(out, text.bytes())
}

/// Appends bytes that are UTF-8, as names are and bodies of messages.
pub fn push_utf8(out: &mut String, bytes: &[u8]) -> Result<(), OutOfMemory> {
    match str::from_utf8(bytes) {
        Ok(text) => out.push_str(text)?,
        Err(_) => out.push_str("no UTF-8")?,
    }
    Ok(())
}

/// Appends a text as JSON.
pub fn push_text(out: &mut String, text: &Text) -> Result<(), OutOfMemory> {
    let mut quoted = Vec::new(*out.allocator());
    push_quoted(&mut quoted, text.bytes())?;
    push_utf8(out, &quoted)
}

/// Appends the names of queues, each behind a blank.
pub fn push_queues(out: &mut String, queues: &[QueueName]) -> Result<(), OutOfMemory> {
    for queue in queues {
        out.push_str(" ")?;
        push_utf8(out, queue.bytes())?;
    }
    Ok(())
}

/// Appends the code and the text of a note.
pub fn push_note(out: &mut String, note: &FaultNote) -> Result<(), OutOfMemory> {
    let code = note.code;
    let text = note.text.as_str();
    write!(out, "{code} {text}")?;
    Ok(())
}
