//! Parts of cases, and events as texts.
use crate::texts::push_utf8;
use base_types::OutOfMemory;
use event_model::{Fields, Kind, Message};
use event_text::{clean_any, write_message};
use std::alloc::Global;

/// What stands before the first ` | ` of a case, and what behind it.
pub fn parts_of(case: &str) -> (&str, &str) {
    case.split_once(" | ").unwrap_or((case, ""))
}

/// The fields of an event that stands there in any form of JSON. What is none counts as want of memory, which ends the program.
pub fn fields_of(alloc: Global, text: &str) -> Result<Fields, OutOfMemory> {
    match clean_any(alloc, text.as_bytes()) {
        Ok(message) => Ok(message.fields),
        Err(_) => Err(OutOfMemory),
    }
}

/// The canonical text of the event with these fields.
pub fn event_text(alloc: Global, fields: Fields) -> Result<String, OutOfMemory> {
    let text = write_message(
        alloc,
        &Message {
            kind: Kind::Event,
            fields,
        },
    )?;
    let mut out = String::new(alloc);
    push_utf8(&mut out, text.bytes())?;
    Ok(out)
}
