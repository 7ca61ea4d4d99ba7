//! Texts and values as texts of one line.
use base_types::{OutOfMemory, Text, push_quoted};
use field_types::{Value, push_value};
use std::str;

/// Appends a value as JSON.
pub fn push_json(out: &mut String, value: &Value) -> Result<(), OutOfMemory> {
    let mut text = Vec::new(*out.allocator());
    push_value(&mut text, value)?;
    push_utf8(out, &text)
}

/// Appends bytes that are UTF-8.
pub fn push_utf8(out: &mut String, bytes: &[u8]) -> Result<(), OutOfMemory> {
    match str::from_utf8(bytes) {
        Ok(text) => out.push_str(text)?,
        Err(_) => out.push_str("no UTF-8")?,
    }
    Ok(())
}

/// Appends a text as JSON.
pub fn push_text(out: &mut String, text: &Text) -> Result<(), OutOfMemory> {
    let mut quoted = Vec::new(*out.allocator());
    push_quoted(&mut quoted, text.bytes())?;
    push_utf8(out, &quoted)
}
