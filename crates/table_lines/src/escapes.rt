//! Bytes as texts of one line.
use crate::hex::digit_of;
use std::alloc::{AllocError, Global};

/// The bytes that a text with escapes stands for. A `\` that begins no escape stands for itself.
pub fn unescaped(alloc: Global, text: &str) -> Result<Vec<u8>, AllocError> {
    let text = text.as_bytes();
    let mut bytes = Vec::new(alloc);
    // How many bytes of an escape are still to come.
    let mut within = 0usize;
    for at in 0..text.len() {
        if within > 0 {
            within -= 1;
            continue;
        }
        let b = text[at];
        let (byte, len) = if b == b'\\' {
            escape(&text[at + 1..])
        } else {
            (b, 0)
        };
        bytes.push(byte)?;
        within = len;
    }
    Ok(bytes)
}

// The byte of an escape, behind its `\`, and how many bytes it has there.
fn escape(more: &[u8]) -> (u8, usize) {
    match more {
        [b'n', ..] => (b'\n', 1),
        [b'r', ..] => (b'\r', 1),
        [b't', ..] => (b'\t', 1),
        [b'\\', ..] => (b'\\', 1),
        [b'x', high, low, ..] => match (digit_of(*high), digit_of(*low)) {
            (Some(high), Some(low)) => (high << 4 | low, 3),
            _ => (b'\\', 0),
        },
        _ => (b'\\', 0),
    }
}

/// Bytes as a text of one line: printable ASCII as it stands, `\` doubled, all else by its escape.
pub fn escaped(alloc: Global, bytes: &[u8]) -> Result<String, AllocError> {
    let mut text = String::new(alloc);
    push_escaped(&mut text, bytes)?;
    Ok(text)
}

/// Appends `escaped(bytes)`.
pub fn push_escaped(text: &mut String, bytes: &[u8]) -> Result<(), AllocError> {
    for b in bytes {
        match *b {
            b'\n' => text.push_str("\\n")?,
            b'\r' => text.push_str("\\r")?,
            b'\t' => text.push_str("\\t")?,
            b'\\' => text.push_str("\\\\")?,
            b' '..=b'~' => text.push(*b as char)?,
            _ => {
                text.push_str("\\x")?;
                text.push(digit(*b >> 4))?;
                text.push(digit(*b & 15))?;
            }
        }
    }
    Ok(())
}

// The hex digit of a number below 16.
fn digit(n: u8) -> char {
    match n {
        0..=9 => (b'0' + n) as char,
        10..=15 => (b'a' + (n - 10)) as char,
        _ => '?',
    }
}
