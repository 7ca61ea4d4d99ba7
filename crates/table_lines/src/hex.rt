//! Bytes in hex.
use std::alloc::{AllocError, Global};

/// The bytes of hex digits in words of whole bytes, with blanks between words; `None` where a text is something else.
pub fn bytes_of(alloc: Global, text: &str) -> Result<Option<Vec<u8>>, AllocError> {
    let mut bytes = Vec::new(alloc);
    let mut high = None;
    for b in text.bytes() {
        let Some(digit) = digit_of(b) else {
            if b == b' ' && high.is_none() {
                continue;
            }
            return Ok(None);
        };
        match high {
            None => high = Some(digit),
            Some(first) => {
                bytes.push(first << 4 | digit)?;
                high = None;
            }
        }
    }
    Ok(if high.is_none() { Some(bytes) } else { None })
}

/// The number of a hex digit in lower case.
pub(crate) fn digit_of(b: u8) -> Option<u8> {
    match b {
        b'0'..=b'9' => Some(b - b'0'),
        b'a'..=b'f' => Some(b - b'a' + 10),
        _ => None,
    }
}
