//! Bytes in hex, with marks.
use std::alloc::{AllocError, Global};
use table_lines::bytes_of;

/// A length or a number of items in a code: where it stands, and in how many bytes.
#[derive(Clone, Copy)]
pub struct Length {
    pub place: usize,
    pub width: usize,
}

impl Length {
    /// Where what follows it begins.
    pub fn end(&self) -> usize {
        self.place.saturating_add(self.width)
    }
}

/// A code with its lengths.
#[derive(Drop)]
pub struct Marked {
    pub bytes: Vec<u8>,
    pub lengths: Vec<Length>,
}

impl Marked {
    // Appends a part of a text: a length and what stands behind its bracket, or bytes alone. Answers whether all of it is hex.
    fn push(&mut self, alloc: Global, part: &str) -> Result<bool, AllocError> {
        match part.split_once(']') {
            Some((length, rest)) => Ok(
                self.push_length(alloc, length)? && self.push_bytes(alloc, rest)?,
            ),
            None => self.push_bytes(alloc, part),
        }
    }

    fn push_length(&mut self, alloc: Global, text: &str) -> Result<bool, AllocError> {
        let place = self.bytes.len();
        let is_hex = self.push_bytes(alloc, text)?;
        let width = self.bytes.len().saturating_sub(place);
        self.lengths.push(Length { place, width })?;
        Ok(is_hex)
    }

    fn push_bytes(&mut self, alloc: Global, text: &str) -> Result<bool, AllocError> {
        match bytes_of(alloc, text)? {
            Some(bytes) => {
                self.bytes.extend_from_slice(&bytes)?;
                Ok(true)
            }
            None => Ok(false),
        }
    }
}

/// The bytes of a text in hex, in which each length stands in brackets; `None` where it is something else.
pub fn with_marks(alloc: Global, text: &str) -> Result<Option<Marked>, AllocError> {
    let mut code = Marked {
        bytes: Vec::new(alloc),
        lengths: Vec::new(alloc),
    };
    for part in text.split('[') {
        if !code.push(alloc, part)? {
            return Ok(None);
        }
    }
    Ok(Some(code))
}
