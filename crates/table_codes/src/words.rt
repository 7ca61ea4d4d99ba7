//! A text that is written word by word.
use base_types::{FaultNote, Moment, Msg};
use std::alloc::{AllocError, Global};
use table_lines::push_escaped;

/// Words with a blank between two of them.
#[derive(Drop)]
pub struct Words {
    text: String,
}

impl Words {
    pub fn new(alloc: Global) -> Words {
        Words {
            text: String::new(alloc),
        }
    }

    pub fn into_text(self) -> String {
        self.text
    }

    pub fn word(&mut self, word: &str) -> Result<(), AllocError> {
        if !self.text.is_empty() {
            self.text.push(' ')?;
        }
        self.text.push_str(word)
    }

    /// A name and a number.
    pub fn number(&mut self, alloc: Global, name: &str, number: u64) -> Result<(), AllocError> {
        self.word(name)?;
        self.word(number.to_string(alloc)?.as_str())
    }

    /// A name and bytes in quotation marks.
    pub fn bytes(&mut self, name: &str, bytes: &[u8]) -> Result<(), AllocError> {
        self.word(name)?;
        self.quoted(bytes)
    }

    /// Bytes in quotation marks.
    pub fn quoted(&mut self, bytes: &[u8]) -> Result<(), AllocError> {
        self.word("\"")?;
        push_escaped(&mut self.text, bytes)?;
        self.text.push('"')
    }

    pub fn moment(&mut self, alloc: Global, name: &str, moment: Moment) -> Result<(), AllocError> {
        self.number(alloc, name, moment.0)
    }

    /// A message's number and body.
    pub fn message(&mut self, alloc: Global, message: &Msg) -> Result<(), AllocError> {
        self.number(alloc, "message", message.no)?;
        self.quoted(message.body.bytes())
    }

    /// A fault's number and text.
    pub fn note(&mut self, alloc: Global, note: &FaultNote) -> Result<(), AllocError> {
        self.number(alloc, "note", u64::from(note.code))?;
        self.quoted(note.text.bytes())
    }
}
