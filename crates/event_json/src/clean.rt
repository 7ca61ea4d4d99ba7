//! The lenient reading of messages.
ghost use Rattle.std.specs.Prelude.{◌≡◌, ◌++◌, ◌∷◌, [], Ok, Err, IfErr, IfOk, IsErr, MatchResult, OnErr, OnOk, true};
ghost use Rattle.event_model.specs.Lenient.{IsFaultOf};
ghost use Rattle.event_json.specs.Direct.{ended, HasText};
ghost use Rattle.event_text.specs.Lenient.{lenient, PutsText};

use crate::direct::write_text;
use crate::line::Line;
use base_types::OutOfMemory;
use event_model::{Message, ReadFault};
use event_text::{clean_any, write_message};
use json::Scratch;
use simdutf8::compat;
use std::alloc::Global;

// Makes the line the message of bytes of the usual forms, or its text.
fn write_line(
    alloc: Global,
    bytes: &[u8],
    scratch: &mut Scratch,
    line: &mut Line,
) -> Result<bool, OutOfMemory>
    ensures { IfOk result (λ taken. taken ≡ true → HasText (λ message. lenient bytes.now ≡ Ok message) (ended line.new)) }
{
    match compat::from_utf8(bytes) {
        Ok(text) => write_text(alloc, text, scratch, line),
        Err(_) => Ok(false),
    }
}

// The message of the bytes, which the line is, or else its text.
fn message_of(alloc: Global, bytes: &[u8], line: Line) -> Result<Message, ReadFault>
    requires { HasText (λ message. lenient bytes.now ≡ Ok message) (ended line) }
    ensures { MatchResult result (λ message. lenient bytes.now ≡ Ok message) (IsFaultOf (lenient bytes.now)) }
{
    match line.into_message() {
        Some(message) => Ok(message),
        None => clean_any(alloc, bytes),
    }
}

// Puts a text behind `out`.
fn put_behind(out: &mut Vec<u8>, text: &[u8]) -> Result<(), ReadFault>
    ensures text { OnOk result (out.new.items ≡ out.old.items ++ text.now) }
    ensures fault { IsErr result → result ≡ Err ReadFault.OutOfMemory }
    ensures same { OnErr result (out.new.items ≡ out.old.items) }
{
    match out.extend_from_slice(text) {
        Ok(()) => Ok(()),
        Err(_) => Err(ReadFault::OutOfMemory),
    }
}

// Puts a text and its closing brace behind `out`.
fn put_ended(out: &mut Vec<u8>, text: &[u8]) -> Result<(), ReadFault>
    ensures text { OnOk result (out.new.items ≡ out.old.items ++ (text.now ++ 125 ∷ [])) }
    ensures fault { IsErr result → result ≡ Err ReadFault.OutOfMemory }
    ensures same { OnErr result (out.new.items ≡ out.old.items) }
{
    let len = out.len();
    put_behind(out, text)?;
    match out.push(b'}') {
        Ok(()) => Ok(()),
        Err(_) => {
            out.truncate(len);
            Err(ReadFault::OutOfMemory)
        }
    }
}

// Puts the text of the message of any bytes behind `out`.
fn push_any(alloc: Global, bytes: &[u8], out: &mut Vec<u8>) -> Result<(), ReadFault>
    ensures text { OnOk result (PutsText (lenient bytes.now) out.old.items out.new.items) }
    ensures fault { IfErr result (IsFaultOf (lenient bytes.now)) }
    ensures same { OnErr result (out.new.items ≡ out.old.items) }
{
    let message = match clean_any(alloc, bytes) {
        Ok(message) => message,
        Err(fault) => return Err(fault),
    };
    match write_message(alloc, &message) {
        Ok(text) => put_behind(out, text.bytes()),
        Err(OutOfMemory) => Err(ReadFault::OutOfMemory),
    }
}

// Puts the text of the message of the bytes, which the line is, or else that message, behind `out`.
fn push_line(alloc: Global, bytes: &[u8], line: &Line, out: &mut Vec<u8>) -> Result<(), ReadFault>
    requires { HasText (λ message. lenient bytes.now ≡ Ok message) (ended line.now) }
    ensures text { OnOk result (PutsText (lenient bytes.now) out.old.items out.new.items) }
    ensures fault { IfErr result (IsFaultOf (lenient bytes.now)) }
    ensures same { OnErr result (out.new.items ≡ out.old.items) }
{
    match line.text() {
        Some(text) => put_ended(out, text),
        None => push_any(alloc, bytes, out),
    }
}

/// Reads messages leniently, one after the other, in memory that it keeps.
#[derive(Drop)]
pub struct Cleaner {
    scratch: Scratch,
    // The text of the last message.
    line: Line,
}

impl Cleaner {
    /// It takes no memory yet.
    pub fn new(alloc: Global) -> Self {
        Cleaner {
            scratch: Scratch::new(alloc),
            line: Line::of_text(alloc),
        }
    }

    /// Puts the canonical text of a message, as `clean_message` reads it, behind `out`. Where it gives a fault, `out`
    /// stays.
    pub fn push_clean(
        &mut self,
        alloc: Global,
        bytes: &[u8],
        out: &mut Vec<u8>,
    ) -> Result<(), ReadFault>
        ensures text { OnOk result (PutsText (lenient bytes.now) out.old.items out.new.items) }
        ensures fault { IfErr result (IsFaultOf (lenient bytes.now)) }
        ensures same { OnErr result (out.new.items ≡ out.old.items) }
    {
        match write_line(alloc, bytes, &mut self.scratch, &mut self.line) {
            Ok(true) => push_line(alloc, bytes, &self.line, out),
            Ok(false) => push_any(alloc, bytes, out),
            Err(OutOfMemory) => Err(ReadFault::OutOfMemory),
        }
    }

    /// The lenient reading of a message, in which values are stripped and cleaned by the kinds of their fields: 1 `Json`,
    /// 2 `NotObject`, 3 `Kind`, 4 `Field` with the least bad name in byte order.
    pub fn clean_message(&mut self, alloc: Global, bytes: &[u8]) -> Result<Message, ReadFault>
        ensures { MatchResult result (λ message. lenient bytes.now ≡ Ok message) (IsFaultOf (lenient bytes.now)) }
    {
        let mut line = Line::of_message(alloc);
        match write_line(alloc, bytes, &mut self.scratch, &mut line) {
            Ok(true) => message_of(alloc, bytes, line),
            Ok(false) => clean_any(alloc, bytes),
            Err(OutOfMemory) => Err(ReadFault::OutOfMemory),
        }
    }
}

/// The lenient reading of one message, as by a `Cleaner`.
pub fn clean_message(alloc: Global, bytes: &[u8]) -> Result<Message, ReadFault>
    ensures { MatchResult result (λ message. lenient bytes.now ≡ Ok message) (IsFaultOf (lenient bytes.now)) }
{
    Cleaner::new(alloc).clean_message(alloc, bytes)
}
