//! The strict reading of messages.
ghost use Rattle.std.specs.Prelude.{◌≡◌, ◌≢◌, ◌++◌, List, ℕ, Some, IfOk, IfErr, IfSome, MatchOption};
ghost use Rattle.event_model.specs.declared.message.Kind.{Kind as AnyKind};
ghost use Rattle.event_model.specs.declared.message.Message.{Message as AnyMessage};
ghost use Rattle.event_text.specs.Decode.{opening};
ghost use Rattle.event_text.specs.Exact.{strict};
ghost use Rattle.event_text.specs.Strict.{IsStrictFault, IsTextOf};

use crate::pairs::fields_at;
use crate::tree::clean_any;
use crate::write::opening;
use base_types::OutOfMemory;
use event_model::{Kind, Message, ReadFault};
use std::alloc::Global;

// What is behind the front.
fn behind<'a>(front: &[u8], text: &'a [u8]) -> Option<&'a [u8]>
    ensures { MatchOption result ((rest : List ℕ) → text.now ≢ front.now ++ rest) (λ rest. text.now ≡ front.now ++ rest.now) }
{
    text.strip_prefix(front)
}

// The kind that the text of a message opens with, and what is behind the opening.
fn kind_at(text: &[u8]) -> Option<(Kind, &[u8])>
    ensures { MatchOption result ((kind : AnyKind) (rest : List ℕ) → text.now ≢ opening kind ++ rest) (λ at. text.now ≡ opening at.0 ++ at.1.now) }
{
    if let Some(rest) = behind(opening(Kind::Event), text) {
        return Some((Kind::Event, rest));
    }
    match behind(opening(Kind::Report), text) {
        Some(rest) => Some((Kind::Report, rest)),
        None => None,
    }
}

/// The message whose canonical text the bytes are, if they are one's.
pub fn message_in(alloc: Global, bytes: &[u8]) -> Result<Option<Message>, OutOfMemory>
    ensures sound { IfOk result (λ found. IfSome found (IsTextOf bytes.now)) }
    ensures complete { (message : AnyMessage) → IsTextOf bytes.now message → IfOk result (λ found. found ≡ Some message) }
    ensures exact { IfOk result (λ found. found ≡ strict bytes.now) }
{
    let Some((kind, text)) = kind_at(bytes) else {
        return Ok(None);
    };
    match fields_at(alloc, text)? {
        Some(fields) => Ok(Some(Message { kind, fields })),
        None => Ok(None),
    }
}

/// The strict reading of a message: the one whose canonical text the bytes are. Of other bytes it answers the fault of
/// the lenient reading, or `Spelling` where that has none: the bytes are a message, and not as it is written.
pub fn read_message(alloc: Global, bytes: &[u8]) -> Result<Message, ReadFault>
    ensures read { IfOk result (IsTextOf bytes.now) }
    ensures only { (message : AnyMessage) → IsTextOf bytes.now message → IfOk result (λ read. read ≡ message) }
    ensures fault { IfErr result (IsStrictFault bytes.now) }
{
    match message_in(alloc, bytes) {
        Ok(Some(message)) => Ok(message),
        Ok(None) => match clean_any(alloc, bytes) {
            Ok(_) => Err(ReadFault::Spelling),
            Err(fault) => Err(fault),
        },
        Err(OutOfMemory) => Err(ReadFault::OutOfMemory),
    }
}
