ghost use Rattle.std.specs.Prelude.{◌≡◌, ◌+◌, ◌<◌, ◌≤◌, ◌^◌, ℕ, length, None, IfOk, IfSome, OnOk, Result};
ghost use Rattle.event_model.specs.Lenient.{IsFaultOf};
ghost use Rattle.event_model.specs.declared.fault.ReadFault.{ReadFault};
ghost use Rattle.event_model.specs.declared.message.Message.{Message};
ghost use Rattle.report_cut.specs.Pieces.{longest_line};
ghost use Rattle.pipeline_top.specs.Convert.{refused, line_of, line_of_reading, read_line, convert_bot, behind_line, IsLineEnd};
ghost use Rattle.pipeline_top.specs.Line.{PutLine};
ghost use Rattle.step_code.specs.Content.{longest_feed};
ghost use Rattle.status_texts.specs.declared.status.Status.TheVariants as status;

use crate::Status;
use crate::buffer::Buffer;
use base_types::{BotName, OutOfMemory};
use event_json::Cleaner;
use event_model::ReadFault;
use report_cut::without_newline;
use std::alloc::Global;
use step_code::LONGEST_FEED;

/// Where a line stands in a feed.
#[derive(Clone, Copy, Debug, PartialEq, Eq)]
pub struct Place {
    /// Its number, from 1.
    pub number: u64,
    /// The feed offset where it begins, in bytes.
    pub at: u64,
}

impl Place {
    /// Where the line behind this one stands, which has its newline.
    pub fn behind(self, line: &[u8]) -> Place
        requires number { self.number < 2 ^ 63 }
        requires at { self.at < 2 ^ 63 }
        ensures { result ≡ behind_line self line.now }
    {
        Place {
            number: self.number + 1,
            at: self.at + line.len() as u64,
        }
    }
}

/// The bot for which the feed of `convert` counts.
pub fn convert_bot() -> BotName
    ensures { result ≡ convert_bot }
{
    BotName::new(b"convert").unwrap()
}

/// Puts the text of a line's message and a newline into the buffer, and nothing for an empty line. Answers why the line
/// is refused, if it is. Without memory, some of the text may be there.
pub fn put_converted(
    alloc: Global,
    cleaner: &mut Cleaner,
    place: Place,
    line: &[u8],
    buffer: &mut Buffer,
) -> Result<Option<Status>, OutOfMemory>
    requires near { place.at < 2 ^ 63 }
    requires short { length line.now ≤ longest_line }
    ensures put { IfOk result (PutLine (line_of place line.now) buffer.old buffer.new) }
    ensures ends { IfOk result (λ end. IfSome end IsLineEnd) }
    ensures near { IfOk result (λ end. end ≡ None → place.at + length line.now ≤ longest_feed) }
{
    if place.at + line.len() as u64 > LONGEST_FEED {
        return Ok(Some(Status::LongFeed { bot: convert_bot() }));
    }
    put_read(alloc, cleaner, place.number, without_newline(line), buffer)
}

// The same of a line without its newline that ends near enough.
fn put_read(
    alloc: Global,
    cleaner: &mut Cleaner,
    number: u64,
    line: &[u8],
    buffer: &mut Buffer,
) -> Result<Option<Status>, OutOfMemory>
    ensures put { IfOk result (PutLine (read_line number line.now) buffer.old buffer.new) }
    ensures ends { IfOk result (λ end. IfSome end IsLineEnd) }
{
    if line.is_empty() {
        return Ok(None);
    }
    match buffer.put_clean(alloc, cleaner, line) {
        Ok(()) => {
            buffer.end_line()?;
            Ok(None)
        }
        Err(fault) => {
            want_of_memory(fault)?;
            Ok(Some(Status::BadLine { line: number }))
        }
    }
}

// Want of memory is no fault of the line. With any other fault the line is bad.
fn want_of_memory(fault: ReadFault) -> Result<(), OutOfMemory>
    ensures { OnOk result ((number : ℕ) (reading : Result Message ReadFault) → IsFaultOf reading fault → line_of_reading number reading ≡ refused (status.BadLine number)) }
{
    match fault {
        ReadFault::OutOfMemory => Err(OutOfMemory),
        _ => Ok(()),
    }
}
