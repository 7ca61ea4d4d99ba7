ghost use Rattle.std.specs.Prelude.{◌≡◌, Some, IfOk};
ghost use Rattle.status_texts.specs.StatusText.{text_of, why_word, number_of};

use crate::fault::{fault_bot, fault_number};
use base_types::{BotName, OutOfMemory, Text};
use runtime_config::LoadFault;
use std::alloc::Global;
use std::{fmt, str};

/// Why a file wasn't read.
#[derive(Clone, Copy, Debug, PartialEq, Eq)]
pub enum FeedWhy {
    /// The shelf has no file of this name.
    Absent,
    /// The file couldn't be fetched or read.
    Failed,
}

impl fmt::Display for FeedWhy {
    ghost output = { λ why. Some (why_word why) };

    fn fmt<W: fmt::Write>(&self, f: &mut fmt::Formatter<W>) -> fmt::Result {
        match self {
            FeedWhy::Absent => write!(f, "absent"),
            FeedWhy::Failed => write!(f, "failed"),
        }
    }
}

/// How a command ended.
#[derive(Debug, PartialEq, Drop)]
pub enum Status {
    Done,
    /// There was no memory.
    Memory,
    /// The words are no command.
    Words,
    /// The bundle that the words name has this fault, its first.
    Config(LoadFault),
    /// The file of this name, a feed or one of a bundle, wasn't read.
    Feed { name: Text, why: FeedWhy },
    /// The disk failed.
    Disk,
    /// The output failed.
    Sink,
    /// The bytes of this file of the store from this offset on are none that a store has there. Of an output that is
    /// shorter than what is sealed of it the offset is its length.
    Damaged { file: u64, at: u64 },
    /// The call was to end, after so many steps.
    Stopped { steps: u64 },
    /// The codes of a generation's steps would have so many bytes together, above 67,108,864, or that of a state, above
    /// 268,435,456.
    Full { bytes: u64 },
    /// A feed ends at the offset `have`, before its committed position `need`, in bytes.
    Short { have: u64, need: u64 },
    /// The bot gave up on a message, which halts it, and no bot may step.
    Halted { bot: BotName },
    /// The line that begins at the feed offset `at`, in bytes, passes 1,048,576 bytes with its newline. The lines before
    /// it are written. The feed of `convert` counts as a bot of that name.
    LongLine { bot: BotName, at: u64 },
    /// The next line ends behind the feed offset 1,073,741,824. The lines before it are written.
    LongFeed { bot: BotName },
    /// The root of the store has so many bytes: there is none, or one where one is to be made.
    Store { have: u64 },
    /// No dump has this number.
    NoDump { no: u64 },
    /// The step of this number, from 1, is the first that could not be taken where it stands.
    Illegal { step: u64 },
    /// The line, from 1, is no event or report. Those before it are written.
    BadLine { line: u64 },
    /// This number of a step, a message, a dump, a bundle, a generation or an output, or this length, is past the last one.
    Spent { next: u64 },
}

// A bot's name as a text.
fn bot_text(bot: &BotName) -> &str
    ensures { result.now ≡ bot.now }
{
    str::from_utf8(bot.bytes()).unwrap()
}

impl Status {
    /// The number with which the program ends.
    pub fn number(&self) -> u8
        ensures { result ≡ number_of self.now }
    {
        match self {
            Status::Done => 0,
            Status::Memory => 1,
            Status::Words => 2,
            Status::Config(_) => 3,
            Status::Feed { .. } => 4,
            Status::Disk => 5,
            Status::Sink => 6,
            Status::Damaged { .. } => 7,
            Status::Stopped { .. } => 8,
            Status::Full { .. } => 9,
            Status::Short { .. } => 10,
            Status::Halted { .. } => 11,
            Status::LongLine { .. } => 12,
            Status::LongFeed { .. } => 13,
            Status::Store { .. } => 14,
            Status::NoDump { .. } => 15,
            Status::Illegal { .. } => 16,
            Status::BadLine { .. } => 17,
            Status::Spent { .. } => 18,
        }
    }
}

impl fmt::Display for Status {
    ghost output = { λ status. Some (text_of status) };

    fn fmt<W: fmt::Write>(&self, f: &mut fmt::Formatter<W>) -> fmt::Result {
        match self {
            Status::Done => write!(f, "done"),
            Status::Memory => write!(f, "memory"),
            Status::Words => write!(f, "words"),
            Status::Config(fault) => match fault_bot(fault) {
                Some(bot) => write!(f, "config {} {}", fault_number(fault), bot_text(bot)),
                None => write!(f, "config {}", fault_number(fault)),
            },
            Status::Feed { name, why } => write!(f, "feed {} {why}", name.as_str()),
            Status::Disk => write!(f, "disk"),
            Status::Sink => write!(f, "sink"),
            Status::Damaged { file, at } => write!(f, "damaged {file} {at}"),
            Status::Stopped { steps } => write!(f, "stopped {steps}"),
            Status::Full { bytes } => write!(f, "full {bytes}"),
            Status::Short { have, need } => write!(f, "short {have} {need}"),
            Status::Halted { bot } => write!(f, "halted {}", bot_text(bot)),
            Status::LongLine { bot, at } => write!(f, "long line {} {at}", bot_text(bot)),
            Status::LongFeed { bot } => write!(f, "long feed {}", bot_text(bot)),
            Status::Store { have } => write!(f, "store {have}"),
            Status::NoDump { no } => write!(f, "no dump {no}"),
            Status::Illegal { step } => write!(f, "illegal {step}"),
            Status::BadLine { line } => write!(f, "bad line {line}"),
            Status::Spent { next } => write!(f, "spent {next}"),
        }
    }
}

/// The printed text of a status.
pub fn status_text(alloc: Global, status: &Status) -> Result<Text, OutOfMemory>
    ensures { IfOk result (λ text. text ≡ text_of status.now) }
{
    Ok(Text::from(format!(in alloc; "{status}")?))
}
