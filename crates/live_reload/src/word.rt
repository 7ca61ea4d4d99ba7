//! The words with which lines of control are answered.
ghost use Rattle.std.specs.Prelude.{◌≡◌, Some, IfOk};
ghost use Rattle.live_reload.specs.Answers.{answer_text, word_text};

use base_types::{OutOfMemory, Text};
use std::alloc::Global;
use std::fmt;

/// How a line of control is answered.
#[derive(Clone, Copy, Debug, PartialEq, Eq)]
pub enum Word {
    /// The bundle loads, and is to be put in force.
    Reload,
    Round,
    Stop,
    /// The line asks for nothing.
    Bad,
    /// The shelf has no file of the bundle's name, or of one that it names.
    Absent,
    /// One of these files couldn't be fetched or read.
    Failed,
    /// The bundle has the fault of this number, its first.
    Config(u8),
}

impl fmt::Display for Word {
    ghost output = { λ word. Some (word_text word) };

    fn fmt<W: fmt::Write>(&self, f: &mut fmt::Formatter<W>) -> fmt::Result {
        match self {
            Word::Reload => write!(f, "reload"),
            Word::Round => write!(f, "round"),
            Word::Stop => write!(f, "stop"),
            Word::Bad => write!(f, "bad"),
            Word::Absent => write!(f, "absent"),
            Word::Failed => write!(f, "failed"),
            Word::Config(number) => write!(f, "config {number}"),
        }
    }
}

/// The answer to the line of this number, from 1.
pub(crate) fn answer_text(alloc: Global, number: u64, word: Word) -> Result<Text, OutOfMemory>
    ensures { IfOk result (λ text. text ≡ answer_text number word) }
{
    Ok(Text::from(format!(in alloc; "control {number} {word}\n")?))
}
