//! Bytes, names, numbers and messages that every layer speaks of.
#![tactic(auto)]

mod digits;
mod json_text;
mod list;
mod memory;
mod message;
mod name;
mod number;
mod plain_runs;
mod scalar;
mod text;

pub use digits::read_digits;
pub use json_text::{flag_word, hex_digit, is_plain, push_flag, push_quoted};
pub use list::{
    BlobList, LineList, ListOf, NamedList, NoteList, NumberList, QueueList, SendList, TextList,
};
pub use memory::OutOfMemory;
pub use message::{FaultNote, Moment, Msg};
pub use name::{BotName, NameFault, QueueName, queue_of};
pub use number::{put_u16, put_u32, put_u64, read_u16, read_u32, read_u64};
pub use plain_runs::{is_plain_text, split_plain_ascii};
pub use scalar::{Bad, ScalarFault};
pub use text::{Blob, Text, TextFault};
