use crate::{Blob, Text};

/// A point in time, in seconds since 1970-01-01T00:00:00 UTC.
#[derive(Clone, Copy, Debug, PartialEq, Eq, PartialOrd, Ord)]
pub struct Moment(pub u64);

/// A message with its number, from 1.
#[derive(Debug, Drop, PartialEq, Eq)]
pub struct Msg {
    pub no: u64,
    pub body: Blob,
}

/// Why a message or a part of it couldn't be processed: the code of the cause, and its text.
#[derive(Debug, Drop, PartialEq, Eq)]
pub struct FaultNote {
    pub code: u16,
    pub text: Text,
}
