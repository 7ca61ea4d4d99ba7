//! Words of tables.

use base_types::{Blob, BotName, FaultNote, ListOf, Msg, QueueName, Text};
use std::alloc::Global;
use std::test::Fail;

/// The answer to a row that can't be read.
pub fn unreadable() -> Fail {
    Fail::from("a row that can't be read")
}

/// The words of a text, without colons and commas behind them.
pub fn words(alloc: Global, text: &str) -> Result<Vec<&str>, Fail> {
    let mut words = Vec::new(alloc);
    for word in text.split(' ') {
        let word = word.trim_end_matches(':').trim_end_matches(',');
        if !word.is_empty() {
            words.push(word)?;
        }
    }
    Ok(words)
}

pub fn push<T: Drop>(list: &mut ListOf<T>, item: T) -> Result<(), Fail> {
    match list.push(item) {
        Ok(()) => Ok(()),
        Err(_) => Err(Fail::from("memory")),
    }
}

pub fn number(word: &str) -> Result<u64, Fail> {
    match word.parse() {
        Ok(number) => Ok(number),
        Err(_) => Err(unreadable()),
    }
}

pub fn small(word: &str) -> Result<u32, Fail> {
    match word.parse() {
        Ok(number) => Ok(number),
        Err(_) => Err(unreadable()),
    }
}

pub fn instance(word: &str) -> Result<u8, Fail> {
    match word.parse() {
        Ok(number) => Ok(number),
        Err(_) => Err(unreadable()),
    }
}

pub fn bot(word: &str) -> Result<BotName, Fail> {
    Ok(BotName::new(word.as_bytes())?)
}

pub fn queue(word: &str) -> Result<QueueName, Fail> {
    Ok(QueueName::new(word.as_bytes())?)
}

/// The bytes of a word, and for `*9` nine bytes.
pub fn blob(alloc: Global, word: &str) -> Result<Blob, Fail> {
    match word.strip_prefix('*') {
        Some(count) => Ok(Blob::from(vec![in alloc; b'a'; number(count)? as usize]?)),
        None => Ok(Blob::new(alloc, word.as_bytes())?),
    }
}

/// A message, as `5=body`.
pub fn message(alloc: Global, word: &str) -> Result<Msg, Fail> {
    let Some((no, body)) = word.split_once('=') else {
        return Err(unreadable());
    };
    Ok(Msg {
        no: number(no)?,
        body: blob(alloc, body)?,
    })
}

/// The note of all faults in tables.
pub fn note(alloc: Global) -> Result<FaultNote, Fail> {
    Ok(FaultNote {
        code: 7,
        text: Text::new(alloc, b"bad")?,
    })
}
