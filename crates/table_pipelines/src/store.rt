//! What a store has, as commands and its files show it.
use crate::command::call;
use crate::outside::Outside;
use crate::playing::words_of;
use base_types::OutOfMemory;
use std::alloc::Global;
use std::str;

/// The file of the first output, and that of the first generation's steps.
pub const OUT: u64 = 16;

const GENERATION: u64 = 17;

#[derive(Drop)]
pub struct Store {
    /// The number of its steps, `none` where there is no store, or the status that tells why it isn't opened.
    pub steps: String,
    /// The file of its output before a command.
    pub output: Vec<u8>,
    /// The codes of its steps in their records, behind that of its state.
    pub journal: Vec<u8>,
}

/// What the store on the disk has.
pub fn store_of(alloc: Global, outside: &mut Outside) -> Result<Store, OutOfMemory> {
    let output = outside.disk.file(alloc, OUT)?;
    let steps = steps_of(alloc, outside)?;
    let mut journal = outside.disk.file(alloc, GENERATION)?;
    // The gate behind the last record, which a further record opens.
    journal.pop();
    Ok(Store {
        steps,
        output,
        journal,
    })
}

fn steps_of(alloc: Global, outside: &mut Outside) -> Result<String, OutOfMemory> {
    let words = words_of(alloc, "status")?;
    let played = call(alloc, outside, words.as_slice())?;
    steps_text(alloc, played.status.as_str(), played.out.bytes())
}

// By the status of `status` and what it printed.
fn steps_text(alloc: Global, status: &str, printed: &[u8]) -> Result<String, OutOfMemory> {
    Ok(match status {
        "0: done" => String::from_str(alloc, first_number(printed))?,
        "14: store 0" => String::from_str(alloc, "none")?,
        _ => String::from_str(alloc, status)?,
    })
}

// The number in the first line, `steps N`.
fn first_number(printed: &[u8]) -> &str {
    let text = str::from_utf8(printed).unwrap_or("");
    match text.lines().next() {
        Some(line) => line.strip_prefix("steps ").unwrap_or(""),
        None => "",
    }
}

/// What a command prints.
pub fn printed(alloc: Global, outside: &mut Outside, line: &str) -> Result<Vec<u8>, OutOfMemory> {
    let words = words_of(alloc, line)?;
    let played = call(alloc, outside, words.as_slice())?;
    Ok(played.out.bytes().to_vec(alloc)?)
}
