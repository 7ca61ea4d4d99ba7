//! Commands: words are given to the program, and its status becomes a text.
use base_types::{OutOfMemory, Text, TextList};
use edge_traits::{Clock, Disk, Shelf, Sink};
use pipeline_top::{Status, run_tool, status_text};
use std::alloc::Global;

/// The words that blanks part. The word `""` is the empty one.
pub fn words_of(alloc: Global, line: &str) -> Result<TextList, OutOfMemory> {
    let mut words = TextList::new(alloc);
    for word in line.split(' ') {
        let text = match word {
            "" => continue,
            "\"\"" => text_of(alloc, "")?,
            _ => text_of(alloc, word)?,
        };
        if words.push(text).is_err() {
            return Err(OutOfMemory);
        }
    }
    Ok(words)
}

pub fn text_of(alloc: Global, word: &str) -> Result<Text, OutOfMemory> {
    Ok(Text::from(String::from_str(alloc, word)?))
}

/// Gives the words to the program, and answers the number and the text of the status. The disk comes back.
pub fn play<H: Shelf, D: Disk, S: Sink, C: Clock>(
    alloc: Global,
    words: &[Text],
    shelf: &mut H,
    disk: D,
    out: &mut S,
    clock: &C,
) -> (Result<String, OutOfMemory>, D) {
    let (status, disk) = run_tool(alloc, words, shelf, disk, out, clock);
    (status_line(alloc, &status), disk)
}

fn status_line(alloc: Global, status: &Status) -> Result<String, OutOfMemory> {
    let text = status_text(alloc, status)?;
    Ok(format!(in alloc; "{}: {}", status.number(), text.as_str())?)
}
