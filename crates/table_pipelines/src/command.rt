//! `> WORDS`: a command, its status, and what it prints.
use crate::outside::{Outside, empty_disk, mend_disk, plan_disk, shelf_of, sink_of};
use crate::playing::{play, words_of};
use base_types::{OutOfMemory, Text};
use edge_memory::{MemClock, MemShelf, MemSink};
use std::alloc::Global;
use std::mem;
use table_lines::push_escaped;

/// Up to so many lines, what is printed is shown whole.
const MOST: usize = 20;

/// What a command came to.
#[derive(Drop)]
pub struct Played {
    pub status: String,
    pub out: MemSink,
    pub shelf: MemShelf,
}

/// Gives the words to the program, on the disk. What was to fail in it fails no more after it.
pub fn call(alloc: Global, outside: &mut Outside, words: &[Text]) -> Result<Played, OutOfMemory> {
    let mut shelf = shelf_of(alloc, outside)?;
    let mut out = sink_of(alloc, outside);
    let status = call_with(alloc, outside, words, &mut shelf, &mut out)?;
    Ok(Played { status, out, shelf })
}

fn call_with(
    alloc: Global,
    outside: &mut Outside,
    words: &[Text],
    shelf: &mut MemShelf,
    out: &mut MemSink,
) -> Result<String, OutOfMemory> {
    plan_disk(alloc, outside)?;
    let disk = mem::replace(&mut outside.disk, empty_disk(alloc));
    let clock = MemClock::new(outside.now);
    let (status, disk) = play(alloc, words, shelf, disk, out, &clock);
    outside.disk = disk;
    mend_disk(alloc, outside);
    status
}

/// The status of a command and what it prints.
pub fn command(alloc: Global, outside: &mut Outside, line: &str) -> Result<String, OutOfMemory> {
    let words = words_of(alloc, line)?;
    let played = call(alloc, outside, words.as_slice())?;
    let mut text = String::from_str(alloc, played.status.as_str())?;
    text.push('\n')?;
    push_printed(&mut text, played.out.bytes())?;
    push_faults(&mut text, outside, &played.shelf)?;
    Ok(text)
}

/// The lines of a text, each ended; of many the first and the last, and how many there are.
pub fn push_printed(text: &mut String, printed: &[u8]) -> Result<(), OutOfMemory> {
    let many = lines_in(printed);
    let mut rest = printed;
    for i in 0..many {
        let (line, more) = first_line(rest);
        if many <= MOST || i == 0 || i.saturating_add(1) == many {
            push_line(text, line, line.len() < rest.len())?;
        } else if i == 1 {
            push_gap(text, many, printed.len())?;
        }
        rest = more;
    }
    Ok(())
}

// How many lines there are. The last may have no newline.
fn lines_in(printed: &[u8]) -> usize {
    let ended = printed.iter().filter(|b| **b == b'\n').count();
    if printed.is_empty() || printed.ends_with(b"\n") {
        ended
    } else {
        ended.saturating_add(1)
    }
}

// The first line, and what stands behind its newline.
fn first_line(text: &[u8]) -> (&[u8], &[u8]) {
    let end = match text.iter().position(|b| *b == b'\n') {
        Some(at) => at,
        None => text.len(),
    };
    let (line, more) = text.split_at(end.min(text.len()));
    (line, more.get(1..).unwrap_or(more))
}

fn push_gap(text: &mut String, lines: usize, bytes: usize) -> Result<(), OutOfMemory> {
    write!(text, ".. {lines} lines, {bytes} bytes\n")?;
    Ok(())
}

fn push_line(text: &mut String, line: &[u8], is_ended: bool) -> Result<(), OutOfMemory> {
    push_escaped(text, line)?;
    text.push_str(if is_ended { "\n" } else { " (no newline)\n" })?;
    Ok(())
}

// By how many faults the counts on files rose.
fn push_faults(text: &mut String, outside: &Outside, shelf: &MemShelf) -> Result<(), OutOfMemory> {
    for file in &outside.held {
        push_fault(text, &file.name, shelf.faults(&file.name))?;
    }
    Ok(())
}

fn push_fault(text: &mut String, name: &Text, faults: u64) -> Result<(), OutOfMemory> {
    if faults > 0 {
        write!(text, "faults of {}: {faults}\n", name.as_str())?;
    }
    Ok(())
}
