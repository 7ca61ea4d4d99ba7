//! The feeds of a case.

use base_types::{Blob, NumberList, Text};
use edge_memory::MemShelf;
use std::alloc::Global;
use std::test::Fail;
use tests_tables::{number, unreadable};

// It makes a line longer than half of a piece, so that each line is a piece.
const PAD: &str = "----------------------------------";

// The words as lines, so many times, each with its number behind it.
fn lines_of(alloc: Global, words: &str, times: u64) -> Result<String, Fail> {
    let mut feed = String::new(alloc);
    'times: for time in 0..times {
        'words: for word in words.split(' ') {
            writeln!(feed, "{word}{time}{PAD}")?;
        }
    }
    Ok(feed)
}

// The word in front of a blank, and what stands behind that.
fn parted(text: &str) -> Result<(&str, &str), Fail> {
    match text.split_once(' ') {
        Some(parts) => Ok(parts),
        None => Err(unreadable()),
    }
}

/// Puts a feed on the shelf: `NAME TIMES WORD WORD ..`.
pub fn put_feed(alloc: Global, shelf: &mut MemShelf, line: &str) -> Result<(), Fail> {
    let (name, rest) = parted(line)?;
    let (times, words) = parted(rest)?;
    let feed = lines_of(alloc, words, number(times)?)?;
    let name = Text::new(alloc, name.as_bytes())?;
    let feed = Blob::new(alloc, feed.as_bytes())?;
    shelf.put(alloc, &name, &feed, NumberList::new(alloc))?;
    Ok(())
}
