//! Commands on a store in memory.
ghost use Rattle.std.specs.Prelude.{None};

use crate::pipelines::Files;
use base_types::{Blob, NumberList, OutOfMemory, Text, TextList};
use edge_memory::{MemClock, MemDisk, MemShelf, MemSink};
use edge_traits::{Failed, Gate, Source};
use pipeline_top::{run_pipeline, status_text};
use std::alloc::Global;
use std::mem;
use std::sync::Wait;
use std::test::Fail;
use std::thread::Threads;

// A moment of November 2023.
const NOW: u64 = 1_700_000_000;

// The first output's file.
const FIRST_OUTPUT: u64 = 16;

fn text_of(alloc: Global, word: &str) -> Result<Text, OutOfMemory> {
    Ok(Text::from(String::from_str(alloc, word)?))
}

/// A control that has these lines, or that no read of succeeds.
#[derive(Clone, Copy)]
pub struct Lines {
    pub text: &'static str,
    pub unread: bool,
    pub faults: u64,
}

impl Source for Lines {
    ghost source = { λ lines. record { name = None; told = None; faults = lines.faults } };

    fn read_at(&mut self, at: u64, buf: &mut [u8]) -> Result<usize, Failed> {
        if self.unread {
            self.faults = self.faults.saturating_add(1);
            return Err(Failed);
        }
        let bytes = self.text.as_bytes();
        if at >= bytes.len() as u64 {
            return Ok(0);
        }
        let rest = &bytes[at as usize..];
        let n = rest.len().min(buf.len());
        buf[..n].copy_from_slice(&rest[..n]);
        Ok(n)
    }
}

fn numbers(alloc: Global, number: u64) -> Result<NumberList, Fail> {
    let mut list = NumberList::new(alloc);
    if number > 0 && list.push(number).is_err() {
        return Err(Fail::from("memory"));
    }
    Ok(list)
}

// The words that blanks part.
fn words_of(alloc: Global, line: &str) -> Result<TextList, OutOfMemory> {
    let mut words = TextList::new(alloc);
    for word in line.split(' ') {
        let text = text_of(alloc, word)?;
        if words.push(text).is_err() {
            return Err(OutOfMemory);
        }
    }
    Ok(words)
}

/// A disk on which every file is empty.
pub fn empty_disk(alloc: Global) -> MemDisk {
    MemDisk::new(alloc)
}

/// A shelf with these files.
pub fn shelf_of(alloc: Global, files: Files) -> Result<MemShelf, OutOfMemory> {
    let mut shelf = MemShelf::new(alloc, NumberList::new(alloc));
    for (name, content) in files {
        let name = text_of(alloc, name)?;
        let content = Blob::new(alloc, content.as_bytes())?;
        shelf.put(alloc, &name, &content, NumberList::new(alloc))?;
    }
    Ok(shelf)
}

/// Gives the words to the program, with an empty control. Answers its status, by number, and what it printed, each in a line.
pub fn command<T: Threads + Wait + Sync, G: Gate + Sync>(
    rt: &T,
    alloc: Global,
    line: &str,
    shelf: &mut MemShelf,
    disk: &mut MemDisk,
    gate: &G,
) -> Result<String, Fail> {
    let mut control = Lines {
        text: "",
        unread: false,
        faults: 0,
    };
    controlled(rt, alloc, line, &mut control, shelf, disk, 0, gate)
}

/// The same, with this control, and an output of which the write of this number fails (0: none).
pub fn controlled<T: Threads + Wait + Sync, G: Gate + Sync>(
    rt: &T,
    alloc: Global,
    line: &str,
    control: &mut Lines,
    shelf: &mut MemShelf,
    disk: &mut MemDisk,
    write: u64,
    gate: &G,
) -> Result<String, Fail> {
    let words = words_of(alloc, line)?;
    let mut out = MemSink::new(alloc, numbers(alloc, write)?);
    let number = call(
        rt,
        alloc,
        words.as_slice(),
        control,
        shelf,
        disk,
        &mut out,
        gate,
    );
    told(alloc, number?.as_str(), out.bytes())
}

fn call<T: Threads + Wait + Sync, G: Gate + Sync>(
    rt: &T,
    alloc: Global,
    words: &[Text],
    control: &mut Lines,
    shelf: &mut MemShelf,
    disk: &mut MemDisk,
    out: &mut MemSink,
    gate: &G,
) -> Result<Text, OutOfMemory> {
    let clock = MemClock::new(NOW);
    let taken = mem::replace(disk, empty_disk(alloc));
    let (status, back) = run_pipeline(rt, alloc, words, control, shelf, taken, out, &clock, gate);
    *disk = back;
    status_text(alloc, &status)
}

fn told(alloc: Global, status: &str, printed: &[u8]) -> Result<String, Fail> {
    let printed = String::from_utf8(printed.to_vec(alloc)?)?;
    Ok(format!(in alloc; "{}\n{}", status, printed.as_str())?)
}

/// The lines of the first output.
pub fn output(alloc: Global, disk: &MemDisk) -> Result<Vec<u8>, OutOfMemory> {
    disk.file(alloc, FIRST_OUTPUT)
}
