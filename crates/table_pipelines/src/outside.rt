//! The outside of the program, in memory: files on a shelf, a disk, a clock, and which of their calls are to fail.
use base_types::{Blob, NumberList, OutOfMemory, Text};
use edge_memory::{MemDisk, MemShelf, MemSink};
use std::alloc::Global;
use std::mem;

/// A moment of November 2023.
const NOW: u64 = 1_700_000_000;

/// A file on the shelf.
#[derive(Drop)]
pub struct Held {
    pub name: Text,
    pub content: Blob,
    /// The reads, by number, that are to fail when the next command fetches it first.
    pub reads: NumberList,
}

/// Which calls are to fail in the next command, by their numbers from 1 in it.
#[derive(Drop)]
pub struct Trouble {
    pub fetches: NumberList,
    pub writes: NumberList,
    pub calls: NumberList,
    /// The disk stops after so many calls.
    pub stop: Option<u64>,
}

/// What a script has made so far. The disks stand here, so that no other value has to be let go with one.
#[derive(Drop)]
pub struct Outside {
    pub held: Vec<Held>,
    /// The disk that commands are given.
    pub disk: MemDisk,
    /// The disk as it was when the script said `keep`.
    pub kept: MemDisk,
    /// The disk on which `each-call` tries its command.
    pub start: MemDisk,
    /// The disk as a command in trouble left it.
    pub left: MemDisk,
    pub now: u64,
    pub trouble: Trouble,
}

impl Outside {
    /// An empty shelf and an empty disk.
    pub fn new(alloc: Global) -> Outside {
        Outside {
            held: Vec::new(alloc),
            disk: empty_disk(alloc),
            kept: empty_disk(alloc),
            start: empty_disk(alloc),
            left: empty_disk(alloc),
            now: NOW,
            trouble: no_trouble(alloc),
        }
    }
}

/// A disk on which every file is empty. It stands in a function of its own, so that no proof reads what `MemDisk::new` promises.
pub fn empty_disk(alloc: Global) -> MemDisk {
    MemDisk::new(alloc)
}

fn no_trouble(alloc: Global) -> Trouble {
    Trouble {
        fetches: NumberList::new(alloc),
        writes: NumberList::new(alloc),
        calls: NumberList::new(alloc),
        stop: None,
    }
}

/// A shelf with the files, whose calls fail as the script has it.
pub fn shelf_of(alloc: Global, outside: &mut Outside) -> Result<MemShelf, OutOfMemory> {
    let mut shelf = MemShelf::new(alloc, taken(alloc, &mut outside.trouble.fetches));
    for file in outside.held.as_mut_slice() {
        let reads = taken(alloc, &mut file.reads);
        shelf.put(alloc, &file.name, &file.content, reads)?;
    }
    Ok(shelf)
}

/// A sink whose writes fail as the script has it.
pub fn sink_of(alloc: Global, outside: &mut Outside) -> MemSink {
    MemSink::new(alloc, taken(alloc, &mut outside.trouble.writes))
}

/// Has the disk fail as the script has it, from its next call on.
pub fn plan_disk(alloc: Global, outside: &mut Outside) -> Result<(), OutOfMemory> {
    let made = outside.disk.calls();
    let mut fail = NumberList::new(alloc);
    for call in taken(alloc, &mut outside.trouble.calls).as_slice() {
        push_number(&mut fail, made.saturating_add(*call))?;
    }
    let stop = match outside.trouble.stop {
        Some(calls) => Some(made.saturating_add(calls)),
        None => None,
    };
    outside.trouble.stop = None;
    outside.disk.plan(fail, stop);
    Ok(())
}

/// Has the disk fail no more.
pub fn mend_disk(alloc: Global, outside: &mut Outside) {
    outside.disk.plan(NumberList::new(alloc), None);
}

fn taken(alloc: Global, list: &mut NumberList) -> NumberList {
    mem::replace(list, NumberList::new(alloc))
}

pub fn push_number(list: &mut NumberList, number: u64) -> Result<(), OutOfMemory> {
    match list.push(number) {
        Ok(()) => Ok(()),
        Err(_) => Err(OutOfMemory),
    }
}
