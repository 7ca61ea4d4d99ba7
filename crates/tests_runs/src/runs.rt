//! Runs over a disk in memory.

use crate::forty::{FEED, FORTY, Mark, Part, played};
use crate::same::same;
use base_types::{Blob, NumberList, Text};
use edge_memory::{MemDisk, MemShelf};
use std::alloc::Global;
use std::process::Abort;
use std::test::Fail;
use tests_book_fixtures::{GENERATION, Stored, fail_at, stored_in};
use tests_rules::TinyRules;

/// A run, the disk that it left, and what is stored there.
#[derive(Drop)]
pub struct Ran {
    pub marks: Vec<Mark>,
    pub disk: MemDisk,
    pub stored: Stored,
}

fn feed_shelf(alloc: Global) -> Result<MemShelf, Fail> {
    let mut shelf = MemShelf::new(alloc, NumberList::new(alloc));
    let name = Text::new(alloc, b"feed.csv")?;
    let feed = Blob::new(alloc, FEED)?;
    shelf.put(alloc, &name, &feed, NumberList::new(alloc))?;
    Ok(shelf)
}

// These parts played on a disk, up to the first in which it fails.
fn run(alloc: Global, disk: MemDisk, parts: &[Part]) -> Result<(Vec<Mark>, MemDisk), Fail> {
    let bundle = Blob::new(alloc, b"tiny")?;
    let mut shelf = feed_shelf(alloc)?;
    played(alloc, disk, TinyRules, &bundle, &mut shelf, parts)
}

fn played_whole(alloc: Global, parts: &[Part]) -> Result<Ran, Fail> {
    let (marks, disk) = run(alloc, MemDisk::new(alloc), parts)?;
    let stored = stored_on(alloc, &disk)?;
    Ok(Ran {
        marks,
        disk,
        stored,
    })
}

fn stored_on(alloc: Global, disk: &MemDisk) -> Result<Stored, Fail> {
    stored_in(alloc, &disk.file(alloc, GENERATION)?)
}

/// The run of forty steps on a disk that doesn't fail.
pub fn forty_steps(alloc: Global) -> Result<Ran, Fail> {
    played_whole(alloc, &FORTY)
}

/// A new store.
pub fn no_steps(alloc: Global) -> Result<Ran, Fail> {
    played_whole(alloc, &[])
}

/// The run of forty steps on a disk whose call with this number fails: how far it was then, and the disk.
pub fn failed_run(alloc: Global, call: u64) -> Result<(Mark, MemDisk), Fail> {
    let mut disk = MemDisk::new(alloc);
    fail_at(alloc, &mut disk, call)?;
    let (marks, disk) = run(alloc, disk, &FORTY)?;
    let mut marks = marks;
    let mark = marks.pop().ok_or("a run without a mark")?;
    Ok((mark, disk))
}

/// How many calls the disk had made when the store was made.
pub fn calls_of_making(marks: &[Mark]) -> u64 {
    match marks.first() {
        Some(mark) => mark.calls,
        None => 0,
    }
}

/// The durable steps behind the last mark that isn't behind so many calls, and those behind the next.
pub fn bounds(marks: &[Mark], calls: u64) -> (u64, u64) {
    let mut least = 0;
    'marks: for mark in marks {
        if mark.calls > calls {
            return (least, mark.durable);
        }
        least = mark.durable;
    }
    (least, least)
}

/// The code of the state behind so many steps, where a mark has it.
pub fn state_behind(marks: &[Mark], steps: u64) -> Option<&[u8]> {
    'marks: for mark in marks {
        if mark.committed == steps {
            return Some(mark.state.bytes());
        }
    }
    None
}

#[test]
fn forty_steps_are_of_ten_kinds(rt: HostRuntime) -> Result<(), Fail> {
    let ran = forty_steps(rt.alloc())?;
    same(&rt, ran.stored.steps.len(), 40);
    same(&rt, ran.marks.len(), FORTY.len() + 1);
    assert!(rt; !ran.disk.starved());

    // There is no kind 0.
    let mut kinds = [false; 11];
    'steps: for step in ran.stored.steps.as_slice() {
        if let [kind, ..] = step.bytes() {
            if let Some(known) = kinds.get_mut(*kind as usize) {
                *known = true;
            }
        }
    }
    let all = [
        false, true, true, true, true, true, true, true, true, true, true,
    ];
    same(&rt, kinds.as_slice(), all.as_slice());
    Ok(())
}
