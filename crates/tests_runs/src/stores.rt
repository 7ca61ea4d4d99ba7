//! What opening a store of a run finds.

use crate::forty::Mark;
use crate::runs::{Ran, state_behind};
use crate::same::{holds_in, same_in};
use edge_memory::MemDisk;
use std::alloc::Global;
use std::process::Abort;
use std::test::Fail;
use tests_book_fixtures::{Found, GENERATION, ROOT, Seen, found_in, put_file, reopen};
use tests_rules::TinyRules;

/// The two files of a store.
#[derive(Drop)]
pub struct Files {
    pub root: Vec<u8>,
    pub generation: Vec<u8>,
}

pub fn files_of(alloc: Global, disk: &MemDisk) -> Result<Files, Fail> {
    Ok(Files {
        root: disk.file(alloc, ROOT)?,
        generation: disk.file(alloc, GENERATION)?,
    })
}

/// A disk with these two files.
pub fn disk_with(alloc: Global, root: &[u8], generation: &[u8]) -> Result<MemDisk, Fail> {
    let mut disk = MemDisk::new(alloc);
    put_file(&mut disk, ROOT, root)?;
    put_file(&mut disk, GENERATION, generation)?;
    Ok(disk)
}

// The state of a store that opened is the one that the run had behind as many steps, where a mark has that.
fn check_state(rt: &impl Abort, row: &str, marks: &[Mark], seen: &Seen) {
    let Found::Steps(steps) = seen.found else {
        return;
    };
    if let Some(state) = state_behind(marks, steps) {
        same_in(rt, row, seen.state.bytes(), state);
    }
}

/// Opening the store of a disk finds what the recount of its files does: the same damage, or the same front of the steps, and the
/// state that the run had behind them. It writes nothing, and cuts at the most. Answers what it finds.
pub fn check_store(
    rt: &(impl Abort + Alloc<A = Global>),
    row: &str,
    ran: &Ran,
    disk: MemDisk,
) -> Result<Found, Fail> {
    let alloc = rt.alloc();
    let before = files_of(alloc, &disk)?;
    let (seen, disk) = reopen(alloc, disk, TinyRules);
    let seen = seen?;
    check_cut(rt, row, &before, &files_of(alloc, &disk)?);
    let want = found_in(alloc, &before.root, &before.generation, &ran.stored)?;
    check_seen(rt, row, ran, &seen, want);
    Ok(want)
}

fn check_seen(rt: &impl Abort, row: &str, ran: &Ran, seen: &Seen, want: Found) {
    same_in(rt, row, seen.found, want);
    check_state(rt, row, &ran.marks, seen);
}

// The files are as they were, or a front of that.
fn check_cut(rt: &impl Abort, row: &str, before: &Files, after: &Files) {
    holds_in(rt, row, before.root.starts_with(&after.root));
    holds_in(rt, row, before.generation.starts_with(&after.generation));
}
