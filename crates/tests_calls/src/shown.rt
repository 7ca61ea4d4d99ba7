use crate::fixtures::{numbers, sink};
use crate::same::same;
use base_types::Blob;
use edge_memory::{MemDisk, MemSink};
use edge_traits::{Disk, Sink};
use journal_book::Book;
use std::alloc::Global;
use std::process::Abort;
use std::test::Fail;
use step_code::Rules;
use store_commands::{Shown, StoreEnd, show};
use tests_rules::TinyRules;

const LIMIT: u64 = 67_108_864;

// A disk with a new store of the bundle `tiny`.
fn stored<D: Disk + Drop, R: Rules>(alloc: Global, disk: D, rules: R) -> Result<D, Fail> {
    match Book::create(alloc, disk, rules, &Blob::new(alloc, b"tiny")?, LIMIT) {
        Ok(book) => Ok(book.into_disk()),
        Err(_) => Err(Fail::from("no store")),
    }
}

// What a command prints, and how it ends. The disk is let go.
fn shown<D: Disk + Drop, R: Rules, S: Sink>(
    alloc: Global,
    disk: D,
    rules: R,
    what: Shown,
    sink: &mut S,
) -> StoreEnd {
    let (end, _disk) = show(alloc, disk, rules, what, sink);
    end
}

fn store(alloc: Global) -> Result<MemDisk, Fail> {
    stored(alloc, MemDisk::new(alloc), TinyRules)
}

#[test]
fn the_state_of_a_new_store(rt: HostRuntime) -> Result<(), Fail> {
    let alloc = rt.alloc();
    let mut out = sink(alloc);
    let end = shown(alloc, store(alloc)?, TinyRules, Shown::State, &mut out);
    same(&rt, end, StoreEnd::Done);
    same(
        &rt,
        out.bytes(),
        b"steps 0\nbundle 1\nmessages 0\nwaiting 0\nin hand 0\ndumped 0\nprocessed 0\nlines 0\nfeed collect 1 0 going\nout write 0 0\n".as_slice(),
    );
    Ok(())
}

#[test]
fn a_new_store_has_no_dumps(rt: HostRuntime) -> Result<(), Fail> {
    let alloc = rt.alloc();
    let mut out = sink(alloc);
    let end = shown(alloc, store(alloc)?, TinyRules, Shown::Dumps, &mut out);
    same(&rt, end, StoreEnd::Done);
    assert!(rt; out.bytes().is_empty());
    Ok(())
}

#[test]
fn an_empty_disk_is_no_store(rt: HostRuntime) -> Result<(), Fail> {
    let alloc = rt.alloc();
    let mut out = sink(alloc);
    let end = shown(
        alloc,
        MemDisk::new(alloc),
        TinyRules,
        Shown::State,
        &mut out,
    );
    same(&rt, end, StoreEnd::Store { have: 0 });
    assert!(rt; out.bytes().is_empty());
    Ok(())
}

fn damaged<D: Disk>(disk: &mut D) -> Result<(), Fail> {
    match disk.write_at(0, 0, b"x") {
        Ok(()) => Ok(()),
        Err(_) => Err(Fail::from("the disk")),
    }
}

#[test]
fn a_damaged_root_is_told(rt: HostRuntime) -> Result<(), Fail> {
    let alloc = rt.alloc();
    let mut disk = store(alloc)?;
    damaged(&mut disk)?;
    let mut out = sink(alloc);
    let end = shown(alloc, disk, TinyRules, Shown::Dumps, &mut out);
    same(&rt, end, StoreEnd::Damaged { file: 0, at: 0 });
    Ok(())
}

#[test]
fn a_disk_that_fails_is_told(rt: HostRuntime) -> Result<(), Fail> {
    let alloc = rt.alloc();
    let mut disk = store(alloc)?;
    let next = disk.calls().saturating_add(1);
    disk.plan(numbers(alloc, next)?, None);
    let mut out = sink(alloc);
    let end = shown(alloc, disk, TinyRules, Shown::State, &mut out);
    same(&rt, end, StoreEnd::Disk);
    Ok(())
}

#[test]
fn an_output_that_fails_is_told(rt: HostRuntime) -> Result<(), Fail> {
    let alloc = rt.alloc();
    let mut out = MemSink::new(alloc, numbers(alloc, 1)?);
    let end = shown(alloc, store(alloc)?, TinyRules, Shown::State, &mut out);
    same(&rt, end, StoreEnd::Sink);
    Ok(())
}
