use crate::fixtures::{numbers, sink, store_of};
use crate::same::{holds_in, same};
use base_types::NumberList;
use edge_memory::MemDisk;
use std::alloc::Global;
use std::process::Abort;
use std::test::Fail;
use store_commands::{Shown, StoreEnd, redo, show};
use tests_rules::TinyRules;

// A store of which one message was put aside.
const DUMPED: &str =
    "9 steps, next 3 2, at 100, 1 tiny; parse-queue: 2=b; dump 1 of parse: 1=?x, 7 bad, at 100; out write 0 0:; feed collect 1 3 finished";

#[test]
fn a_dump_is_redone_once(rt: HostRuntime) -> Result<(), Fail> {
    let alloc = rt.alloc();
    let mut out = sink(alloc);
    let (end, disk) = redo(alloc, store_of(alloc, DUMPED)?, TinyRules, 1, 200, &mut out);
    same(&rt, end, StoreEnd::Done);
    same(
        &rt,
        out.bytes(),
        b"steps 10\nbundle 1\nmessages 2\nwaiting 2\nin hand 0\ndumped 0\nprocessed 0\nlines 0\n".as_slice(),
    );

    let mut out = sink(alloc);
    let (end, disk) = redo(alloc, disk, TinyRules, 1, 200, &mut out);
    same(&rt, end, StoreEnd::NoDump { no: 1 });
    assert!(rt; out.bytes().is_empty());

    // The step is kept.
    let mut out = sink(alloc);
    let (end, _disk) = show(alloc, disk, TinyRules, Shown::State, &mut out);
    same(&rt, end, StoreEnd::Done);
    assert!(rt;
        out.bytes().ends_with(b"queue parse-queue 2\nfeed collect 1 3 finished\nout write 0 0\n")
    );
    Ok(())
}

#[test]
fn another_dump_is_not_there(rt: HostRuntime) -> Result<(), Fail> {
    let alloc = rt.alloc();
    let (end, _disk) = redo(
        alloc,
        store_of(alloc, DUMPED)?,
        TinyRules,
        2,
        200,
        &mut sink(alloc),
    );
    same(&rt, end, StoreEnd::NoDump { no: 2 });
    Ok(())
}

#[test]
fn a_disk_without_a_store_has_no_dump(rt: HostRuntime) -> Result<(), Fail> {
    let alloc = rt.alloc();
    let (end, _disk) = redo(
        alloc,
        MemDisk::new(alloc),
        TinyRules,
        1,
        200,
        &mut sink(alloc),
    );
    same(&rt, end, StoreEnd::Store { have: 0 });
    Ok(())
}

// The calls of the disk of a redo, failing one by one: the step is there afterwards, or the dump is.
#[test]
fn a_disk_that_fails_leaves_the_dump_or_its_step(rt: HostRuntime) -> Result<(), Fail> {
    let alloc = rt.alloc();
    let made = store_of(alloc, DUMPED)?.calls();
    for call in 1..=20u64 {
        let failing = numbers(alloc, made.saturating_add(call))?;
        let mut disk = store_of(alloc, DUMPED)?;
        disk.plan(failing, None);
        let (end, mut disk) = redo(alloc, disk, TinyRules, 1, 200, &mut sink(alloc));
        disk.plan(NumberList::new(alloc), None);
        let (again, _disk) = redo(alloc, disk, TinyRules, 1, 200, &mut sink(alloc));
        let left = again == StoreEnd::Done || again == StoreEnd::NoDump { no: 1 };
        let ended = end == StoreEnd::Disk || end == StoreEnd::Done;
        holds_in(&rt, call, ended);
        holds_in(&rt, call, left);
    }
    Ok(())
}
