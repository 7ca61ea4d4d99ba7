use crate::fixtures::{numbers, sink, tiny};
use crate::same::same;
use base_types::Blob;
use edge_memory::{MemDisk, MemSink};
use std::alloc::Global;
use std::process::Abort;
use std::test::Fail;
use store_commands::{StoreEnd, init};
use tests_rules::TinyRules;

const NEW: &[u8] =
    b"steps 0\nbundle 1\nmessages 0\nwaiting 0\nin hand 0\ndumped 0\nprocessed 0\nlines 0\n";

#[test]
fn a_store_is_made_and_its_summary_printed(rt: HostRuntime) -> Result<(), Fail> {
    let alloc = rt.alloc();
    let mut out = sink(alloc);
    let bundle = tiny(alloc)?;
    let (end, disk) = init(alloc, MemDisk::new(alloc), TinyRules, &bundle, &mut out);
    same(&rt, end, StoreEnd::Done);
    same(&rt, out.bytes(), NEW);

    // A second one finds the root's 34 bytes, and prints nothing.
    let mut out = sink(alloc);
    let (end, _disk) = init(alloc, disk, TinyRules, &bundle, &mut out);
    same(&rt, end, StoreEnd::Store { have: 34 });
    assert!(rt; out.bytes().is_empty());
    Ok(())
}

#[test]
fn a_bundle_without_a_plan_makes_no_store(rt: HostRuntime) -> Result<(), Fail> {
    let alloc = rt.alloc();
    let mut out = sink(alloc);
    let bundle = Blob::new(alloc, b"none")?;
    let (end, disk) = init(alloc, MemDisk::new(alloc), TinyRules, &bundle, &mut out);
    same(&rt, end, StoreEnd::Refused);
    assert!(rt; out.bytes().is_empty());
    assert!(rt; disk.file(alloc, 0)?.is_empty());
    Ok(())
}

#[test]
fn what_fails_is_told(rt: HostRuntime) -> Result<(), Fail> {
    let alloc = rt.alloc();
    let bundle = tiny(alloc)?;
    let mut disk = MemDisk::new(alloc);
    disk.plan(numbers(alloc, 3)?, None);
    let (end, _disk) = init(alloc, disk, TinyRules, &bundle, &mut sink(alloc));
    same(&rt, end, StoreEnd::Disk);

    let mut out = MemSink::new(alloc, numbers(alloc, 1)?);
    let (end, _disk) = init(alloc, MemDisk::new(alloc), TinyRules, &bundle, &mut out);
    same(&rt, end, StoreEnd::Sink);
    Ok(())
}
