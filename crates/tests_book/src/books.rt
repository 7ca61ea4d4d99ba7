use crate::fixtures::{NOW, break_book, fill, flush_two, latest_behind};
use crate::same::{same, same_in};
use base_types::Blob;
use edge_memory::MemDisk;
use journal_book::BookFault;
use std::alloc::Global;
use std::process::Abort;
use std::test::Fail;
use tests_book_fixtures::{GENERATION, ROOT, create_fault, fail_at, front, new_store};
use tests_rules::TinyRules;

// Making a store takes seven calls of the disk, and a flush four.
const MADE: u64 = 7;

fn tiny(alloc: Global) -> Result<Blob, Fail> {
    Ok(Blob::new(alloc, b"tiny")?)
}

// A new store, and the code of its state.
fn made(alloc: Global) -> Result<(Blob, MemDisk), Fail> {
    new_store(alloc, MemDisk::new(alloc), TinyRules, &tiny(alloc)?)
}

const NEW_ROOT: &[u8] = b"IMQJ\0\0\0\x01\0\0\0\0\0\0\0\0\x01\0\0\0\0\0\0\0\x08\0\0\0\0\0\0\0\0\0";

#[test]
fn a_new_store_has_its_generation_and_then_its_root(rt: HostRuntime) -> Result<(), Fail> {
    let alloc = rt.alloc();
    let (code, disk) = made(alloc)?;
    same(&rt, NEW_ROOT.len(), 34);
    same(&rt, disk.file(alloc, ROOT)?.as_slice(), NEW_ROOT);
    let generation = disk.file(alloc, GENERATION)?;

    // Behind a header, a gate and a length stands the state, and a closed gate behind that.
    let body = generation.get(25..).unwrap_or(&[]);
    same(
        &rt,
        body.strip_prefix(code.bytes()).unwrap_or(&[]),
        [0].as_slice(),
    );
    same(&rt, disk.calls(), MADE);
    assert!(rt; !disk.starved());
    Ok(())
}

#[test]
fn a_store_is_not_made_over_another(rt: HostRuntime) -> Result<(), Fail> {
    let alloc = rt.alloc();
    let (_, disk) = made(alloc)?;
    let fault = create_fault(alloc, disk, TinyRules, &tiny(alloc)?);
    same(&rt, fault, Some(BookFault::Store { have: 34 }));
    Ok(())
}

#[test]
fn a_bundle_without_a_plan_makes_no_store(rt: HostRuntime) -> Result<(), Fail> {
    let alloc = rt.alloc();
    let bundle = Blob::new(alloc, b"none")?;
    let fault = create_fault(alloc, MemDisk::new(alloc), TinyRules, &bundle);
    same(&rt, fault, Some(BookFault::Refused));
    Ok(())
}

#[test]
fn no_store_is_made_where_a_call_fails(rt: HostRuntime) -> Result<(), Fail> {
    let alloc = rt.alloc();
    'calls: for call in 1..=MADE {
        let mut disk = MemDisk::new(alloc);
        fail_at(alloc, &mut disk, call)?;
        let fault = create_fault(alloc, disk, TinyRules, &tiny(alloc)?);
        same_in(&rt, call, fault, Some(BookFault::Disk));
    }
    Ok(())
}

#[test]
fn codes_of_steps_stay_within_the_limit(rt: HostRuntime) -> Result<(), Fail> {
    let alloc = rt.alloc();
    fill(&rt, alloc, MemDisk::new(alloc), TinyRules, &tiny(alloc)?)
}

// The codes of two starts at `NOW`, and their record with the gates before and behind it.
const STARTS: &[u8] = b"\x01\0\0\0\0eS\xf1\0\x01\0\0\0\0eS\xf1\0";

const RECORD: &[u8] = b"\x01\0\0\0\0\0\0\0\x12\x01\0\0\0\0eS\xf1\0\x01\0\0\0\0eS\xf1\0\0";

#[test]
fn a_flush_is_one_record_of_all_that_waits(rt: HostRuntime) -> Result<(), Fail> {
    let alloc = rt.alloc();
    let (_, new) = made(alloc)?;
    let new = new.file(alloc, GENERATION)?;
    let (codes, disk) = flush_two(&rt, alloc, MemDisk::new(alloc), TinyRules, &tiny(alloc)?)?;
    same(&rt, codes.as_slice(), STARTS);

    // Before the gate of the record the file is as it was.
    let past = front(&new, new.len().saturating_sub(1));
    let file = disk.file(alloc, GENERATION)?;
    same(&rt, file.strip_prefix(past).unwrap_or(&[]), RECORD);

    // A flush of nothing makes no call.
    same(&rt, disk.calls(), MADE + 4);
    Ok(())
}

// A clock's moment, and that of the step.
const MOMENTS: [(u64, u64); 3] = [
    (NOW + 1, NOW + 1),
    (NOW - 1, NOW),
    (u64::MAX, 253_402_300_799),
];

#[test]
fn a_clock_that_goes_back_is_not_followed(rt: HostRuntime) -> Result<(), Fail> {
    let alloc = rt.alloc();
    'clocks: for (clock, moment) in &MOMENTS {
        let latest = latest_behind(alloc, MemDisk::new(alloc), TinyRules, &tiny(alloc)?, *clock)?;
        same_in(&rt, *clock, latest, *moment);
    }
    Ok(())
}

#[test]
fn a_book_whose_disk_failed_is_broken(rt: HostRuntime) -> Result<(), Fail> {
    let alloc = rt.alloc();
    'calls: for call in MADE + 1..=MADE + 4 {
        let mut disk = MemDisk::new(alloc);
        fail_at(alloc, &mut disk, call)?;
        break_book(&rt, alloc, disk, TinyRules, &tiny(alloc)?, call)?;
    }
    Ok(())
}
