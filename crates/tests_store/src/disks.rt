use crate::same::same;
use base_types::NumberList;
use edge_memory::{Choice, MemDisk};
use edge_traits::Disk;
use std::alloc::Global;
use std::process::Abort;
use std::test::Fail;

pub const FILE: u64 = 7;

/// A crash that leaves what a read gave.
pub const KEPT: Choice = Choice {
    keep: true,
    filler: 0,
    longest: false,
};

/// One that leaves each file as short as may be, with closed gates for pending bytes.
pub const SHORTEST: Choice = Choice {
    keep: false,
    filler: 0,
    longest: false,
};

/// One that leaves each file as long as may be, with open gates for pending bytes.
pub const LONGEST: Choice = Choice {
    keep: false,
    filler: 1,
    longest: true,
};

/// The same, with large lengths.
pub const FULL: Choice = Choice {
    keep: false,
    filler: 255,
    longest: true,
};

pub const CHOICES: [Choice; 4] = [KEPT, SHORTEST, LONGEST, FULL];

/// The crash that leaves this byte where one is pending, and each file as long as it may be.
pub fn filled(filler: u8) -> Choice {
    Choice {
        keep: false,
        filler,
        longest: true,
    }
}

/// The disk after a crash that came after so many of its calls.
pub fn crashed(
    alloc: Global,
    disk: &MemDisk,
    after: u64,
    choice: &Choice,
) -> Result<MemDisk, Fail> {
    if after > disk.calls() {
        return Err(Fail::from("a crash after a call that wasn't made"));
    }
    Ok(disk.image(alloc, after, choice)?)
}

/// What a crash after so many calls leaves of the file.
pub fn file_after(
    alloc: Global,
    disk: &MemDisk,
    after: u64,
    choice: &Choice,
) -> Result<Vec<u8>, Fail> {
    Ok(crashed(alloc, disk, after, choice)?.file(alloc, FILE)?)
}

/// The file has these bytes now, and after each crash.
pub fn check_durable(
    rt: &impl Abort,
    alloc: Global,
    disk: &MemDisk,
    bytes: &[u8],
) -> Result<(), Fail> {
    same(rt, disk.file(alloc, FILE)?.as_slice(), bytes);
    for choice in &CHOICES {
        let left = file_after(alloc, disk, disk.calls(), choice)?;
        same(rt, left.as_slice(), bytes);
    }
    Ok(())
}

/// A disk without calls on which the file is durable with these bytes.
pub fn disk_with(alloc: Global, bytes: &[u8]) -> Result<MemDisk, Fail> {
    if bytes.len() > 1_000_000 {
        return Err(Fail::from("a file of more than a million bytes"));
    }
    let mut disk = MemDisk::new(alloc);
    disk.write_at(FILE, 0, bytes)?;
    disk.sync(FILE)?;
    crashed(alloc, &disk, disk.calls(), &KEPT)
}

/// A list with this number, of a call that is to fail.
pub fn only(alloc: Global, number: u64) -> Result<NumberList, Fail> {
    let mut list = NumberList::new(alloc);
    if list.push(number).is_err() {
        return Err(Fail::from("memory"));
    }
    Ok(list)
}

/// A new disk whose call with this number fails.
pub fn failing(alloc: Global, number: u64) -> Result<MemDisk, Fail> {
    let fail = only(alloc, number)?;
    let mut disk = MemDisk::new(alloc);
    disk.plan(fail, None);
    Ok(disk)
}

/// Has the disk fail in every call after the first so many.
pub fn stop_after(alloc: Global, disk: &mut MemDisk, calls: u64) {
    disk.plan(NumberList::new(alloc), Some(calls));
}
