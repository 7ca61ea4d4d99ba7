//! Disks in memory: what their files are, calls that are to fail, and crashes.

use base_types::NumberList;
use edge_memory::{Choice, MemDisk};
use edge_traits::Disk;
use std::alloc::Global;
use std::test::Fail;

/// A crash that leaves what a read gave.
pub const KEPT: Choice = Choice {
    keep: true,
    filler: 0,
    longest: false,
};

/// A crash that leaves each file as short as may be, with closed gates for pending bytes.
pub const SHORTEST: Choice = Choice {
    keep: false,
    filler: 0,
    longest: false,
};

/// A crash that leaves each file as long as may be, with open gates for pending bytes.
pub const LONGEST: Choice = Choice {
    keep: false,
    filler: 1,
    longest: true,
};

/// A crash that leaves each file as long as may be, with closed gates for pending bytes.
pub const LONGEST_CLOSED: Choice = Choice {
    keep: false,
    filler: 0,
    longest: true,
};

/// A crash that leaves what a read gave; four that leave each file as short or as long as may be, with closed or open gates for
/// pending bytes; and one with large lengths.
pub const CHOICES: [(&str, Choice); 6] = [
    ("kept", KEPT),
    ("short, closed gates", SHORTEST),
    ("long, closed gates", LONGEST_CLOSED),
    (
        "short, open gates",
        Choice {
            keep: false,
            filler: 1,
            longest: false,
        },
    ),
    ("long, open gates", LONGEST),
    (
        "long, large lengths",
        Choice {
            keep: false,
            filler: 255,
            longest: true,
        },
    ),
];

/// The disk after a crash that came after so many of its calls.
pub fn crashed(
    alloc: Global,
    disk: &MemDisk,
    after: u64,
    choice: &Choice,
) -> Result<MemDisk, Fail> {
    if disk.calls() < after {
        return Err(Fail::from("the disk had fewer calls before the crash"));
    }
    Ok(disk.image(alloc, after, choice)?)
}

/// A disk with the same files, and no calls yet.
pub fn copy_of(alloc: Global, disk: &MemDisk) -> Result<MemDisk, Fail> {
    crashed(alloc, disk, disk.calls(), &KEPT)
}

/// Has a disk fail in the call with this number, from 1.
pub fn fail_at(alloc: Global, disk: &mut MemDisk, call: u64) -> Result<(), Fail> {
    let mut fail = NumberList::new(alloc);
    if fail.push(call).is_err() {
        return Err(Fail::from("memory"));
    }
    disk.plan(fail, None);
    Ok(())
}

/// Has a disk fail in every call after the first so many.
pub fn stop_after(alloc: Global, disk: &mut MemDisk, calls: u64) {
    disk.plan(NumberList::new(alloc), Some(calls));
}

/// Has a disk fail no more.
pub fn mend(alloc: Global, disk: &mut MemDisk) {
    disk.plan(NumberList::new(alloc), None);
}

/// Writes these bytes to a file, from its beginning on.
pub fn put_file(disk: &mut MemDisk, file: u64, bytes: &[u8]) -> Result<(), Fail> {
    if bytes.len() > 1_000_000 {
        return Err(Fail::from("a file of more than a million bytes"));
    }
    disk.write_at(file, 0, bytes)?;
    Ok(())
}
