//! Crashes: what they may leave of a disk.
use crate::outside::Outside;
use base_types::OutOfMemory;
use edge_memory::{Choice, MemDisk};
use std::alloc::Global;

/// A crash that leaves what a read gave.
pub const KEPT: Choice = Choice {
    keep: true,
    filler: 0,
    longest: false,
};

const LONG_CLOSED: Choice = Choice {
    keep: false,
    filler: 0,
    longest: true,
};

const LONG_OPEN: Choice = Choice {
    keep: false,
    filler: 1,
    longest: true,
};

/// The crashes that `each-call` tries: one that leaves what a read gave, and two that leave each file as long as may be, with closed
/// and with open gates for bytes that a sync had not reached.
pub const TRIED: [Choice; 3] = [KEPT, LONG_CLOSED, LONG_OPEN];

fn left(filler: u8, longest: bool) -> Choice {
    Choice {
        keep: false,
        filler,
        longest,
    }
}

// The crash of this name. Files are as short or as long as may be, and bytes that no sync had reached are closed gates (0), open gates
// (1) or parts of large lengths (255).
fn choice_of(name: &str) -> Option<Choice> {
    match name {
        "kept" => Some(KEPT),
        "short closed" => Some(left(0, false)),
        "long closed" => Some(LONG_CLOSED),
        "short open" => Some(left(1, false)),
        "long open" => Some(LONG_OPEN),
        "long large" => Some(left(255, true)),
        _ => None,
    }
}

/// A disk with the same files, which a crash leaves as they are, and no calls yet.
pub fn copy_of(alloc: Global, disk: &MemDisk) -> Result<MemDisk, OutOfMemory> {
    disk.image(alloc, disk.calls(), &KEPT)
}

/// What a crash after so many calls, or after all, leaves of a disk.
pub fn crashed(
    alloc: Global,
    disk: &MemDisk,
    after: u64,
    choice: &Choice,
) -> Result<MemDisk, OutOfMemory> {
    disk.image(alloc, after.min(disk.calls()), choice)
}

/// A crash of this name after the last command.
pub fn crash(
    alloc: Global,
    outside: &mut Outside,
    name: &str,
) -> Result<&'static str, OutOfMemory> {
    match choice_of(name) {
        Some(choice) => {
            outside.disk = outside.disk.image(alloc, outside.disk.calls(), &choice)?;
            Ok("")
        }
        None => Ok("no such crash"),
    }
}
