//! The drill's feed, made in memory that is asked for once.
ghost use Rattle.std.specs.Prelude.{◌≡◌, Some, IfOk};
ghost use Rattle.feed_maker.specs.DrillFeed.{feed_of};

use crate::make_feed;
use base_types::{Blob, OutOfMemory};
use edge_traits::{Failed, Sink};
use std::alloc::Global;

// The header's length in bytes, and that of the longest line: an address of 12, a port of 5, a class of 11, a number of 10, and
// three commas and a newline.
const HEADER: usize = 18;

const LONGEST_LINE: usize = 42;

// Bytes in memory that is there from the start. What it has no room for is refused.
#[derive(Drop)]
struct Room {
    bytes: Vec<u8>,
    faults: u64,
}

impl Sink for Room {
    ghost sink = { λ room. record { told = Some room.bytes.items; faults = room.faults } };

    fn write(&mut self, bytes: &[u8]) -> Result<usize, Failed> {
        if self.bytes.capacity() - self.bytes.len() < bytes.len() {
            self.faults = self.faults.saturating_add(1);
            return Err(Failed);
        }
        // There is room for them, and so this takes no memory.
        let _ = self.bytes.extend_from_slice(bytes);
        Ok(bytes.len())
    }
}

// No feed of so many lines has more bytes.
fn longest_feed(lines: u32) -> usize {
    HEADER + lines as usize * LONGEST_LINE
}

/// The feed of so many lines that the number gives. Memory is asked for once, ahead of the lines.
pub fn made_feed(alloc: Global, lines: u32, number: u64) -> Result<Blob, OutOfMemory>
    ensures { IfOk result (λ feed. feed ≡ feed_of lines number) }
{
    let mut room = Room {
        bytes: Vec::with_capacity(alloc, longest_feed(lines))?,
        faults: 0,
    };
    match make_feed(alloc, lines, number, &mut room) {
        Ok(()) => Ok(Blob::from(room.bytes)),
        Err(_) => Err(OutOfMemory),
    }
}
