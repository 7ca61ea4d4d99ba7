ghost use Rattle.std.specs.Prelude.{◌≡◌};
ghost use Rattle.pipeline_top.specs.Halt.{of_shelf, of_reader, IsHaltStatus};
ghost use Rattle.pipeline_top.specs.declared.halt.Halt.TheVariants as halt;

use crate::{FeedWhy, Status};
use base_types::{OutOfMemory, Text};
use edge_traits::{Failed, ShelfFault};
use feed_reader::ReaderFault;
use std::alloc::Global;

/// Why a conversion stops that no line ends.
#[derive(Clone, Copy, Debug, PartialEq, Eq)]
pub enum Halt {
    /// The shelf lacks the feed.
    Absent,
    /// The feed couldn't be fetched or read.
    Failed,
    Sink,
    OutOfMemory,
}

impl From<OutOfMemory> for Halt {
    ghost from_gives = { λ _ h. h ≡ halt.OutOfMemory };

    fn from(_: OutOfMemory) -> Self {
        Halt::OutOfMemory
    }
}

impl From<Failed> for Halt {
    ghost from_gives = { λ _ h. h ≡ halt.Sink };

    fn from(_: Failed) -> Self {
        Halt::Sink
    }
}

impl From<ShelfFault> for Halt {
    ghost from_gives = { λ fault h. h ≡ of_shelf fault };

    fn from(fault: ShelfFault) -> Self {
        match fault {
            ShelfFault::Absent => Halt::Absent,
            ShelfFault::Failed => Halt::Failed,
            ShelfFault::OutOfMemory => Halt::OutOfMemory,
        }
    }
}

impl From<ReaderFault> for Halt {
    ghost from_gives = { λ fault h. h ≡ of_reader fault };

    fn from(fault: ReaderFault) -> Self {
        match fault {
            ReaderFault::Failed => Halt::Failed,
            ReaderFault::OutOfMemory => Halt::OutOfMemory,
        }
    }
}

/// The status of a conversion of the feed of this name that was stopped.
pub fn halt_status(alloc: Global, name: &Text, halt: Halt) -> Status
    ensures { IsHaltStatus name.now halt result }
{
    let why = match halt {
        Halt::Absent => FeedWhy::Absent,
        Halt::Failed => FeedWhy::Failed,
        Halt::Sink => return Status::Sink,
        Halt::OutOfMemory => return Status::Memory,
    };
    match name.copy(alloc) {
        Ok(name) => Status::Feed { name, why },
        Err(OutOfMemory) => Status::Memory,
    }
}
