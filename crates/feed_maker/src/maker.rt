ghost use Rattle.std.specs.Prelude.{◌≡◌, ◌+◌, ◌<◌, ◌≤◌, ◌^◌, ◌++◌, OnOk, OnErr, IsErr, IsErrOf};
ghost use Rattle.edge_traits.specs.Count.{Rose};
ghost use Rattle.edge_traits.specs.Output.{TookFront, Moved};
ghost use Rattle.edge_traits.specs.Sink.{Took};
ghost use Rattle.feed_maker.specs.DrillFeed.{feed_of};
ghost use Rattle.feed_maker.specs.Lines.{coming};

use crate::lines::Lines;
use edge_traits::{Failed, Sink, write_all};
use std::alloc::{AllocError, Global};

// From this length on, in bytes, lines that were gathered are written.
const FULL: usize = 65536;

/// Why a feed wasn't made whole.
#[derive(Clone, Copy, Debug, PartialEq, Eq)]
pub enum MakeFault {
    /// The sink failed.
    Sink,
    OutOfMemory,
}

impl From<Failed> for MakeFault {
    ghost use Rattle.feed_maker.specs.declared.maker.MakeFault.TheVariants as made;

    ghost from_gives = { λ _ fault. fault ≡ made.Sink };

    fn from(_: Failed) -> Self {
        MakeFault::Sink
    }
}

impl From<AllocError> for MakeFault {
    ghost use Rattle.feed_maker.specs.declared.maker.MakeFault.TheVariants as made;

    ghost from_gives = { λ _ fault. fault ≡ made.OutOfMemory };

    fn from(_: AllocError) -> Self {
        MakeFault::OutOfMemory
    }
}

// Writes the lines that were gathered, where they are many.
fn write_many<S: Sink>(text: &mut Vec<u8>, out: &mut S) -> Result<(), Failed>
    ensures ok { OnOk result (Moved (S.sink out.old) (S.sink out.new) text.old.items text.new.items) }
    ensures err { OnErr result (TookFront (S.sink out.old) (S.sink out.new) text.old.items) }
    ensures failed { IsErr result → Rose (S.sink out.old).faults (S.sink out.new).faults }
    ensures count { (S.sink out.old).faults ≤ (S.sink out.new).faults }
{
    if text.len() >= FULL {
        write_all(out, text)?;
        text.clear();
    }
    Ok(())
}

// Writes what is in the buffer and all lines that are coming.
fn write_lines<S: Sink>(lines: &mut Lines, text: &mut Vec<u8>, out: &mut S) -> Result<(), MakeFault>
    requires fits { lines.old.no + lines.old.left < 2 ^ 33 }
    ensures ok { OnOk result (Took (S.sink out.old) (S.sink out.new) (text.old.items ++ coming lines.old)) }
    ensures err { OnErr result (TookFront (S.sink out.old) (S.sink out.new) (text.old.items ++ coming lines.old)) }
    ensures sink { IsErrOf result MakeFault.Sink → Rose (S.sink out.old).faults (S.sink out.new).faults }
    ensures count { (S.sink out.old).faults ≤ (S.sink out.new).faults }
{
    'lines: while lines.left > 0 {
        lines.put_next(text)?;
        write_many(text, out)?;
    }
    write_all(out, text)?;
    Ok(())
}

/// Writes the feed of so many lines that the number gives. After a failure the sink has got a front of it.
///
/// # Errors
///
/// `Sink` where the sink failed.
pub fn make_feed<S: Sink>(
    alloc: Global,
    lines: u32,
    number: u64,
    out: &mut S,
) -> Result<(), MakeFault>
    ensures ok { OnOk result (Took (S.sink out.old) (S.sink out.new) (feed_of lines number)) }
    ensures err { OnErr result (TookFront (S.sink out.old) (S.sink out.new) (feed_of lines number)) }
    ensures sink { IsErrOf result MakeFault.Sink → Rose (S.sink out.old).faults (S.sink out.new).faults }
    ensures count { (S.sink out.old).faults ≤ (S.sink out.new).faults }
{
    let mut text = Vec::from_slice(alloc, b"ip,port,type,note\n")?;
    let mut coming = Lines {
        left: lines,
        no: 0,
        number,
    };
    write_lines(&mut coming, &mut text, out)
}
