ghost use Rattle.std.specs.Prelude.{◌≡◌, IfOk, OnOk, reverse, if◌then◌else◌, ◌==◌};
ghost use Rattle.edge_memory.specs.Entries.{content_after};
ghost use Rattle.edge_memory.specs.Crashed.{lengthened, filled, enlarged, torn, shortened, crashed_by, crashed_after, crashed, image};

use crate::change::{Change, Entry};
use crate::choice::Choice;
use crate::replay::{change_if_of, content_of, replace};
use base_types::OutOfMemory;
use std::alloc::Global;

fn lengthen(bytes: &mut Vec<u8>, end: usize, filler: u8) -> Result<(), OutOfMemory>
    ensures { OnOk result (bytes.new.items ≡ lengthened end filler bytes.old.items) }
{
    if bytes.len() < end {
        bytes.resize(end, filler)?;
    }
    Ok(())
}

fn fill(bytes: &mut [u8], at: u64, len: u64, filler: u8)
    ensures { bytes.new ≡ filled at len filler bytes.old }
{
    let from = (at as usize).min(bytes.len());
    let to = (at.saturating_add(len) as usize).min(bytes.len());
    bytes[from..to].fill(filler);
}

// Makes room for a write, if the image is to be as long as it may be.
fn enlarge(bytes: &mut Vec<u8>, at: u64, len: u64, choice: &Choice) -> Result<(), OutOfMemory>
    ensures { OnOk result (bytes.new.items ≡ enlarged choice.now at len bytes.old.items) }
{
    if !choice.longest {
        return Ok(());
    }
    match at.checked_add(len) {
        Some(end) => lengthen(bytes, end as usize, choice.filler),
        None => Err(OutOfMemory),
    }
}

fn tear(bytes: &mut Vec<u8>, at: u64, len: u64, choice: &Choice) -> Result<(), OutOfMemory>
    ensures { OnOk result (bytes.new.items ≡ torn choice.now at len bytes.old.items) }
{
    enlarge(bytes, at, len, choice)?;
    fill(bytes, at, len, choice.filler);
    Ok(())
}

fn shorten(bytes: &mut Vec<u8>, len: u64, choice: &Choice)
    ensures { bytes.new.items ≡ shortened choice.now len bytes.old.items }
{
    if !choice.longest {
        bytes.truncate(len as usize);
    }
}

fn crash_by(
    alloc: Global,
    bytes: &mut Vec<u8>,
    change: &Change,
    seen: &[u8],
    choice: &Choice,
) -> Result<(), OutOfMemory>
    ensures { OnOk result (bytes.new.items ≡ crashed_by choice.now change.now seen.now bytes.old.items) }
{
    match change {
        Change::Write { at, bytes: written } => tear(bytes, *at, written.len() as u64, choice),
        Change::FailedWrite { at, len } => tear(bytes, *at, *len, choice),
        Change::Cut { len } | Change::FailedCut { len } => {
            shorten(bytes, *len, choice);
            Ok(())
        }
        Change::Sync => replace(alloc, bytes, seen),
        Change::Found { bytes: found } => replace(alloc, bytes, found),
    }
}

fn crash_if_of(
    alloc: Global,
    bytes: &mut Vec<u8>,
    entry: &Entry,
    file: u64,
    seen: &[u8],
    choice: &Choice,
) -> Result<(), OutOfMemory>
    ensures { OnOk result (bytes.new.items ≡ crashed_after choice.now file entry.now seen.now bytes.old.items) }
{
    if entry.file == file {
        crash_by(alloc, bytes, &entry.change, seen, choice)
    } else {
        Ok(())
    }
}

fn crashed(
    alloc: Global,
    entries: &[Entry],
    file: u64,
    choice: &Choice,
) -> Result<Vec<u8>, OutOfMemory>
    ensures { IfOk result (λ bytes. bytes.items ≡ crashed choice.now file (reverse entries.now)) }
{
    let mut seen = Vec::new(alloc);
    let mut bytes = Vec::new(alloc);
    'entries: for entry in entries {
        crash_if_of(alloc, &mut bytes, entry, file, &seen, choice)?;
        change_if_of(alloc, &mut seen, entry, file)?;
    }
    Ok(bytes)
}

/// What a crash after these changes leaves in the file.
pub fn image_of(
    alloc: Global,
    entries: &[Entry],
    file: u64,
    choice: &Choice,
) -> Result<Vec<u8>, OutOfMemory>
    ensures { IfOk result (λ bytes. bytes.items ≡ image choice.now file (reverse entries.now)) }
{
    if choice.keep {
        content_of(alloc, entries, file)
    } else {
        crashed(alloc, entries, file, choice)
    }
}
