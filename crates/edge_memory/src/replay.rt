ghost use Rattle.std.specs.Prelude.{◌≡◌, IfOk, OnOk, OnErr, reverse};
ghost use Rattle.edge_traits.specs.Disk.{overwritten};
ghost use Rattle.edge_memory.specs.Entries.{changed, content_after, content};

use crate::change::{Change, Entry};
use base_types::OutOfMemory;
use std::alloc::Global;

// Puts the bytes at the offset `at`, or at the end where that is before it.
fn overwrite(content: &mut Vec<u8>, at: u64, bytes: &[u8]) -> Result<(), OutOfMemory>
    ensures ok { OnOk result (content.new.items ≡ overwritten content.old.items at bytes.now) }
    ensures err { OnErr result (content.new.items ≡ content.old.items) }
{
    let from = (at as usize).min(content.len());
    let over = bytes.len().min(content.len() - from);
    content.extend_from_slice(&bytes[over..])?;
    content[from..from + over].copy_from_slice(&bytes[..over]);
    Ok(())
}

pub fn replace(alloc: Global, content: &mut Vec<u8>, bytes: &[u8]) -> Result<(), OutOfMemory>
    ensures ok { OnOk result (content.new.items ≡ bytes.now) }
    ensures err { OnErr result (content.new.items ≡ content.old.items) }
{
    *content = bytes.to_vec(alloc)?;
    Ok(())
}

/// Makes the change. Without memory for it the content stays.
pub fn change(alloc: Global, content: &mut Vec<u8>, change: &Change) -> Result<(), OutOfMemory>
    ensures ok { OnOk result (content.new.items ≡ changed change.now content.old.items) }
    ensures err { OnErr result (content.new.items ≡ content.old.items) }
{
    match change {
        Change::Write { at, bytes } => overwrite(content, *at, bytes),
        Change::Cut { len } => {
            content.truncate(*len as usize);
            Ok(())
        }
        Change::Found { bytes } => replace(alloc, content, bytes),
        Change::FailedWrite { .. } | Change::FailedCut { .. } | Change::Sync => Ok(()),
    }
}

pub fn change_if_of(
    alloc: Global,
    content: &mut Vec<u8>,
    entry: &Entry,
    file: u64,
) -> Result<(), OutOfMemory>
    ensures { OnOk result (content.new.items ≡ content_after file entry.now content.old.items) }
{
    if entry.file == file {
        change(alloc, content, &entry.change)
    } else {
        Ok(())
    }
}

/// What a read of the file gives after these changes.
pub fn content_of(alloc: Global, entries: &[Entry], file: u64) -> Result<Vec<u8>, OutOfMemory>
    ensures { IfOk result (λ bytes. bytes.items ≡ content file (reverse entries.now)) }
{
    let mut bytes = Vec::new(alloc);
    'entries: for entry in entries {
        change_if_of(alloc, &mut bytes, entry, file)?;
    }
    Ok(bytes)
}
