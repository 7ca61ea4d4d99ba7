ghost use Rattle.std.specs.Prelude.{◌≡◌, ◌<◌, ◌≤◌, ◌+◌, ◌∷◌, ◌++◌, [], ℕ, length, reverse, IsTrue, OnOk, OnErr, nat_le};
ghost use Rattle.std.specs.List.{list_all, take_while};
ghost use Rattle.edge_traits.specs.Count.{last_count};
ghost use Rattle.edge_memory.specs.Files.{bytes_of};
ghost use Rattle.edge_memory.specs.Entries.{content, has_file};

use crate::change::{Change, Entry};
use crate::files::Files;
use base_types::OutOfMemory;
use std::alloc::Global;

/// How many calls were made, and those of them that changed a file, the oldest first. Beside them what a read of each
/// file gives, so that no read goes through all of them.
#[derive(Debug, Drop)]
pub struct Log {
    pub calls: u64,
    pub entries: Vec<Entry>,
    files: Files,
    ghost numbered: { IsTrue (list_all (λ e. nat_le e.number calls) entries.items) },
    ghost present: { (file : ℕ) → bytes_of files file ≡ content file (reverse entries.items) },
}

impl Log {
    pub fn new(alloc: Global) -> Log
        ensures calls { result.calls ≡ 0 }
        ensures entries { result.entries.items ≡ [] }
    {
        Log {
            calls: 0,
            entries: Vec::new(alloc),
            files: Files::new(alloc),
        }
    }

    /// Counts a call.
    pub fn count(&mut self)
        requires { self.old.calls < last_count }
        ensures calls { self.new.calls ≡ self.old.calls + 1 }
        ensures entries { self.new.entries ≡ self.old.entries }
    {
        self.calls += 1;
    }

    /// Notes what the last call changed.
    pub fn push(&mut self, file: u64, change: Change) -> Result<(), OutOfMemory>
        ensures calls { self.new.calls ≡ self.old.calls }
        ensures ok { OnOk result (self.new.entries.items
            ≡ self.old.entries.items ++ record { number = self.old.calls; file = file; change = change } ∷ []) }
        ensures err { OnErr result (self.new.entries.items ≡ self.old.entries.items) }
    {
        let entry = Entry {
            number: self.calls,
            file,
            change,
        };
        self.entries.reserve(1)?;
        self.files.change(&entry)?;
        // There is room for it.
        self.entries.push(entry)?;
        Ok(())
    }

    /// Whether a call has changed the file.
    pub fn has(&self, file: u64) -> bool
        ensures { result ≡ has_file file self.now.entries.items }
    {
        self.entries.iter().any(|e| e.file == file)
    }

    /// What a read of the file gives.
    pub fn bytes(&self, file: u64) -> &[u8]
        ensures { result.now ≡ content file (reverse self.now.entries.items) }
    {
        self.files.get(file)
    }

    /// What the first so many calls changed.
    pub fn past(&self, call: u64) -> &[Entry]
        ensures { result.now ≡ take_while (λ e. nat_le e.number call) self.now.entries.items }
    {
        &self.entries[..count_until(&self.entries, call)]
    }
}

fn count_until(entries: &[Entry], call: u64) -> usize
    ensures { result ≡ length (take_while (λ e. nat_le e.number call) entries.now) }
{
    entries.iter().take_while(|e| e.number <= call).count()
}
