ghost use Rattle.std.specs.Prelude.{◌≡◌, ◌==◌, [], ℕ, OnOk, OnErr, position};
ghost use Rattle.edge_memory.specs.Entries.{content_after};

use crate::change::Entry;
use crate::replay::change;
use base_types::OutOfMemory;
use std::alloc::Global;

#[derive(Debug, Drop)]
struct FileBytes {
    number: u64,
    bytes: Vec<u8>,
}

/// What a read of each file gives.
#[derive(Debug, Drop)]
pub struct Files {
    alloc: Global,
    held: Vec<FileBytes>,
}

impl Files {
    ghost use Rattle.edge_memory.specs.Files.{bytes_of};

    pub fn new(alloc: Global) -> Files
        ensures { (file : ℕ) → bytes_of result file ≡ [] }
    {
        Files {
            alloc,
            held: Vec::new(alloc),
        }
    }

    pub fn get(&self, file: u64) -> &[u8]
        ensures { result.now ≡ bytes_of self.now file }
    {
        match place_of(&self.held, file) {
            Some(i) => &self.held[i].bytes,
            None => &[],
        }
    }

    /// Changes the file of the entry as that says.
    pub fn change(&mut self, entry: &Entry) -> Result<(), OutOfMemory>
        ensures ok { OnOk result ((file : ℕ) → bytes_of self.new file ≡ content_after file entry.now (bytes_of self.old file)) }
        ensures err { OnErr result ((file : ℕ) → bytes_of self.new file ≡ bytes_of self.old file) }
    {
        match place_of(&self.held, entry.file) {
            Some(i) => change(self.alloc, &mut self.held[i].bytes, &entry.change),
            None => {
                let mut bytes = Vec::new(self.alloc);
                change(self.alloc, &mut bytes, &entry.change)?;
                self.held.push(FileBytes {
                    number: entry.file,
                    bytes,
                })?;
                Ok(())
            }
        }
    }
}

fn place_of(held: &[FileBytes], file: u64) -> Option<usize>
    ensures { result ≡ position (λ h. h.number == file) held.now }
{
    held.iter().position(|h| h.number == file)
}
