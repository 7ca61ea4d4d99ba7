ghost use Rattle.std.specs.Prelude.{◌≡◌, ◌≤◌, None, length, IfOk};

use base_types::{OutOfMemory, Text};
use edge_traits::{Failed, Source};
use std::alloc::Global;
use std::io::{ErrorKind, Read, Seek, SeekFrom};
use std::rt::Files;
use std::{fs, io};

/// The file `control` in the folder of a store, as it is and as it grows. Where it isn't there it is empty. It tells no content.
#[derive(Drop)]
pub struct ControlFile<'a, R: Files> {
    files: &'a R,
    path: Text,
    /// The file, once it was there.
    file: Option<R::File>,
    faults: u64,
}

impl<'a, R: Files> ControlFile<'a, R> {
    /// That of the store in this folder. It isn't opened yet.
    pub fn new(alloc: Global, files: &'a R, store: &Text) -> Result<Self, OutOfMemory> {
        let path = Text::from(format!(in alloc; "{}/control", store.as_str())?);
        Ok(ControlFile {
            files,
            path,
            file: None,
            faults: 0,
        })
    }

    // Reads from an offset on.
    fn read_from(&mut self, at: u64, buf: &mut [u8]) -> io::Result<usize>
        ensures within { IfOk result (λ n. n ≤ length buf.new) }
        ensures faults { self.new.faults ≡ self.old.faults }
    {
        if self.file.is_none() {
            match fs::open(self.files, self.path.as_str()) {
                Ok(file) => self.file = Some(file),
                Err(error) if error.kind() == ErrorKind::NotFound => return Ok(0),
                Err(error) => return Err(error),
            }
        }
        let Some(file) = &mut self.file else {
            return Ok(0);
        };
        file.seek(SeekFrom::Start(at))?;
        file.read(buf)
    }
}

impl<R: Files> Source for ControlFile<'_, R> {
    ghost source = { λ c. record { name = None; told = None; faults = c.faults } };

    fn read_at(&mut self, at: u64, buf: &mut [u8]) -> Result<usize, Failed> {
        match self.read_from(at, buf) {
            Ok(n) => Ok(n),
            Err(_) => {
                self.faults = self.faults.saturating_add(1);
                Err(Failed)
            }
        }
    }
}
