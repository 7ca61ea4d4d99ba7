ghost use Rattle.std.specs.Prelude.{◌≡◌, ◌≤◌, [], Some, None, length, IfOk};
ghost use Rattle.std.specs.Io.KnownBytes.{ReadConsumes};
ghost use Rattle.edge_traits.specs.Source.{SourceView};
ghost use Rattle.system_run.specs.Counts.{untold};

use crate::counts::Counts;
use base_types::Text;
use edge_traits::{Failed, Shelf, ShelfFault, Source};
use std::alloc::Global;
use std::io::{Read, Seek, SeekFrom};
use std::rt::Files;
use std::{fs, io};

/// A file that was fetched. It tells its name, and not its bytes. It can't be dropped.
pub struct FileSource<F> {
    name: Text,
    file: F,
    // The offset at which the file is read next, where it's known.
    next: Option<u64>,
    faults: u64,
}

impl<F: Read + Seek> FileSource<F> {
    // Seeks only where the last read didn't end there, so that a pipe can be read too. Then the bytes are the next that
    // the file has left.
    fn read_from(&mut self, at: u64, buf: &mut [u8]) -> io::Result<usize>
        ensures within { IfOk result (λ n. n ≤ length buf.new) }
        ensures bytes { self.old.next ≡ Some at → ReadConsumes (F.remaining self.old.file) (F.remaining self.new.file) result buf.new }
        ensures name { self.new.name ≡ self.old.name }
        ensures faults { self.new.faults ≡ self.old.faults }
    {
        if self.next != Some(at) {
            self.file.seek(SeekFrom::Start(at))?;
        }
        self.next = None;
        let n = self.file.read(buf)?;
        self.next = at.checked_add(n as u64);
        Ok(n)
    }
}

impl<F: Read + Seek> Source for FileSource<F> {
    ghost source = { λ s. record { name = Some s.name; told = None; faults = s.faults } };

    fn read_at(&mut self, at: u64, buf: &mut [u8]) -> Result<usize, Failed> {
        match self.read_from(at, buf) {
            Ok(n) => Ok(n),
            Err(_) => {
                self.faults = self.faults.saturating_add(1);
                Err(Failed)
            }
        }
    }
}

/// The system's files. A name is a path, which the system looks up from the current folder. It tells no content, so
/// a file that isn't there is a fault.
#[derive(Drop)]
pub struct FileShelf<'a, R> {
    files: &'a R,
    counts: Counts,
}

impl<'a, R: Files> FileShelf<'a, R> {
    /// No fault is counted yet. It takes no memory.
    pub fn new(alloc: Global, files: &'a R) -> Self
        ensures { ⟦<FileShelf<'a, R> as Shelf>⟧.shelf result ≡ untold [] }
    {
        FileShelf {
            files,
            counts: Counts::new(alloc),
        }
    }
}

impl<R: Files> Shelf for FileShelf<'_, R> {
    type Src = FileSource<R::File>;

    ghost shelf = { λ s. untold s.counts };

    fn fetch(&mut self, alloc: Global, name: &Text) -> Result<FileSource<R::File>, ShelfFault> {
        let Ok(()) = self.counts.list(alloc, name) else {
            return Err(ShelfFault::OutOfMemory);
        };
        let Ok(own_name) = name.copy(alloc) else {
            return Err(ShelfFault::OutOfMemory);
        };
        match fs::open(self.files, name.as_str()) {
            Ok(file) => Ok(FileSource {
                name: own_name,
                file,
                next: Some(0),
                faults: 0,
            }),
            Err(_) => {
                self.counts.add(name, 1);
                Err(ShelfFault::Failed)
            }
        }
    }

    fn take_back(&mut self, name: &Text, source: FileSource<R::File>) {
        let FileSource {
            name: _,
            file: _,
            next: _,
            faults,
        } = source;
        self.counts.add(name, faults);
    }
}
