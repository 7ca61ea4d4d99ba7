//! A system over files in memory.
ghost use Rattle.std.specs.Prelude.{◌≤◌, length};

use crate::world::{Place, World, unsupported};
use file_disk::TryLock;
use std::alloc::{Allocator, Global};
use std::cell::{Cell, RefCell, RefMut};
use std::env::FillError;
use std::fmt::Display;
use std::fs::{Metadata, OpenFile, OpenOptions};
use std::io::{self, Read, Seek, SeekFrom, Write};
use std::os::unix::fs::FileExt;
use std::rt;
use std::rt::{Env, Files};
use std::time::Duration;

/// A file or a folder that was opened. Each of its reads in order gives a few bytes at most.
#[derive(Drop)]
pub struct Page<'w> {
    world: &'w RefCell<World>,
    place: Place,
    at: u64,
    most: usize,
}

fn borrowed(world: &RefCell<World>) -> io::Result<RefMut<'_, World>> {
    match world.try_borrow_mut() {
        Ok(world) => Ok(world),
        Err(_) => unsupported(),
    }
}

// Copies the front of some bytes, as far as there is room.
fn copy_front(bytes: &[u8], buf: &mut [u8]) -> usize
    ensures { result ≤ length buf.new }
{
    let n = bytes.len().min(buf.len());
    buf[..n].copy_from_slice(&bytes[..n]);
    n
}

impl Read for Page<'_> {
    fn read(&mut self, buf: &mut [u8]) -> io::Result<usize> {
        let few = buf.len().min(self.most);
        let n = self.read_at(&mut buf[..few], self.at)?;
        self.at = self.at.saturating_add(n as u64);
        Ok(n)
    }
}

impl Seek for Page<'_> {
    fn seek(&mut self, to: SeekFrom) -> io::Result<u64> {
        match to {
            SeekFrom::Start(at) => {
                self.at = at;
                Ok(at)
            }
            _ => unsupported(),
        }
    }
}

impl Write for Page<'_> {
    fn write(&mut self, _buf: &[u8]) -> io::Result<usize> {
        unsupported()
    }

    fn flush(&mut self) -> io::Result<()> {
        unsupported()
    }
}

impl OpenFile for Page<'_> {
    fn metadata(&self) -> io::Result<Metadata> {
        let len = borrowed(self.world)?.content(self.place).len();
        Ok(Metadata::of_file(len as u64))
    }

    fn set_len(&self, size: u64) -> io::Result<()> {
        borrowed(self.world)?.set_len(self.place, size)
    }

    fn sync_all(&self) -> io::Result<()> {
        borrowed(self.world)?.sync(self.place)
    }

    fn sync_data(&self) -> io::Result<()> {
        borrowed(self.world)?.sync_bytes(self.place)
    }
}

impl FileExt for Page<'_> {
    fn read_at(&self, buf: &mut [u8], offset: u64) -> io::Result<usize> {
        let world = borrowed(self.world)?;
        Ok(copy_front(world.bytes_from(self.place, offset), buf))
    }

    fn write_at(&self, buf: &[u8], offset: u64) -> io::Result<usize> {
        borrowed(self.world)?.write(self.place, offset, buf)?;
        Ok(buf.len())
    }
}

impl TryLock for Page<'_> {
    fn try_lock(&self) -> io::Result<()> {
        if borrowed(self.world)?.is_locked(self.place) {
            return Err(io::Error::from(io::ErrorKind::WouldBlock));
        }
        Ok(())
    }
}

/// A system in memory: the words of its command line with blanks between them, its files, and what it printed.
#[derive(Drop)]
pub struct Machine<'w> {
    alloc: Global,
    words: &'w str,
    world: &'w RefCell<World>,
    // How many bytes a read in order gives.
    most: usize,
    // How many seconds each look at the clock takes, and how many passed.
    pace: u64,
    passed: Cell<u64>,
    pub output: RefCell<Vec<u8>>,
    pub told: RefCell<Vec<u8>>,
}

impl<'w> Machine<'w> {
    pub fn new(
        alloc: Global,
        words: &'w str,
        world: &'w RefCell<World>,
        most: usize,
    ) -> Machine<'w> {
        Machine {
            alloc,
            words,
            world,
            most,
            pace: 0,
            passed: Cell::new(0),
            output: RefCell::new(Vec::new(alloc)),
            told: RefCell::new(Vec::new(alloc)),
        }
    }

    /// The same, and each look at its clock takes so many seconds.
    pub fn with_pace(self, pace: u64) -> Machine<'w> {
        Machine { pace, ..self }
    }
}

fn add(to: &RefCell<Vec<u8>>, bytes: &[u8]) -> io::Result<()> {
    match to.try_borrow_mut() {
        Ok(mut all) => all.write_all(bytes),
        Err(_) => unsupported(),
    }
}

impl Alloc for Machine<'_> {
    type A = Global;

    fn alloc(&self) -> Global {
        self.alloc
    }
}

impl Print for Machine<'_> {
    fn print<D: Display + Drop>(&self, value: D) -> io::Result<()> {
        let text = format!(in self.alloc; "{value}")?;
        add(&self.output, text.as_bytes())
    }

    fn println<D: Display + Drop>(&self, value: D) -> io::Result<()> {
        self.print(value)?;
        add(&self.output, b"\n")
    }

    fn write_all(&self, bytes: &[u8]) -> io::Result<()> {
        add(&self.output, bytes)
    }
}

impl Eprint for Machine<'_> {
    fn eprint<D: Display + Drop>(&self, value: D) -> io::Result<()> {
        let text = format!(in self.alloc; "{value}")?;
        add(&self.told, text.as_bytes())
    }

    fn eprintln<D: Display + Drop>(&self, value: D) -> io::Result<()> {
        self.eprint(value)?;
        add(&self.told, b"\n")
    }
}

impl Env for Machine<'_> {
    fn arg(&self, i: usize, buf: &mut [u8]) -> Result<usize, FillError> {
        let Some(word) = self.words.split(' ').filter(|it| !it.is_empty()).nth(i) else {
            return Err(FillError::NotPresent);
        };
        let Some(front) = buf.get_mut(..word.len()) else {
            return Err(FillError::TooLong);
        };
        front.copy_from_slice(word.as_bytes());
        Ok(word.len())
    }

    fn var(&self, _name: &str, _buf: &mut [u8]) -> Result<usize, FillError> {
        Err(FillError::NotPresent)
    }

    fn var_at(&self, _i: usize, _buf: &mut [u8]) -> Result<usize, FillError> {
        Err(FillError::NotPresent)
    }
}

impl rt::Clock for Machine<'_> {
    fn monotonic(&self) -> io::Result<Duration> {
        unsupported()
    }

    fn since_1970(&self) -> io::Result<Duration> {
        let passed = self.passed.get();
        self.passed.set(passed.saturating_add(self.pace));
        Ok(Duration::from_millis(1_700_000_000_900).saturating_add(Duration::from_secs(passed)))
    }
}

impl<'w> Files for Machine<'w> {
    type File = Page<'w>;

    type Dir = Page<'w>;

    fn open_file(&self, how: &OpenOptions, path: &str) -> io::Result<Page<'w>> {
        let mut world = borrowed(self.world)?;
        let place = match world.find(path) {
            Ok(_) if how.asks_create_new() => {
                return Err(io::Error::from(io::ErrorKind::AlreadyExists));
            }
            Err(e) if !how.asks_create_new() => return Err(e),
            Ok(place) => place,
            Err(_) => world.make_file(self.alloc, path)?,
        };
        Ok(Page {
            world: self.world,
            place,
            at: 0,
            most: self.most,
        })
    }

    fn open_dir(&self, _path: &str) -> io::Result<Page<'w>> {
        unsupported()
    }

    fn metadata(&self, _path: &str) -> io::Result<Metadata> {
        unsupported()
    }

    fn symlink_metadata(&self, _path: &str) -> io::Result<Metadata> {
        unsupported()
    }

    fn copy(&self, _from: &str, _to: &str) -> io::Result<u64> {
        unsupported()
    }

    fn rename(&self, _from: &str, _to: &str) -> io::Result<()> {
        unsupported()
    }

    fn remove_file(&self, _path: &str) -> io::Result<()> {
        unsupported()
    }

    fn create_dir(&self, path: &str) -> io::Result<()> {
        borrowed(self.world)?.make_folder(self.alloc, path)
    }

    fn remove_dir(&self, _path: &str) -> io::Result<()> {
        unsupported()
    }

    fn remove_dir_all<B: Allocator>(&self, _alloc: B, _path: &str) -> io::Result<()> {
        unsupported()
    }
}
