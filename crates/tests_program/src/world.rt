//! Files and folders in memory, which know what of them is durable.
ghost use Rattle.std.specs.Prelude.{IsErr};

use crate::made::{Lines, bytes_at};
use std::alloc::Global;
use std::io;

/// The name of the feed that is made as it is read.
pub const FEED: &str = "made.json";

/// The folder that another process works in.
pub const BUSY: &str = "busy";

/// What a path stands for: the feed, or a folder or a file by its number.
#[derive(Clone, Copy)]
pub enum Place {
    Feed,
    Folder(usize),
    File(usize),
}

#[derive(Drop)]
struct Folder {
    path: String,
    // Its name in the folder above is durable.
    is_named: bool,
}

// A file, and what was done to it since it was durable.
#[derive(Drop)]
struct Held {
    path: String,
    content: Vec<u8>,
    is_written: bool,
    is_resized: bool,
    is_named: bool,
}

impl Held {
    fn is_durable(&self) -> bool {
        !self.is_written && !self.is_resized && self.is_named
    }

    fn write(&mut self, at: usize, bytes: &[u8]) -> io::Result<()> {
        let Some(end) = at.checked_add(bytes.len()) else {
            return unsupported();
        };
        if end > self.content.len() {
            self.set_len(end)?;
        }
        self.is_written = true;
        if end <= self.content.len() {
            self.content[at..end].copy_from_slice(bytes);
        }
        Ok(())
    }

    fn set_len(&mut self, len: usize) -> io::Result<()> {
        self.is_resized = true;
        self.content.resize(len, 0)?;
        Ok(())
    }
}

/// What there is, and the calls that changed it or made it durable.
#[derive(Drop)]
pub struct World {
    feed: &'static [Lines],
    folders: Vec<Folder>,
    files: Vec<Held>,
    calls: u64,
    // The number of the call that fails, from 1; 0 where none does.
    failing: u64,
    // The calls, a line each.
    log: String,
    // Those that changed a file before what it rests on was durable.
    early: String,
}

/// The answer to a call that no command makes.
pub fn unsupported<T>() -> io::Result<T>
    ensures { IsErr result }
{
    Err(io::Error::from(io::ErrorKind::Unsupported))
}

fn not_found<T>() -> io::Result<T>
    ensures { IsErr result }
{
    Err(io::Error::from(io::ErrorKind::NotFound))
}

// The folder that a path stands in.
fn parent(path: &str) -> &str {
    match path.rsplit_once('/') {
        Some((folder, _)) => folder,
        None => ".",
    }
}

// A folder, where the end of the path names it once more.
fn without_dot(path: &str) -> &str {
    path.strip_suffix("/.").unwrap_or(path)
}

// Whether a file of a store rests on another: the root names the state that `gen-0` begins with, and an output has the lines of steps
// that stand there.
fn rests_on(path: &str, other: &str) -> bool {
    path.ends_with("/root") && other.ends_with("/gen-0")
        || path.ends_with("/out-0") && (other.ends_with("/gen-0") || other.ends_with("/root"))
}

impl World {
    /// A feed in the current folder, and the folder that another process works in. No call fails.
    pub fn new(alloc: Global, feed: &'static [Lines]) -> io::Result<World> {
        let mut folders = Vec::new(alloc);
        for path in [".", BUSY] {
            let path = path.to_string(alloc)?;
            folders.push(Folder {
                path,
                is_named: true,
            })?;
        }
        Ok(World {
            feed,
            folders,
            files: Vec::new(alloc),
            calls: 0,
            failing: 0,
            log: String::new(alloc),
            early: String::new(alloc),
        })
    }

    /// Puts a file there that is durable.
    pub fn put(&mut self, alloc: Global, path: &str, content: &[u8]) -> io::Result<()> {
        let path = path.to_string(alloc)?;
        let content = content.to_vec(alloc)?;
        self.files.push(Held {
            path,
            content,
            is_written: false,
            is_resized: false,
            is_named: true,
        })?;
        Ok(())
    }

    /// Forgets the calls so far, and has the call with this number from here on fail; none where it is 0.
    pub fn fail(&mut self, number: u64) {
        self.calls = 0;
        self.failing = number;
        self.log.clear();
        self.early.clear();
    }

    pub fn calls(&self) -> u64 {
        self.calls
    }

    pub fn log(&self) -> &str {
        self.log.as_str()
    }

    /// The calls that changed a file before all that it rests on was durable, a line each.
    pub fn early(&self) -> &str {
        self.early.as_str()
    }

    /// Whether all is durable as it is.
    pub fn is_durable(&self) -> bool {
        self.folders.iter().all(|it| it.is_named) && self.files.iter().all(|it| it.is_durable())
    }

    /// What a path stands for.
    pub fn find(&self, path: &str) -> io::Result<Place> {
        if path == FEED {
            return Ok(Place::Feed);
        }
        let folder = without_dot(path);
        if let Some(i) = self
            .folders
            .iter()
            .position(|it| it.path.as_str() == folder)
        {
            return Ok(Place::Folder(i));
        }
        match self.files.iter().position(|it| it.path.as_str() == path) {
            Some(i) => Ok(Place::File(i)),
            None => not_found(),
        }
    }

    /// Whether another process has locked this.
    pub fn is_locked(&self, place: Place) -> bool {
        match place {
            Place::Folder(i) => match self.folders.get(i) {
                Some(folder) => folder.path.as_str() == BUSY,
                None => false,
            },
            _ => false,
        }
    }

    /// What stands in a file from an offset on; of the feed some of it.
    pub fn bytes_from(&self, place: Place, at: u64) -> &[u8] {
        match place {
            Place::Feed => bytes_at(self.feed, at),
            Place::File(_) => self.content(place).get(at as usize..).unwrap_or(b""),
            Place::Folder(_) => b"",
        }
    }

    /// The bytes of a file; none of a folder or of the feed.
    pub fn content(&self, place: Place) -> &[u8] {
        match place {
            Place::File(i) => match self.files.get(i) {
                Some(file) => file.content.as_slice(),
                None => b"",
            },
            _ => b"",
        }
    }

    // Notes a call. It fails where it is the one that is to fail.
    fn call(&mut self, what: &str, path: &str) -> io::Result<()> {
        self.calls = self.calls.saturating_add(1);
        self.log.push_str(what)?;
        self.log.push_str(path)?;
        self.log.push_str("\n")?;
        if self.calls == self.failing {
            return Err(io::Error::from(io::ErrorKind::InvalidData));
        }
        Ok(())
    }

    /// Makes a folder.
    pub fn make_folder(&mut self, alloc: Global, path: &str) -> io::Result<()> {
        self.call("make ", path)?;
        let path = path.to_string(alloc)?;
        self.folders.push(Folder {
            path,
            is_named: false,
        })?;
        Ok(())
    }

    /// Makes a file in a folder that is there.
    pub fn make_file(&mut self, alloc: Global, path: &str) -> io::Result<Place> {
        self.call("new ", path)?;
        self.find(parent(path))?;
        let place = Place::File(self.files.len());
        let path = path.to_string(alloc)?;
        self.files.push(Held {
            path,
            content: Vec::new(alloc),
            is_written: false,
            is_resized: true,
            is_named: false,
        })?;
        Ok(place)
    }

    // Notes what changes a file.
    fn change(&mut self, what: &str, i: usize) -> io::Result<()> {
        let path = self.path_of(i)?;
        let is_early = self.files.iter().any(|it| rests_on(path.as_str(), it.path.as_str())
            && !it.is_durable());
        if is_early {
            self.early.push_str(what)?;
            self.early.push_str(path.as_str())?;
            self.early.push_str("\n")?;
        }
        self.call(what, path.as_str())
    }

    /// Writes bytes into a file, which is filled with zeros up to them where it is shorter.
    pub fn write(&mut self, place: Place, at: u64, bytes: &[u8]) -> io::Result<()> {
        let Place::File(i) = place else {
            return unsupported();
        };
        self.change("write ", i)?;
        match self.files.get_mut(i) {
            Some(file) => file.write(at as usize, bytes),
            None => not_found(),
        }
    }

    /// Gives a file a length.
    pub fn set_len(&mut self, place: Place, len: u64) -> io::Result<()> {
        let Place::File(i) = place else {
            return unsupported();
        };
        self.change("cut ", i)?;
        match self.files.get_mut(i) {
            Some(file) => file.set_len(len as usize),
            None => not_found(),
        }
    }

    /// Makes the bytes of a file durable, not its length.
    pub fn sync_bytes(&mut self, place: Place) -> io::Result<()> {
        let Place::File(i) = place else {
            return unsupported();
        };
        let path = self.path_of(i)?;
        self.call("sync-bytes ", path.as_str())?;
        if let Some(file) = self.files.get_mut(i) {
            file.is_written = false;
        }
        Ok(())
    }

    /// Makes the bytes and the length of a file durable; of a folder the names that stand there.
    pub fn sync(&mut self, place: Place) -> io::Result<()> {
        match place {
            Place::Folder(i) => self.sync_folder(i),
            Place::File(i) => self.sync_file(i),
            Place::Feed => unsupported(),
        }
    }

    fn sync_file(&mut self, i: usize) -> io::Result<()> {
        let path = self.path_of(i)?;
        self.call("sync ", path.as_str())?;
        if let Some(file) = self.files.get_mut(i) {
            file.is_written = false;
            file.is_resized = false;
        }
        Ok(())
    }

    fn sync_folder(&mut self, i: usize) -> io::Result<()> {
        let path = match self.folders.get(i) {
            Some(folder) => folder.path.clone()?,
            None => return not_found(),
        };
        self.call("sync ", path.as_str())?;
        for file in self.files.as_mut_slice() {
            if parent(file.path.as_str()) == path.as_str() {
                file.is_named = true;
            }
        }
        for folder in self.folders.as_mut_slice() {
            if parent(folder.path.as_str()) == path.as_str() {
                folder.is_named = true;
            }
        }
        Ok(())
    }

    fn path_of(&self, i: usize) -> io::Result<String> {
        match self.files.get(i) {
            Some(file) => Ok(file.path.clone()?),
            None => not_found(),
        }
    }
}
