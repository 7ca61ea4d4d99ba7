ghost use Rattle.std.specs.Prelude.{◌≡◌, ◌≢◌, ◌≤◌, ◌<◌, length, List, ℕ, None, IfOk, IfSome, OnOk};
ghost use Rattle.edge_traits.specs.Count.{Rose};
ghost use Rattle.file_disk.specs.Untold.{untold};

use crate::folder::{lock_folder, parent_of, path_in, sync_folder};
use crate::handle::Handle;
use crate::lock::TryLock;
use crate::names::file_name;
use base_types::Text;
use edge_traits::{Disk, Failed};
use std::alloc::Global;
use std::fs::OpenOptions;
use std::os::unix::fs::FileExt;
use std::rt::Files;
use std::{fs, io};

// Where so many files are open, one that is durable is closed before another is opened.
const MOST_OPEN: usize = 32;

// What is known of the folder.
#[derive(Drop)]
enum FolderState<F> {
    // It wasn't looked for yet.
    Unknown,
    // It wasn't there when it was looked for.
    Absent,
    // It is open and locked.
    Locked { _open: F },
}

/// The files of a store in a folder of the system. It tells nothing of what they hold: that they keep what the trait says of
/// a disk is the system's matter.
///
/// Nothing is made before the first write: of a file that isn't there the length is 0. A file that is written first is
/// made, and its folder where that isn't there. A sync makes a new file's entry in its folder durable too.
///
/// The folder is locked before anything is read or written there, until the disk is dropped: two processes that worked on one
/// store would write over each other's steps. While another has the lock, each call fails.
#[derive(Drop)]
pub struct FolderDisk<'a, R: Files> {
    alloc: Global,
    files: &'a R,
    folder: &'a Text,
    state: FolderState<R::File>,
    // The files that are open.
    handles: Vec<Handle<R::File>>,
    faults: u64,
}

impl<'a, R: Files> FolderDisk<'a, R>
where
    R::File: FileExt + TryLock,
{
    /// The files of this folder, which need not be there. It takes no memory.
    pub fn new(alloc: Global, files: &'a R, folder: &'a Text) -> Self
        ensures told { (⟦<FolderDisk<'a, R> as Disk>⟧.disk result).told ≡ None }
        ensures faults { (⟦<FolderDisk<'a, R> as Disk>⟧.disk result).faults ≡ 0 }
        ensures moment { (⟦<FolderDisk<'a, R> as Disk>⟧.disk result).moment ≡ 0 }
        // A crash may leave anything: what is said of what it leaves is said of disks that tell more.
        ensures anything { (file : ℕ) (content : List ℕ) → (⟦<FolderDisk<'a, R> as Disk>⟧.disk result).may_leave file content }
    {
        FolderDisk {
            alloc,
            files,
            folder,
            state: FolderState::Unknown,
            handles: Vec::new(alloc),
            faults: 0,
        }
    }

    // An empty path is the current folder.
    fn folder(&self) -> &str {
        if self.folder.as_str().is_empty() {
            "."
        } else {
            self.folder.as_str()
        }
    }

    fn fail(&mut self) -> Failed
        ensures failed { Rose self.old.faults self.new.faults }
        ensures count { self.old.faults ≤ self.new.faults }
    {
        self.faults = self.faults.saturating_add(1);
        Failed
    }

    // Locks the folder, if it is there.
    fn lock(&mut self) -> io::Result<bool>
        ensures same { self.new ≡ record self.old { state = self.new.state } }
    {
        match lock_folder(self.alloc, self.files, self.folder())? {
            Some(open) => {
                self.state = FolderState::Locked { _open: open };
                Ok(true)
            }
            None => {
                self.state = FolderState::Absent;
                Ok(false)
            }
        }
    }

    // Whether the folder is there. It is locked then. One that wasn't there stays so until it is made here.
    fn is_locked(&mut self) -> io::Result<bool>
        ensures same { self.new ≡ record self.old { state = self.new.state } }
    {
        match self.state {
            FolderState::Unknown => self.lock(),
            FolderState::Absent => Ok(false),
            FolderState::Locked { .. } => Ok(true),
        }
    }

    // Makes the folder where it isn't there, and makes its name durable: one that is there may have been made by a process that
    // ended too early. One that wasn't there and is there now is another process's, and is refused.
    fn make_folder(&mut self) -> io::Result<()>
        ensures same { self.new ≡ record self.old { state = self.new.state } }
    {
        if !self.is_locked()? {
            fs::create_dir(self.files, self.folder())?;
            if !self.lock()? {
                return Err(io::ErrorKind::NotFound.into());
            }
        }
        sync_folder(self.files, parent_of(self.folder()))
    }

    // The place of a file's handle. A file that isn't open is opened; one that isn't there has none.
    fn find(&mut self, file: u64) -> io::Result<Option<usize>>
        ensures place { IfOk result (λ place. IfSome place (λ i. i < length self.new.handles.items)) }
        ensures faults { self.new.faults ≡ self.old.faults }
    {
        if let Some(i) = self.handles.iter().position(|h| h.number == file) {
            return Ok(Some(i));
        }
        if !self.is_locked()? {
            return Ok(None);
        }
        let Some(name) = file_name(self.alloc, file)? else {
            return Err(io::ErrorKind::InvalidInput.into());
        };
        let path = path_in(self.alloc, self.folder(), &name)?;
        match OpenOptions::new()
            .read(true)
            .write(true)
            .open(self.files, path.as_str())
        {
            Ok(open) => {
                let handle = Handle::found(file, open)?;
                self.keep(handle)
            }
            Err(e) if e.kind() == io::ErrorKind::NotFound => Ok(None),
            Err(e) => Err(e),
        }
    }

    fn keep(&mut self, handle: Handle<R::File>) -> io::Result<Option<usize>>
        ensures place { IfOk result (λ place. IfSome place (λ i. i < length self.new.handles.items)) }
        ensures faults { self.new.faults ≡ self.old.faults }
    {
        if self.handles.len() >= MOST_OPEN
            && let Some(i) = self.handles.iter().position(Handle::is_durable)
        {
            self.handles.swap_remove(i);
        }
        let place = self.handles.len();
        self.handles.push(handle)?;
        Ok(Some(place))
    }

    // The place of a file's handle. A file that isn't there is made, and its folder.
    fn find_or_make(&mut self, file: u64) -> io::Result<Option<usize>>
        ensures place { IfOk result (λ place. IfSome place (λ i. i < length self.new.handles.items)) }
        ensures faults { self.new.faults ≡ self.old.faults }
    {
        if let Some(i) = self.find(file)? {
            return Ok(Some(i));
        }
        let Some(name) = file_name(self.alloc, file)? else {
            return Err(io::ErrorKind::InvalidInput.into());
        };
        let path = path_in(self.alloc, self.folder(), &name)?;
        self.make_folder()?;
        let open = OpenOptions::new()
            .read(true)
            .write(true)
            .create_new(true)
            .open(self.files, path.as_str())?;
        self.keep(Handle::made(file, open))
    }

    fn try_len(&mut self, file: u64) -> io::Result<u64>
        ensures faults { self.new.faults ≡ self.old.faults }
    {
        match self.find(file)? {
            Some(i) => self.handles[i].len(),
            None => Ok(0),
        }
    }

    fn try_read(&mut self, file: u64, at: u64, buf: &mut [u8]) -> io::Result<usize>
        ensures within { IfOk result (λ n. n ≤ length buf.new) }
        ensures faults { self.new.faults ≡ self.old.faults }
    {
        match self.find(file)? {
            Some(i) => self.handles[i].read(at, buf),
            None => Ok(0),
        }
    }

    fn try_write(&mut self, file: u64, at: u64, bytes: &[u8]) -> io::Result<()>
        ensures faults { self.new.faults ≡ self.old.faults }
    {
        match self.find_or_make(file)? {
            Some(i) => self.handles[i].write(at, bytes),
            None => Err(io::ErrorKind::NotFound.into()),
        }
    }

    fn try_cut(&mut self, file: u64, len: u64) -> io::Result<()>
        ensures faults { self.new.faults ≡ self.old.faults }
    {
        match self.find(file)? {
            Some(i) => self.handles[i].cut(len),
            None => Ok(()),
        }
    }

    fn try_sync(&mut self, file: u64) -> io::Result<()>
        ensures faults { self.new.faults ≡ self.old.faults }
    {
        let Some(i) = self.find(file)? else {
            return Ok(());
        };
        self.handles[i].sync()?;
        if !self.handles[i].is_named {
            sync_folder(self.files, self.folder())?;
            self.handles[i].is_named = true;
        }
        Ok(())
    }
}

impl<R: Files> Disk for FolderDisk<'_, R>
where
    R::File: FileExt + TryLock,
{
    // A crash may leave anything, as far as anybody is told.
    ghost disk = { λ d. untold d.faults };

    fn len(&mut self, file: u64) -> Result<u64, Failed> {
        match self.try_len(file) {
            Ok(len) => Ok(len),
            Err(_) => Err(self.fail()),
        }
    }

    fn read_at(&mut self, file: u64, at: u64, buf: &mut [u8]) -> Result<usize, Failed> {
        match self.try_read(file, at, buf) {
            Ok(n) => Ok(n),
            Err(_) => Err(self.fail()),
        }
    }

    fn write_at(&mut self, file: u64, at: u64, bytes: &[u8]) -> Result<(), Failed> {
        match self.try_write(file, at, bytes) {
            Ok(()) => Ok(()),
            Err(_) => Err(self.fail()),
        }
    }

    fn cut(&mut self, file: u64, len: u64) -> Result<(), Failed> {
        match self.try_cut(file, len) {
            Ok(()) => Ok(()),
            Err(_) => Err(self.fail()),
        }
    }

    fn sync(&mut self, file: u64) -> Result<(), Failed> {
        match self.try_sync(file) {
            Ok(()) => Ok(()),
            Err(_) => Err(self.fail()),
        }
    }

    ghost honest = { λ d files told file. tt };

    ghost counts_now = { λ d t image le now. tt };

    ghost only_now = { λ d image left file. tt };

    ghost earlier = { λ d s t image le left. tt };
}
