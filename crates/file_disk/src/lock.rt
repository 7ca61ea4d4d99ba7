//! The lock by which one process at a time works on a store.

use std::fs::File;
use std::io;

/// An open file that can be locked against other processes.
pub trait TryLock {
    /// Takes the lock on the whole file, for as long as it is open.
    ///
    /// # Errors
    ///
    /// `WouldBlock` where another process has it, and what the system answers where it can't lock such a file.
    fn try_lock(&self) -> io::Result<()>;
}

impl TryLock for File {
    fn try_lock(&self) -> io::Result<()> {
        Ok(File::try_lock(self)?)
    }
}
