//! An open file, and what is left to do until it is durable.
ghost use Rattle.std.specs.Prelude.{◌≡◌, ◌≤◌, length, IfOk};

use std::fs::OpenFile;
use std::io;
use std::os::unix::fs::FileExt;

/// An open file of the store.
#[derive(Drop)]
pub(crate) struct Handle<F> {
    pub(crate) number: u64,
    file: F,
    // Bytes were written, or the length has changed, since the file was durable last.
    is_changed: bool,
    // The length has changed since then.
    is_resized: bool,
    /// Its name in its folder was made durable.
    pub(crate) is_named: bool,
}

impl<F: OpenFile + FileExt + Drop> Handle<F> {
    /// A file that was there. What an earlier process left of it in memory is made durable first, so that what is read of it
    /// is what a crash leaves. Its name may not be durable: that process may have ended before.
    pub(crate) fn found(number: u64, file: F) -> io::Result<Self> {
        file.sync_all()?;
        Ok(Handle {
            number,
            file,
            is_changed: false,
            is_resized: false,
            is_named: false,
        })
    }

    /// A file that was just made.
    pub(crate) fn made(number: u64, file: F) -> Self {
        Handle {
            number,
            file,
            is_changed: true,
            is_resized: true,
            is_named: false,
        }
    }

    pub(crate) fn len(&self) -> io::Result<u64> {
        Ok(self.file.metadata()?.len())
    }

    /// Fills the buffer from an offset on, as far as the file has bytes.
    pub(crate) fn read(&self, at: u64, buf: &mut [u8]) -> io::Result<usize>
        ensures { IfOk result (λ n. n ≤ length buf.new) }
    {
        let mut done = 0;
        'reads: for _ in 0..u64::MAX {
            if done == buf.len() {
                break;
            }
            match self
                .file
                .read_at(&mut buf[done..], at.saturating_add(done as u64))
            {
                Ok(0) => break,
                Ok(n) => done += n,
                Err(e) if e.kind() == io::ErrorKind::Interrupted => {}
                Err(e) => return Err(e),
            }
        }
        Ok(done)
    }

    pub(crate) fn write(&mut self, at: u64, bytes: &[u8]) -> io::Result<()> {
        if at.saturating_add(bytes.len() as u64) > self.len()? {
            self.is_resized = true;
        }
        self.is_changed = true;
        self.file.write_all_at(bytes, at)
    }

    pub(crate) fn cut(&mut self, len: u64) -> io::Result<()> {
        if len == self.len()? {
            return Ok(());
        }
        self.is_changed = true;
        self.is_resized = true;
        self.file.set_len(len)
    }

    /// Makes the bytes and the length durable. Where the length stayed, the bytes alone are cheaper.
    pub(crate) fn sync(&mut self) -> io::Result<()> {
        if self.is_resized {
            self.file.sync_all()?;
        } else {
            self.file.sync_data()?;
        }
        self.is_changed = false;
        self.is_resized = false;
        Ok(())
    }

    /// Nothing of the file is left to be made durable, so it may be closed and opened again.
    pub(crate) fn is_durable(&self) -> bool {
        !self.is_changed
    }
}
