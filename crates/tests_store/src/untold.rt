ghost use Rattle.std.specs.Prelude.{◌≡◌, ◌≤◌, None, ⊤, length};

use edge_traits::{Disk, Failed};
use std::alloc::Global;

/// A disk that tells nothing, as one over the system's files: what it reads stays as it was made, and it notes its calls
/// by their first letters.
#[derive(Debug, Drop)]
pub struct UntoldDisk {
    content: &'static [u8],
    short: ShortRead,
    failing_sync: u64,
    reads: u64,
    syncs: u64,
    faults: u64,
    trace: Vec<u8>,
}

/// The read with this number, from 1, gives so many bytes at most.
#[derive(Clone, Copy, Debug)]
pub struct ShortRead {
    pub number: u64,
    pub gives: usize,
}

impl UntoldDisk {
    pub fn new(alloc: Global, content: &'static [u8]) -> Self {
        UntoldDisk {
            content,
            short: ShortRead {
                number: 0,
                gives: 0,
            },
            failing_sync: 0,
            reads: 0,
            syncs: 0,
            faults: 0,
            trace: Vec::new(alloc),
        }
    }

    /// Has one read fall short.
    pub fn read_short(&mut self, short: ShortRead) {
        self.short = short;
    }

    /// Has the sync with this number, from 1, fail.
    pub fn fail_sync(&mut self, number: u64) {
        self.failing_sync = number;
    }

    /// A letter for each call.
    pub fn trace(&self) -> &[u8] {
        &self.trace
    }

    fn note(&mut self, call: u8)
        ensures { self.new ≡ record self.old { trace = self.new.trace } }
    {
        let _ = self.trace.push(call);
    }
}

impl Disk for UntoldDisk {
    ghost disk = { λ d. record { told = None; faults = d.faults; moment = 0; may_leave = λ _ _. ⊤; left_since = λ _ _. ⊤ } };

    fn len(&mut self, _file: u64) -> Result<u64, Failed> {
        self.note(b'l');
        Ok(self.content.len() as u64)
    }

    fn read_at(&mut self, _file: u64, at: u64, buf: &mut [u8]) -> Result<usize, Failed> {
        self.note(b'r');
        self.reads = self.reads.saturating_add(1);
        let most = if self.reads == self.short.number {
            self.short.gives
        } else {
            usize::MAX
        };
        Ok(copy_front(self.content, at, most, buf))
    }

    fn write_at(&mut self, _file: u64, _at: u64, _bytes: &[u8]) -> Result<(), Failed> {
        self.note(b'w');
        Ok(())
    }

    fn cut(&mut self, _file: u64, _len: u64) -> Result<(), Failed> {
        self.note(b'c');
        Ok(())
    }

    fn sync(&mut self, _file: u64) -> Result<(), Failed> {
        self.note(b's');
        self.syncs = self.syncs.saturating_add(1);
        if self.syncs == self.failing_sync {
            self.faults = self.faults.saturating_add(1);
            return Err(Failed);
        }
        Ok(())
    }

    ghost honest = { λ d files told file. tt };

    ghost counts_now = { λ d t image le now. tt };

    ghost only_now = { λ d image left file. tt };

    ghost earlier = { λ d s t image le left. tt };
}

// Fills the front of `buf` from the offset on, with so many bytes at most, and says how many.
fn copy_front(content: &[u8], at: u64, most: usize, buf: &mut [u8]) -> usize
    ensures { result ≤ length buf.new }
{
    let at = (at as usize).min(content.len());
    let rest = &content[at..];
    let n = rest.len().min(buf.len()).min(most);
    buf[..n].copy_from_slice(&rest[..n]);
    n
}
