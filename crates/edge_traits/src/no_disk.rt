ghost use Rattle.std.specs.Prelude.{◌≡◌, ◌≤◌, [], ℕ, Some};
ghost use Rattle.edge_traits.specs.Count.{Rose};
ghost use Rattle.edge_traits.specs.NoFiles.{no_files, no_file_has_more};

use crate::{Disk, Failed};

/// A disk whose every call fails. All of its files are empty.
#[derive(Clone, Copy, Debug, Default)]
pub struct NoDisk {
    faults: u64,
}

impl NoDisk {
    pub fn new() -> Self {
        NoDisk::default()
    }

    fn fail(&mut self) -> Failed
        ensures failed { Rose self.old.faults self.new.faults }
        ensures count { self.old.faults ≤ self.new.faults }
    {
        self.faults = self.faults.saturating_add(1);
        Failed
    }
}

impl Disk for NoDisk {
    ghost disk = { λ d. record { told = Some no_files; faults = d.faults; moment = 0; may_leave = λ _ c. c ≡ []; left_since = λ _ image. (file : ℕ) → image file ≡ [] } };

    fn len(&mut self, _file: u64) -> Result<u64, Failed> {
        Err(self.fail())
    }

    fn read_at(&mut self, _file: u64, _at: u64, _buf: &mut [u8]) -> Result<usize, Failed> {
        Err(self.fail())
    }

    fn write_at(&mut self, _file: u64, _at: u64, _bytes: &[u8]) -> Result<(), Failed> {
        Err(self.fail())
    }

    fn cut(&mut self, _file: u64, _len: u64) -> Result<(), Failed> {
        Err(self.fail())
    }

    fn sync(&mut self, _file: u64) -> Result<(), Failed> {
        Err(self.fail())
    }

    ghost honest = { λ d files told file. no_file_has_more files told file };

    ghost counts_now = { λ d t image le now. now };

    ghost only_now = { λ d image left. left };

    ghost earlier = { λ d s t image le left. left };
}
