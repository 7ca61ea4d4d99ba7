/// What a call did to a file of a disk.
#[derive(Debug, Drop)]
pub enum Change {
    /// Bytes were written at an offset.
    Write { at: u64, bytes: Vec<u8> },
    /// A write of so many bytes failed. A read gives none of them, and a crash may leave any part.
    FailedWrite { at: u64, len: u64 },
    /// The file was cut to a length.
    Cut { len: u64 },
    /// A cut failed. A read doesn't show it, and a crash may leave any part.
    FailedCut { len: u64 },
    /// The file was made durable.
    Sync,
    /// A crash left this file.
    Found { bytes: Vec<u8> },
}

/// A call that changed a file, with its number.
#[derive(Debug, Drop)]
pub struct Entry {
    pub number: u64,
    pub file: u64,
    pub change: Change,
}
