/// Why an earlier generation could not be read. The book stays as it was.
#[derive(Clone, Copy, Debug, PartialEq, Eq)]
pub enum PastFault {
    Disk,
    /// The bytes of the generation's file from this offset on are none that a store has there.
    Damaged { file: u64, at: u64 },
    OutOfMemory,
}
