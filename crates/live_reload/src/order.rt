use base_types::Blob;

/// What is asked of a pipeline that is at work.
#[derive(Debug, Drop)]
pub enum Order {
    /// Nothing now.
    Nothing,
    /// The bundle of this code is put in force.
    Reload(Blob),
    /// Each feed that was read to its end begins anew.
    Round,
    /// The work ends.
    Stop,
    /// No more orders can be had.
    Failed,
    OutOfMemory,
}
