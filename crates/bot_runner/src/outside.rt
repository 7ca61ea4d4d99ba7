use std::alloc::Global;

/// When a round ends ahead of its workers.
#[derive(Clone, Copy, Debug)]
pub struct Until {
    /// Where it has so many steps, if that is bounded.
    pub left: Option<u64>,
    /// Where control has more than so many bytes, if it is watched.
    pub control: Option<u64>,
}

/// What all parts of a round go by: the clock, the gate, and when the round ends.
#[derive(Drop)]
pub(crate) struct Outside<'r, C, G> {
    pub(crate) alloc: Global,
    pub(crate) clock: &'r C,
    pub(crate) gate: &'r G,
    pub(crate) left: Option<u64>,
    pub(crate) control: Option<u64>,
}
