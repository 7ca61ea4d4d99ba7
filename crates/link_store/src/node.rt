//! What names an item.

/// Names an item that was pushed: its slot, and the number of its push. So an item that left is told from the one that took its slot.
#[derive(Clone, Copy, Debug, PartialEq, Eq)]
pub struct Node {
    pub(crate) slot: usize,
    pub(crate) number: u64,
}
