//! What the list under the lock is made of.
use step_code::{Base, Step};

/// Why no further step is made in a round.
#[derive(Clone, Copy, Debug, PartialEq, Eq)]
pub enum EndMark {
    /// An order asked for it.
    Stop,
    /// The codes of the generation's steps have more than half of the bytes that they may have: the next generation is due.
    Half,
    /// The disk failed, and the book is broken.
    Broken,
}

/// An entry of the list. No value of it is made.
pub enum Entry<B> {
    /// The book as the round began: the first entry, which all seats share.
    Opened(B),
    /// A step, and the state in which it was made.
    Made { before: Base, step: Step },
    Marked(EndMark),
}
