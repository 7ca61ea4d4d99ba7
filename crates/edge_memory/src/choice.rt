/// Which of the images of a crash is made.
#[derive(Clone, Copy, Debug, PartialEq, Eq)]
pub struct Choice {
    /// Each file is as a read gave it. The other two say what it is where this doesn't hold.
    pub keep: bool,
    /// The byte in every pending range.
    pub filler: u8,
    /// Each file is as long as a crash may leave it, and else as short.
    pub longest: bool,
}
