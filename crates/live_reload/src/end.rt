/// What came of the last order that was asked for.
#[derive(Clone, Copy, Debug, PartialEq, Eq)]
pub enum OrdersEnd {
    /// A line was taken, or none was asked for yet, or there was no memory.
    Open,
    /// Control's end was met, and no further line is whole.
    AtEnd,
    /// Control failed.
    Control,
    /// The output failed at an answer.
    Sink,
}
