//! The limits of a pipeline's state and steps that more than one crate keeps.

/// The last moment that a step may have: the last second of the year 9999.
pub const LAST_MOMENT: u64 = 253_402_300_799;

/// No feed is read behind this offset in bytes.
pub const LONGEST_FEED: u64 = 1_073_741_824;

/// The longest code of a state, in bytes.
pub const LONGEST_BASE: u64 = 268_435_456;

/// The last number that may be given, as to a message, a bundle or a generation; and the most bytes of an output.
pub const LAST_GIVEN: u64 = 1 << 62;

/// Nothing is collected while the bodies in live queues have so many bytes together.
pub const BACKLOG_LIMIT: u64 = 8_388_608;
