/// The longest runtime text of a bundle that loads, in bytes.
pub const LONGEST_RUNTIME: usize = 1_048_576;

/// The longest other file of a bundle that loads, in bytes.
pub const LONGEST_FILE: usize = 4_194_304;
