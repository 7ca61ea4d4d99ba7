//! The keys that a bot has let through, each with its moment: a list of marks, the oldest first, and a map from keys.
//!
//! A key is found by one look-up, and the oldest mark leaves the front of the list and, by its key, the map: no call but
//! those that take or give a whole list goes through all marks. The map is ordered by the keys' bytes: whoever writes a
//! feed chooses its keys, and no choice makes a look-up in an ordered map slow, as it does in one by hashes of a known seed.
#![tactic(auto)]

mod cache;
mod kept;
mod moments;
mod row;

pub use cache::Cache;
