//! Tests of the book over the disk in memory.
#![tactic(auto)]

#[cfg(test)]
mod books;
#[cfg(test)]
mod fixtures;
#[cfg(test)]
mod past;
#[cfg(test)]
mod renewed;
#[cfg(test)]
mod same;
#[cfg(test)]
mod sealed;
