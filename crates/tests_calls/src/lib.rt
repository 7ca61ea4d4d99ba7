//! Tests of commands on a store over the disk in memory.
#![tactic(auto)]

#[cfg(test)]
mod begun;
#[cfg(test)]
mod fixtures;
#[cfg(test)]
mod redone;
#[cfg(test)]
mod same;
#[cfg(test)]
mod shown;
