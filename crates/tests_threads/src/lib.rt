//! Tests of bots on threads, over a shelf and a disk in memory.
#![tactic(auto)]

#[cfg(test)]
mod controls;
#[cfg(test)]
mod failing;
#[cfg(test)]
mod lines;
#[cfg(test)]
mod meeting;
#[cfg(test)]
mod pipelines;
#[cfg(test)]
mod playing;
#[cfg(test)]
mod runs;
