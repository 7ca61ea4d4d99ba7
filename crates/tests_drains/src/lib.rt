//! Tests of drains over generations: a book whose limit is small begins new generations on the way, and everything else is as with a
//! large one. Each case is lines of data.
#![tactic(auto)]

#[cfg(test)]
mod cases;
#[cfg(test)]
mod feeds;
#[cfg(test)]
mod play;
#[cfg(test)]
mod recount;
#[cfg(test)]
mod same;
#[cfg(test)]
mod stores;
