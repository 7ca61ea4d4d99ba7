//! Tests of the lock, over a list of numbers.
#![tactic(auto)]

mod numbers;
#[cfg(test)]
mod turns;

pub use numbers::Numbers;
