//! Tests of the outside in memory.
#![tactic(auto)]

#[cfg(test)]
mod same;
#[cfg(test)]
mod tests;
