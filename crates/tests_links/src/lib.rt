//! Tests of the lists by index.
#![tactic(auto)]

#[cfg(test)]
mod beside;
#[cfg(test)]
mod rows;
