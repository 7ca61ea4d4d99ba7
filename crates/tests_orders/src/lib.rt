//! Tests of the lines of control.
#![tactic(auto)]

#[cfg(test)]
mod tests;
