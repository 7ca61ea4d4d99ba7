//! Random legal histories of the core.
#![tactic(auto)]

#[cfg(test)]
mod candidates;
#[cfg(test)]
mod histories;
#[cfg(test)]
mod random;
#[cfg(test)]
mod same;
#[cfg(test)]
mod tally;
