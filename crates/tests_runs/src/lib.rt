//! Tests of a run of forty steps of all ten kinds: what crashes, failures and damage leave of it.
#![tactic(auto)]

#[cfg(test)]
mod crashes;
#[cfg(test)]
mod damages;
#[cfg(test)]
mod failures;
#[cfg(test)]
mod forty;
#[cfg(test)]
mod runs;
#[cfg(test)]
mod same;
#[cfg(test)]
mod stores;
