//! Tests of the store: journals and output files over the disk in memory.
#![tactic(auto)]

#[cfg(test)]
mod disks;
#[cfg(test)]
mod journals;
#[cfg(test)]
mod outputs;
#[cfg(test)]
mod same;
#[cfg(test)]
mod untold;
