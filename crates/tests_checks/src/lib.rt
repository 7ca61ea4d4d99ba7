//! Tests of which stored steps may be taken. Each is a script of states and steps (`script.rt`).
#![tactic(auto)]

#[cfg(test)]
mod faults;
#[cfg(test)]
mod passes;
#[cfg(test)]
mod plain;
#[cfg(test)]
mod script;
