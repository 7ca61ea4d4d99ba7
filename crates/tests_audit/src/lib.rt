//! Tests of what all generations of a store come to. Each is a script of a store's files and of what is changed in them (`script.rt`).
#![tactic(auto)]

#[cfg(test)]
mod files;
#[cfg(test)]
mod histories;
#[cfg(test)]
mod script;
