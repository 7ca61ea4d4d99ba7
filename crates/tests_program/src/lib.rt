//! Tests of the program over a system in memory, also with a feed that comes in short reads and is longer than memory; of the order in
//! which it makes files durable; of the calls of its disk; of the drill's shelf; and of bytes, numbers and names. Sessions of commands are
//! lines of `table_pipelines`.
#![tactic(auto)]

#[cfg(test)]
mod calls;
#[cfg(test)]
mod drills;
#[cfg(test)]
mod ground;
#[cfg(test)]
mod long;
#[cfg(test)]
mod machine;
#[cfg(test)]
mod made;
#[cfg(test)]
mod runs;
#[cfg(test)]
mod same;
#[cfg(test)]
mod synced;
#[cfg(test)]
mod world;
