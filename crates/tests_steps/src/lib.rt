//! Tests of the core: which steps it refuses, and what each step leaves. Each is a script of steps and states
//! (`script.rt`); and of what is printed of a state.
#![tactic(auto)]

#[cfg(test)]
mod answers;
#[cfg(test)]
mod marks;
#[cfg(test)]
mod printed;
#[cfg(test)]
mod refusals;
#[cfg(test)]
mod results;
#[cfg(test)]
mod script;
#[cfg(test)]
mod states;
#[cfg(test)]
mod stored;
