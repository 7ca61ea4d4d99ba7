//! The sieve that a text writes, or the first thing in it that is wrong.
#![tactic(auto)]

mod action;
mod collect;
mod conds;
mod cursor;
mod fault;
mod laws;
mod leaf;
mod list;
mod sieve;
mod span;
mod statements;
mod symbol;
mod test;

pub use laws::{
    refusal_is_one, sieve_excludes_refusal, sieve_or_refusal, text_gives_one, text_writes_one_sieve,
};
pub use sieve::{SieveFault, read_sieve};
pub use sieve_tree::{
    Amount, Boxed, Case, CaseList, Cond, CondList, How, PathList, PutSource, Sieve, SieveItem,
    SieveItemList, Test, ValueList,
};
