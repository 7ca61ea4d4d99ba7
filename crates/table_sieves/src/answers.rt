//! What is answered to a case.
use crate::experts::{chosen, classified, enriched};
use crate::prefixes::{enriched_among, found, found_alike, found_among};
use crate::rules::{counted, counted_among, modified};
use crate::sieves::{listed, refusal, tree};
use crate::verdicts::{holders, verdict};
use base_types::OutOfMemory;
use std::alloc::{AllocError, Global};

/// The lines of the answer to a case, `CALL: INPUT`.
///
/// | Call | Input | Answer |
/// |---|---|---|
/// | `tree` | a sieve | its items, or why it is none |
/// | `reads` | a sieve | `a sieve`, or why it is none |
/// | `lists` | a sieve | its patterns, and its paths with their offsets |
/// | `run` | a sieve and an event | the paths or `dropped`, and the event that comes out; or the fault |
/// | `holds` | what is tested and an event | the fields of which it holds, of the event's and of `extra.none` |
/// | `taxonomy` | an event | the event with its taxonomy |
/// | `enrich`, `overwrite` | an event and networks with what they set | the event with what its network sets |
/// | `find` | an address and networks | which is the longest that holds it, from 0 |
/// | `find among` | an address and a number of networks | the same of that many |
/// | `find alike` | a seed, and numbers of networks and of addresses | how many are found as by a look at each network, and how many in none |
/// | `enrich among` | a number of networks, and how often each is looked up | how many of the events got the number of their network |
/// | `allow`, `deny` | names and an event | the fields that tell it from others |
/// | `rules` | rules that set fields | how many there are, or the first that is none, or that a limit is passed |
/// | `rules among` | a number and a rule | the same of so many rules |
/// | `modify`, `modify absent` | rules and an event | the event with what the rules set, in any case or where it is absent |
/// | `modify some` | a number of matches, rules and an event | the same, with at most so many rules that match |
pub fn answer(alloc: Global, line: &str) -> Result<String, AllocError> {
    let Some((call, input)) = line.split_once(": ") else {
        return "no case".to_string(alloc);
    };
    match answer_to(alloc, call, input) {
        Ok(answer) => Ok(answer),
        Err(OutOfMemory) => Err(AllocError),
    }
}

fn answer_to(alloc: Global, call: &str, input: &str) -> Result<String, OutOfMemory> {
    match call {
        "tree" => tree(alloc, input),
        "reads" => refusal(alloc, input),
        "lists" => listed(alloc, input),
        "run" => verdict(alloc, input),
        "holds" => holders(alloc, input),
        "taxonomy" => classified(alloc, input),
        "enrich" => enriched(alloc, false, input),
        "overwrite" => enriched(alloc, true, input),
        "find" => found(alloc, input),
        "find among" => found_among(alloc, input),
        "find alike" => found_alike(alloc, input),
        "enrich among" => enriched_among(alloc, input),
        "allow" => chosen(alloc, true, input),
        "deny" => chosen(alloc, false, input),
        "rules" => counted(alloc, input),
        "rules among" => counted_among(alloc, input),
        "modify" => modified(alloc, true, false, input),
        "modify absent" => modified(alloc, false, false, input),
        "modify some" => modified(alloc, true, true, input),
        _ => Ok("no call".to_string(alloc)?),
    }
}
