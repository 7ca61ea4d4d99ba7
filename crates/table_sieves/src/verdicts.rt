//! What a sieve makes of an event, at 1700000000 seconds after 1970.
use crate::messages::{event_text, fields_of, parts_of};
use crate::sieves::{fault_text, sieve_of};
use base_types::{Moment, OutOfMemory, Text};
use event_model::Fields;
use sieve_eval::{EvalFault, Fate, Prepared, Verdict};
use sieve_reader::{Sieve, SieveFault};
use std::alloc::Global;

const NOW: Moment = Moment(1_700_000_000);

/// What a sieve makes of an event: its paths or `dropped`, and below it the event that comes out; or the fault.
pub fn verdict(alloc: Global, case: &str) -> Result<String, OutOfMemory> {
    let (sieve, event) = parts_of(case);
    let fields = fields_of(alloc, event)?;
    verdict_by(alloc, &sieve_of(alloc, sieve), &fields)
}

fn verdict_by(
    alloc: Global,
    read: &Result<Sieve, SieveFault>,
    fields: &Fields,
) -> Result<String, OutOfMemory> {
    match read {
        Ok(sieve) => verdict_text(alloc, run(alloc, sieve, fields)),
        Err(fault) => fault_text(alloc, *fault),
    }
}

fn run(alloc: Global, sieve: &Sieve, fields: &Fields) -> Result<Verdict, EvalFault> {
    let mut prepared = Prepared::new(alloc, sieve)?;
    prepared.run(alloc, fields, NOW)
}

fn verdict_text(alloc: Global, found: Result<Verdict, EvalFault>) -> Result<String, OutOfMemory> {
    match found {
        Ok(verdict) => outcome(alloc, verdict),
        Err(EvalFault::OutOfMemory) => Err(OutOfMemory),
        Err(fault) => Ok(format!(in alloc; "{fault:?}")?),
    }
}

fn outcome(alloc: Global, verdict: Verdict) -> Result<String, OutOfMemory> {
    let fate = fate_text(alloc, &verdict.fate)?;
    let event = event_text(alloc, verdict.fields)?;
    Ok(format!(in alloc; "{fate}\n{event}")?)
}

fn fate_text(alloc: Global, fate: &Fate) -> Result<String, OutOfMemory> {
    match fate {
        Fate::Forward(paths) => paths_text(alloc, paths.as_slice()),
        Fate::Dropped => Ok("dropped".to_string(alloc)?),
    }
}

fn paths_text(alloc: Global, paths: &[Text]) -> Result<String, OutOfMemory> {
    let mut out = "on".to_string(alloc)?;
    for path in paths {
        out.push_str(" ")?;
        out.push_str(path.as_str())?;
    }
    Ok(out)
}

// A field that no event has here.
const ABSENT: &str = "extra.none";

/// The fields of which a test holds, of those of an event and of one that it hasn't.
pub fn holders(alloc: Global, case: &str) -> Result<String, OutOfMemory> {
    let (test, event) = parts_of(case);
    let fields = fields_of(alloc, event)?;
    holders_among(alloc, test, &fields)
}

fn holders_among(alloc: Global, test: &str, fields: &Fields) -> Result<String, OutOfMemory> {
    let mut out = "of".to_string(alloc)?;
    for (key, _) in fields.pairs() {
        push_if_held(&mut out, test, key.as_str(), fields)?;
    }
    push_if_held(&mut out, test, ABSENT, fields)?;
    if out.as_str() == "of" {
        out.push_str(" none")?;
    }
    Ok(out)
}

fn push_if_held(
    out: &mut String,
    test: &str,
    key: &str,
    fields: &Fields,
) -> Result<(), OutOfMemory> {
    let alloc = *out.allocator();
    let sieve = keeping(alloc, test, key)?;
    if is_kept(alloc, &sieve_of(alloc, sieve.as_str()), fields)? {
        write!(out, " {key}")?;
    }
    Ok(())
}

// Whether a sieve forwards an event. That it is a sieve, and that it has a verdict, is taken for granted.
fn is_kept(
    alloc: Global,
    read: &Result<Sieve, SieveFault>,
    fields: &Fields,
) -> Result<bool, OutOfMemory> {
    match read {
        Ok(sieve) => is_forwarded(&run(alloc, sieve, fields)),
        Err(_) => Err(OutOfMemory),
    }
}

fn is_forwarded(found: &Result<Verdict, EvalFault>) -> Result<bool, OutOfMemory> {
    match found {
        Ok(verdict) => Ok(matches!(verdict.fate, Fate::Forward(_))),
        Err(_) => Err(OutOfMemory),
    }
}

// A sieve that keeps an event exactly where the test of that field holds.
fn keeping(alloc: Global, test: &str, key: &str) -> Result<String, OutOfMemory> {
    if test == ":exists" || test == ":notexists" {
        return Ok(format!(in alloc; "if {test} {key} {{ keep }} drop")?);
    }
    Ok(format!(in alloc; "if {key} {test} {{ keep }} drop")?)
}
