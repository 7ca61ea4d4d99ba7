//! What bots report and give, at 1700000000 seconds after 1970.
use crate::facts::code_in;
use crate::texts::{blob_of, push_note, push_utf8};
use base_types::{Blob, BotName, Moment, NoteList, OutOfMemory, SendList};
use bot_rules::{IntelRules, IntelWork};
use std::alloc::Global;
use step_code::{Given, PlanFault, Rules, bot_named, collects, is_collector};

const NOW: Moment = Moment(1_700_000_000);

/// The report that a collector of a bundle makes of a piece of its feed.
pub fn reported(alloc: Global, bot: &str, case: &str) -> Result<String, OutOfMemory> {
    let Some((bundle, piece)) = case.split_once(" <- ") else {
        return Ok("no piece".to_string(alloc)?);
    };
    let Some(code) = code_in(alloc, bundle)? else {
        return Ok("no bundle".to_string(alloc)?);
    };
    let Ok(name) = BotName::new(bot.as_bytes()) else {
        return Ok("no name".to_string(alloc)?);
    };
    let piece = blob_of(alloc, piece)?;
    report_text(alloc, report_of(alloc, &code, &name, &piece)?)
}

fn report_text(alloc: Global, report: Option<Blob>) -> Result<String, OutOfMemory> {
    let mut out = String::new(alloc);
    match report {
        Some(report) => push_utf8(&mut out, report.bytes())?,
        None => out.push_str("no collector")?,
    }
    Ok(out)
}

// The report of a piece; `None` where there is no plan, or the bot is no collector of it.
fn report_of(
    alloc: Global,
    code: &Blob,
    name: &BotName,
    piece: &Blob,
) -> Result<Option<Blob>, OutOfMemory> {
    let rules = IntelRules::new();
    match rules.plan(alloc, code) {
        Ok(plan) => {
            if is_collector(rules.facts(&plan).as_slice(), name) {
                some(rules.report(alloc, &plan, name, piece, NOW))
            } else {
                Ok(None)
            }
        }
        Err(PlanFault::Refused) => Ok(None),
        Err(PlanFault::OutOfMemory) => Err(OutOfMemory),
    }
}

// A plan is dropped at each end of the function that holds it, so that `?` stands there nowhere.
fn some<T: Drop>(made: Result<T, OutOfMemory>) -> Result<Option<T>, OutOfMemory> {
    match made {
        Ok(value) => Ok(Some(value)),
        Err(OutOfMemory) => Err(OutOfMemory),
    }
}

/// What a bot of a bundle makes of messages, one after the other, with `--` between them.
pub fn given(alloc: Global, bot: &str, case: &str) -> Result<String, OutOfMemory> {
    let Some((bundle, bodies)) = case.split_once(" <- ") else {
        return Ok("no message".to_string(alloc)?);
    };
    let Some(code) = code_in(alloc, bundle)? else {
        return Ok("no bundle".to_string(alloc)?);
    };
    let Ok(name) = BotName::new(bot.as_bytes()) else {
        return Ok("no name".to_string(alloc)?);
    };
    all_given(alloc, work_of(alloc, &code, &name)?, bodies)
}

// The bot, ready for work; `None` where there is no plan, or the bot is none of it or a collector.
fn work_of(alloc: Global, code: &Blob, name: &BotName) -> Result<Option<IntelWork>, OutOfMemory> {
    let rules = IntelRules::new();
    match rules.plan(alloc, code) {
        Ok(plan) => match bot_named(rules.facts(&plan).as_slice(), name) {
            Some(facts) => {
                if collects(facts) {
                    Ok(None)
                } else {
                    some(rules.work(alloc, &plan, name))
                }
            }
            None => Ok(None),
        },
        Err(PlanFault::Refused) => Ok(None),
        Err(PlanFault::OutOfMemory) => Err(OutOfMemory),
    }
}

fn all_given(alloc: Global, work: Option<IntelWork>, bodies: &str) -> Result<String, OutOfMemory> {
    match work {
        Some(mut work) => given_each(alloc, &mut work, bodies),
        None => Ok("no bot".to_string(alloc)?),
    }
}

fn given_each(alloc: Global, work: &mut IntelWork, bodies: &str) -> Result<String, OutOfMemory> {
    let mut out = String::new(alloc);
    for body in bodies.split(" <- ") {
        if !out.is_empty() {
            out.push_str("--\n")?;
        }
        let body = blob_of(alloc, body)?;
        let given = IntelRules::new().give(alloc, work, &body, NOW)?;
        push_given(&mut out, &given)?;
    }
    Ok(out)
}

// A line for each body that is sent, for each that is put aside, for the key, and for a line of an output; or the fault.
fn push_given(out: &mut String, given: &Given) -> Result<(), OutOfMemory> {
    match given {
        Given::Pass {
            sends,
            dumps,
            key,
            line,
        } => push_pass(out, sends, dumps, key, *line),
        Given::Fault(note) => {
            out.push_str("fault ")?;
            push_note(out, note)?;
            out.push_str("\n")?;
            Ok(())
        }
    }
}

fn push_pass(
    out: &mut String,
    sends: &SendList,
    dumps: &NoteList,
    key: &Option<Blob>,
    line: bool,
) -> Result<(), OutOfMemory> {
    push_sends(out, sends)?;
    push_dumps(out, dumps)?;
    push_key(out, key)?;
    if line {
        out.push_str("line\n")?;
    }
    if sends.is_empty() && dumps.is_empty() && key.is_none() && !line {
        out.push_str("nothing\n")?;
    }
    Ok(())
}

fn push_sends(out: &mut String, sends: &SendList) -> Result<(), OutOfMemory> {
    for (queue, body) in sends.as_slice() {
        push_utf8(out, queue.bytes())?;
        out.push_str(" ")?;
        push_utf8(out, body.bytes())?;
        out.push_str("\n")?;
    }
    Ok(())
}

fn push_dumps(out: &mut String, dumps: &NoteList) -> Result<(), OutOfMemory> {
    for (body, note) in dumps.as_slice() {
        out.push_str("dump ")?;
        push_note(out, note)?;
        out.push_str(": ")?;
        push_utf8(out, body.bytes())?;
        out.push_str("\n")?;
    }
    Ok(())
}

fn push_key(out: &mut String, key: &Option<Blob>) -> Result<(), OutOfMemory> {
    if let Some(key) = key {
        out.push_str("key ")?;
        push_utf8(out, key.bytes())?;
        out.push_str("\n")?;
    }
    Ok(())
}
