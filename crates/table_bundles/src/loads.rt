//! What is wrong with bundles.
use crate::bundles::bundle_in;
use crate::texts::push_utf8;
use base_types::{BotName, OutOfMemory};
use runtime_config::{LoadFault, Plan, load};
use std::alloc::Global;

/// How many bots a bundle has, or what is wrong with it.
pub fn loaded(alloc: Global, case: &str) -> Result<String, OutOfMemory> {
    let bundle = bundle_in(alloc, case)?;
    load_text(alloc, &load(alloc, &bundle))
}

/// The same of the bundle whose bot `p` has this module and these parameters, and feeds an output `w`. It has a sieve in the file
/// `sieve`, a table in the file `table`, and no rules in the file `rules`.
pub fn loaded_with(alloc: Global, module: &str, parameters: &str) -> Result<String, OutOfMemory> {
    let case = format!(in alloc;
        "{{\"p\":{{\"module\":\"{module}\",\"parameters\":{{{parameters}}},\"destination_queues\":{{\"_default\":[\"w-queue\"]}}}},\"w\":{{\"module\":\"output.file\"}}}} | sieve=keep | table=network\\n | rules=[]"
    )?;
    loaded(alloc, case.as_str())
}

fn load_text(alloc: Global, loaded: &Result<Plan, LoadFault>) -> Result<String, OutOfMemory> {
    match loaded {
        Ok(plan) => Ok(format!(in alloc; "ok {}", plan.bots.len())?),
        Err(fault) => fault_text(alloc, fault),
    }
}

/// What is wrong, and with which bot.
pub fn fault_text(alloc: Global, fault: &LoadFault) -> Result<String, OutOfMemory> {
    match fault {
        LoadFault::Json => Ok("json".to_string(alloc)?),
        LoadFault::Module { bot } => with_bot(alloc, "module", bot),
        LoadFault::Parameter { bot, name } => with_word(alloc, "parameter", bot, name.as_str()),
        LoadFault::Missing { bot, name } => with_word(alloc, "missing", bot, name.as_str()),
        LoadFault::File { bot } => with_bot(alloc, "file", bot),
        LoadFault::Sieve { bot, fault } => {
            let fault = format!(in alloc; "{fault:?}")?;
            with_word(alloc, "sieve", bot, fault.as_str())
        }
        LoadFault::Path { bot, at } => with_number(alloc, "path", bot, *at),
        LoadFault::Cycle { bot } => with_bot(alloc, "cycle", bot),
        LoadFault::Limit { bot } => with_bot(alloc, "limit", bot),
        LoadFault::Queue { bot } => with_bot(alloc, "queue", bot),
        LoadFault::Table { bot, line } => with_number(alloc, "table", bot, *line),
        LoadFault::Rules { bot, rule } => with_number(alloc, "rules", bot, u64::from(*rule)),
        LoadFault::OutOfMemory => Err(OutOfMemory),
    }
}

fn with_bot(alloc: Global, cause: &str, bot: &BotName) -> Result<String, OutOfMemory> {
    let mut out = cause.to_string(alloc)?;
    out.push_str(" ")?;
    push_utf8(&mut out, bot.bytes())?;
    Ok(out)
}

fn with_word(alloc: Global, cause: &str, bot: &BotName, word: &str) -> Result<String, OutOfMemory> {
    let mut out = with_bot(alloc, cause, bot)?;
    out.push_str(" ")?;
    out.push_str(word)?;
    Ok(out)
}

fn with_number(
    alloc: Global,
    cause: &str,
    bot: &BotName,
    number: u64,
) -> Result<String, OutOfMemory> {
    let mut out = with_bot(alloc, cause, bot)?;
    write!(out, " {number}")?;
    Ok(out)
}
