//! What a text of a sieve is read as.
use crate::items::push_items;
use base_types::OutOfMemory;
use sieve_reader::{Sieve, SieveFault, read_sieve};
use std::alloc::Global;
use table_lines::{repeated, unescaped};

// No case has a longer text, in bytes.
const LONGEST: usize = 10_000_000;

/// The sieve of a case, whose text has escapes and repeats, or why it is none. A text that is too long counts as want of memory.
pub fn sieve_of(alloc: Global, case: &str) -> Result<Sieve, SieveFault> {
    let text = bytes_of(alloc, case)?;
    if text.len() > LONGEST {
        return Err(SieveFault::OutOfMemory);
    }
    read_sieve(alloc, &text)
}

fn bytes_of(alloc: Global, case: &str) -> Result<Vec<u8>, OutOfMemory> {
    let text = repeated(alloc, case)?;
    Ok(unescaped(alloc, text.as_str())?)
}

/// The items of a sieve, or why it is none.
pub fn tree(alloc: Global, case: &str) -> Result<String, OutOfMemory> {
    tree_text(alloc, &sieve_of(alloc, case))
}

fn tree_text(alloc: Global, read: &Result<Sieve, SieveFault>) -> Result<String, OutOfMemory> {
    match read {
        Ok(sieve) => items_text(alloc, sieve),
        Err(fault) => fault_text(alloc, *fault),
    }
}

fn items_text(alloc: Global, sieve: &Sieve) -> Result<String, OutOfMemory> {
    let mut out = String::new(alloc);
    push_items(&mut out, sieve.items().as_slice())?;
    if out.is_empty() {
        out.push_str("no items")?;
    }
    Ok(out)
}

/// Why a text is no sieve.
pub fn fault_text(alloc: Global, fault: SieveFault) -> Result<String, OutOfMemory> {
    match fault {
        SieveFault::OutOfMemory => Err(OutOfMemory),
        _ => Ok(format!(in alloc; "{fault:?}")?),
    }
}

/// Whether a text is a sieve, or why it is none.
pub fn refusal(alloc: Global, case: &str) -> Result<String, OutOfMemory> {
    match sieve_of(alloc, case) {
        Ok(_) => Ok("a sieve".to_string(alloc)?),
        Err(fault) => fault_text(alloc, fault),
    }
}

/// The patterns of a sieve and its paths with their offsets, a line each.
pub fn listed(alloc: Global, case: &str) -> Result<String, OutOfMemory> {
    list_text(alloc, &sieve_of(alloc, case))
}

fn list_text(alloc: Global, read: &Result<Sieve, SieveFault>) -> Result<String, OutOfMemory> {
    match read {
        Ok(sieve) => lists_of(alloc, sieve),
        Err(fault) => fault_text(alloc, *fault),
    }
}

fn lists_of(alloc: Global, sieve: &Sieve) -> Result<String, OutOfMemory> {
    let mut out = String::new(alloc);
    for pattern in sieve.patterns().as_slice() {
        let pattern = pattern.as_str();
        writeln!(out, "pattern {pattern}")?;
    }
    for (path, at) in sieve.paths() {
        let path = path.as_str();
        writeln!(out, "path {path} at {at}")?;
    }
    if out.is_empty() {
        out.push_str("nothing")?;
    }
    Ok(out)
}
