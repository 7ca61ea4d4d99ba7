//! The calls of the cases.
use crate::{edits, fields, inputs, messages, numbers, sieves, statuses, values, words};
use base_types::OutOfMemory;
use event_json::Cleaner;
use std::alloc::{AllocError, Global};
use table_lines::unescaped;

/// The lines of the answer to a case. All cases may share one cleaner, as the lines of a feed do.
pub fn answer(alloc: Global, cleaner: &mut Cleaner, case: &str) -> Result<String, AllocError> {
    match answer_to(alloc, cleaner, case) {
        Ok(answer) => Ok(answer),
        Err(OutOfMemory) => Err(AllocError),
    }
}

fn answer_to(alloc: Global, cleaner: &mut Cleaner, case: &str) -> Result<String, OutOfMemory> {
    let Some((call, input)) = case.split_once(':') else {
        return Ok(String::from_str(alloc, "no case")?);
    };
    let input = input.strip_prefix(' ').unwrap_or(input);
    let (call, input) = match call.strip_prefix("long ") {
        Some(call) => (call, inputs::built(alloc, input)?),
        None => (call, unescaped(alloc, input)?),
    };
    answer_of_line(alloc, cleaner, call, &input)
}

// Calls on lines of JSON.
fn answer_of_line(
    alloc: Global,
    cleaner: &mut Cleaner,
    call: &str,
    line: &[u8],
) -> Result<String, OutOfMemory> {
    match call {
        "line" => messages::lenient(alloc, cleaner, line),
        "message" => messages::strict(alloc, line),
        "count fields" => messages::count(alloc, line),
        _ => answer_of_bytes(alloc, call, line),
    }
}

// Calls on any bytes.
fn answer_of_bytes(alloc: Global, call: &str, bytes: &[u8]) -> Result<String, OutOfMemory> {
    match call {
        "ip" | "network" | "fqdn" | "url" | "tlp" | "registry" | "class" | "taxonomy" => {
            values::canonical_twice(alloc, call, bytes)
        }
        "whole" | "port" | "decimal" | "asn" | "time" => numbers::read(alloc, call, bytes),
        "flag" => values::flag(alloc, bytes),
        "base64" => values::base64(alloc, bytes),
        "base64 of" => values::base64_of(alloc, bytes),
        "quote decimals" => values::quoted_twice(alloc, bytes),
        "type" => fields::kind(alloc, bytes),
        "tokens" => sieves::tokens_of(alloc, bytes),
        "count tokens" => sieves::count_tokens(alloc, bytes),
        "content" => sieves::content_of(alloc, bytes),
        "keyword" => sieves::keyword(alloc, bytes),
        "sign" => sieves::sign(alloc, bytes),
        _ => match std::str::from_utf8(bytes) {
            Ok(text) => answer_of_text(alloc, call, text),
            Err(_) => Ok(String::from_str(alloc, "no text")?),
        },
    }
}

// Calls on a text.
fn answer_of_text(alloc: Global, call: &str, text: &str) -> Result<String, OutOfMemory> {
    match call {
        "ip number" => numbers::of_ip(alloc, text),
        "print decimal" => numbers::print_millionths(alloc, text),
        "print time" => numbers::print_seconds(alloc, text),
        "holds" => values::holds_address(alloc, text),
        "plain url" => values::plain_url(alloc, text),
        "taxonomy of" => values::taxonomy(alloc, text),
        "clean text" | "clean whole" | "clean decimal" | "clean flag" | "clean list" => {
            fields::clean(alloc, call, text)
        }
        "edits" => edits::edits(alloc, text),
        "words" => words::command(alloc, text),
        "run words" => words::run(alloc, text),
        "no words" => words::no_words(alloc),
        "status" => statuses::status(alloc, text),
        "falling tree" => messages::falling(alloc, text),
        _ => Ok(String::from_str(alloc, "no call")?),
    }
}
