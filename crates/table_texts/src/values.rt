//! Texts of values.
use base_types::{Bad, OutOfMemory, ScalarFault, Text};
use scalar_net::{
    holds, is_plain_url, print_ip, print_network, read_fqdn, read_ip, read_network, read_url,
};
use scalar_text::{
    quote_decimals, read_class, read_flag, read_raw, read_registry, read_taxonomy, read_tlp,
    taxonomy_of, write_raw,
};
use std::alloc::Global;
use table_lines::{escaped, push_escaped};

fn ip(alloc: Global, text: &[u8]) -> Result<Text, ScalarFault> {
    match read_ip(text) {
        Ok(ip) => Ok(print_ip(alloc, &ip)?),
        Err(Bad) => Err(ScalarFault::Bad),
    }
}

fn network(alloc: Global, text: &[u8]) -> Result<Text, ScalarFault> {
    match read_network(text) {
        Ok(network) => Ok(print_network(alloc, &network)?),
        Err(Bad) => Err(ScalarFault::Bad),
    }
}

fn fqdn(alloc: Global, text: &[u8]) -> Result<Text, ScalarFault> {
    Ok(Text::from(read_fqdn(alloc, text)?.into_owned(alloc)?))
}

// The canonical text that a call reads.
fn canonical(alloc: Global, call: &str, text: &[u8]) -> Result<Text, ScalarFault> {
    match call {
        "ip" => ip(alloc, text),
        "network" => network(alloc, text),
        "fqdn" => fqdn(alloc, text),
        "url" => read_url(alloc, text),
        "tlp" => read_tlp(alloc, text),
        "registry" => read_registry(alloc, text),
        "class" => read_class(alloc, text),
        "taxonomy" => read_taxonomy(alloc, text),
        _ => Err(ScalarFault::Bad),
    }
}

fn line_of(alloc: Global, text: Result<Text, ScalarFault>) -> Result<String, OutOfMemory> {
    match text {
        Ok(text) => Ok(escaped(alloc, text.bytes())?),
        Err(ScalarFault::Bad) => Ok(String::from_str(alloc, "bad")?),
        Err(ScalarFault::OutOfMemory) => Err(OutOfMemory),
    }
}

/// The canonical text that a call reads, and in a further line what it reads from that, if it is another.
pub fn canonical_twice(alloc: Global, call: &str, text: &[u8]) -> Result<String, OutOfMemory> {
    match canonical(alloc, call, text) {
        Ok(once) => {
            let mut answer = escaped(alloc, once.bytes())?;
            let again = line_of(alloc, canonical(alloc, call, once.bytes()))?;
            if again != answer {
                answer.push_str("\nand then ")?;
                answer.push_str(again.as_str())?;
            }
            Ok(answer)
        }
        fault => line_of(alloc, fault),
    }
}

/// A word for a flag.
pub fn flag(alloc: Global, text: &[u8]) -> Result<String, OutOfMemory> {
    let word = match read_flag(text) {
        Ok(true) => "true",
        Ok(false) => "false",
        Err(Bad) => "bad",
    };
    Ok(String::from_str(alloc, word)?)
}

fn yes_or_no(alloc: Global, is: bool) -> Result<String, OutOfMemory> {
    Ok(String::from_str(alloc, if is { "yes" } else { "no" })?)
}

/// Whether a URL is seen to be one without its parser.
pub fn plain_url(alloc: Global, text: &str) -> Result<String, OutOfMemory> {
    yes_or_no(alloc, is_plain_url(text))
}

/// Whether a network holds an address, which stands behind it.
pub fn holds_address(alloc: Global, text: &str) -> Result<String, OutOfMemory> {
    let Some((network, address)) = text.split_once(" | ") else {
        return Ok(String::from_str(alloc, "no pair")?);
    };
    match (
        read_network(network.as_bytes()),
        read_ip(address.as_bytes()),
    ) {
        (Ok(network), Ok(address)) => yes_or_no(alloc, holds(&network, &address)),
        _ => Ok(String::from_str(alloc, "bad")?),
    }
}

/// The bytes that a base64 text stands for.
pub fn base64(alloc: Global, text: &[u8]) -> Result<String, OutOfMemory> {
    match read_raw(alloc, text) {
        Ok(bytes) => Ok(escaped(alloc, bytes.bytes())?),
        Err(ScalarFault::Bad) => Ok(String::from_str(alloc, "bad")?),
        Err(ScalarFault::OutOfMemory) => Err(OutOfMemory),
    }
}

/// The base64 text of bytes.
pub fn base64_of(alloc: Global, bytes: &[u8]) -> Result<String, OutOfMemory> {
    Ok(escaped(alloc, write_raw(alloc, bytes)?.bytes())?)
}

/// A JSON text with its decimals under quotes, and in a further line what becomes of that, if it is another.
pub fn quoted_twice(alloc: Global, text: &[u8]) -> Result<String, OutOfMemory> {
    let once = quote_decimals(alloc, text)?;
    let twice = quote_decimals(alloc, once.bytes())?;
    let mut answer = escaped(alloc, once.bytes())?;
    if twice.bytes() != once.bytes() {
        answer.push_str("\nand then ")?;
        push_escaped(&mut answer, twice.bytes())?;
    }
    Ok(answer)
}

/// The taxonomy of a type of incidents.
pub fn taxonomy(alloc: Global, class: &str) -> Result<String, OutOfMemory> {
    let class = Text::from(String::from_str(alloc, class)?);
    Ok(String::from_str(alloc, taxonomy_of(&class).unwrap_or("none"))?)
}
