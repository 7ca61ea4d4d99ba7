//! Texts of numbers.
use base_types::OutOfMemory;
use scalar_net::{read_asn, read_ip};
use scalar_text::{print_decimal, print_time, read_decimal, read_port, read_time, read_whole};
use std::alloc::Global;

// The number that a call reads: of a decimal its millionths, of a time its seconds since 0001-01-01T00:00:00 UTC.
fn number(call: &str, text: &[u8]) -> Option<i128> {
    match call {
        "whole" => Some(i128::from(read_whole(text).ok()?)),
        "port" => Some(i128::from(read_port(text).ok()?)),
        "decimal" => Some(i128::from(read_decimal(text).ok()?)),
        "asn" => Some(i128::from(read_asn(text).ok()?)),
        "time" => Some(i128::from(read_time(text).ok()?)),
        _ => None,
    }
}

/// The number that a call reads from a text.
pub fn read(alloc: Global, call: &str, text: &[u8]) -> Result<String, OutOfMemory> {
    match number(call, text) {
        Some(number) => Ok(format!(in alloc; "{number}")?),
        None => Ok(String::from_str(alloc, "bad")?),
    }
}

/// The version of an address, and its bits as a number.
pub fn of_ip(alloc: Global, text: &str) -> Result<String, OutOfMemory> {
    match read_ip(text.as_bytes()) {
        Ok(ip) => {
            let version = if ip.six { 6u8 } else { 4u8 };
            let bits = ip.bits;
            Ok(format!(in alloc; "version {version}, {bits}")?)
        }
        Err(_) => Ok(String::from_str(alloc, "bad")?),
    }
}

/// The text of a decimal, by its millionths.
pub fn print_millionths(alloc: Global, number: &str) -> Result<String, OutOfMemory> {
    match number.parse() {
        Ok(number) => Ok(String::from_str(alloc, print_decimal(alloc, number)?.as_str())?),
        Err(_) => Ok(String::from_str(alloc, "no number")?),
    }
}

/// The text of a time, by its seconds.
pub fn print_seconds(alloc: Global, number: &str) -> Result<String, OutOfMemory> {
    match number.parse::<u64>() {
        Ok(seconds) if seconds <= 315_537_897_599 => Ok(String::from_str(
            alloc,
            print_time(alloc, seconds)?.as_str(),
        )?),
        _ => Ok(String::from_str(alloc, "no time")?),
    }
}
