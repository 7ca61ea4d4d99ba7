//! Look-ups by prefix.
use crate::messages::{fields_of, parts_of};
use base_types::{OutOfMemory, Text};
use event_model::Fields;
use expert_rules::{FieldsList, enrich};
use field_types::Value;
use prefix_table::{NetworkList, PrefixTable};
use scalar_net::{Ip, Network, holds, read_ip, read_network};
use std::alloc::Global;

/// The network that a word writes. Another word counts as want of memory, which ends the program.
pub fn network_of(word: &str) -> Result<Network, OutOfMemory> {
    match read_network(word.as_bytes()) {
        Ok(network) => Ok(network),
        Err(_) => Err(OutOfMemory),
    }
}

/// The table of these networks.
pub fn table_of(alloc: Global, rows: &NetworkList) -> Result<PrefixTable, OutOfMemory> {
    if rows.len() >= 1 << 31 {
        return Err(OutOfMemory);
    }
    PrefixTable::build(alloc, rows)
}

/// Which of the networks, from 0, is the longest that holds an address.
pub fn found(alloc: Global, case: &str) -> Result<String, OutOfMemory> {
    let (address, networks) = parts_of(case);
    let mut rows = Vec::new(alloc);
    for word in networks.split_whitespace() {
        rows.push(network_of(word)?)?;
    }
    place(alloc, &NetworkList::from(rows), address)
}

/// The same of so many networks: 10.0.0.0/24, 10.0.1.0/24, and so on.
pub fn found_among(alloc: Global, case: &str) -> Result<String, OutOfMemory> {
    let (address, number) = parts_of(case);
    let mut rows = Vec::new(alloc);
    for i in 0..number.parse::<u16>().unwrap_or(0) {
        let (high, low) = (i / 256, i % 256);
        let word = format!(in alloc; "10.{high}.{low}.0/24")?;
        rows.push(network_of(word.as_str())?)?;
    }
    place(alloc, &NetworkList::from(rows), address)
}

fn place(alloc: Global, rows: &NetworkList, address: &str) -> Result<String, OutOfMemory> {
    let table = table_of(alloc, rows)?;
    let Ok(ip) = read_ip(address.as_bytes()) else {
        return Ok("no address".to_string(alloc)?);
    };
    match table.find(&ip) {
        Some(row) => Ok(row.to_string(alloc)?),
        None => Ok("none".to_string(alloc)?),
    }
}

// The next of the numbers that a seed gives: Knuth's generator for 64 bits, of which the upper half is taken.
fn next_number(seed: &mut u64) -> u32 {
    *seed = seed
        .wrapping_mul(6_364_136_223_846_793_005)
        .wrapping_add(1_442_695_040_888_963_407);
    (*seed >> 32) as u32
}

// An address of either family, of which few bits differ from one to the next, with how many bits it has.
fn some_address(alloc: Global, seed: &mut u64) -> Result<(String, u32), OutOfMemory> {
    let bits = next_number(seed);
    let (a, b, c, d) = (bits >> 30, (bits >> 20) % 4, (bits >> 10) % 16, bits % 256);
    if next_number(seed) % 2 == 0 {
        Ok((format!(in alloc; "10.{a}.{b}.{d}")?, 32))
    } else {
        Ok((format!(in alloc; "2001:db8::{a}:{c}:{d}")?, 128))
    }
}

fn some_ip(alloc: Global, seed: &mut u64) -> Result<Ip, OutOfMemory> {
    let (address, _) = some_address(alloc, seed)?;
    match read_ip(address.as_bytes()) {
        Ok(ip) => Ok(ip),
        Err(_) => Err(OutOfMemory),
    }
}

// A network of at most 4,096 addresses.
fn some_network(alloc: Global, seed: &mut u64) -> Result<Network, OutOfMemory> {
    let (address, bits) = some_address(alloc, seed)?;
    let len = bits.saturating_sub(next_number(seed) % 13);
    network_of(format!(in alloc; "{address}/{len}")?.as_str())
}

fn some_networks(alloc: Global, seed: &mut u64, count: u16) -> Result<NetworkList, OutOfMemory> {
    let mut rows = Vec::new(alloc);
    for _ in 0..count {
        rows.push(some_network(alloc, seed)?)?;
    }
    Ok(NetworkList::from(rows))
}

// The place of the longest network that holds an address, the first of several as long, by a look at each.
fn plainly_found(rows: &[Network], ip: &Ip) -> Option<usize> {
    let mut longest: Option<(usize, u8)> = None;
    for (i, row) in rows.iter().enumerate() {
        if holds(row, ip) && is_longer(row.len, longest) {
            longest = Some((i, row.len));
        }
    }
    longest.map(|(i, _)| i)
}

fn is_longer(len: u8, longest: Option<(usize, u8)>) -> bool {
    match longest {
        Some((_, most)) => len > most,
        None => true,
    }
}

/// How many of so many addresses are found alike in a table of so many networks and by a look at each of them, and how many are in
/// none. All of them come from a seed.
pub fn found_alike(alloc: Global, case: &str) -> Result<String, OutOfMemory> {
    let (seed, counts) = parts_of(case);
    let (networks, addresses) = parts_of(counts);
    let mut seed = seed.parse::<u64>().unwrap_or(0);
    let rows = some_networks(alloc, &mut seed, networks.parse::<u16>().unwrap_or(0))?;
    let table = table_of(alloc, &rows)?;
    let (mut alike, mut none) = (0u16, 0u16);
    for _ in 0..addresses.parse::<u16>().unwrap_or(0) {
        let ip = some_ip(alloc, &mut seed)?;
        let found = table.find(&ip).map(|row| row as usize);
        alike = alike.saturating_add(u16::from(found == plainly_found(rows.as_slice(), &ip)));
        none = none.saturating_add(u16::from(found.is_none()));
    }
    Ok(format!(in alloc; "{alike} alike, {none} in none")?)
}

// The text of the i-th of the addresses 10.0.0.0, 10.0.0.1, and so on.
fn nth_address(alloc: Global, i: u32) -> Result<String, OutOfMemory> {
    let (high, mid, low) = (i / 65_536 % 256, i / 256 % 256, i % 256);
    Ok(format!(in alloc; "10.{high}.{mid}.{low}")?)
}

// The network of this address alone.
fn nth_network(alloc: Global, i: u32) -> Result<Network, OutOfMemory> {
    let address = nth_address(alloc, i)?;
    network_of(format!(in alloc; "{address}/32")?.as_str())
}

// An event from this address.
fn nth_event(alloc: Global, i: u32) -> Result<Fields, OutOfMemory> {
    let address = nth_address(alloc, i)?;
    let text = format!(in alloc; "{{\"source.ip\":\"{address}\"}}")?;
    fields_of(alloc, text.as_str())
}

// What the network of this address sets.
fn nth_set(alloc: Global, i: u32) -> Result<Fields, OutOfMemory> {
    let number = nth_number(i);
    let text = format!(in alloc; "{{\"source.asn\":{number}}}")?;
    fields_of(alloc, text.as_str())
}

fn nth_number(i: u32) -> i64 {
    i64::from(i) + 1
}

fn first_networks(alloc: Global, count: u32) -> Result<NetworkList, OutOfMemory> {
    let mut rows = Vec::new(alloc);
    for i in 0..count {
        rows.push(nth_network(alloc, i)?)?;
    }
    Ok(NetworkList::from(rows))
}

fn first_sets(alloc: Global, count: u32) -> Result<FieldsList, OutOfMemory> {
    let mut sets = Vec::new(alloc);
    for i in 0..count {
        sets.push(nth_set(alloc, i)?)?;
    }
    Ok(FieldsList::from(sets))
}

/// An event from each of so many addresses is enriched so many times, among networks of one address each: how often it gets the number
/// of its network.
pub fn enriched_among(alloc: Global, case: &str) -> Result<String, OutOfMemory> {
    let (networks, times) = parts_of(case);
    let count = networks.parse::<u32>().unwrap_or(0);
    let times = times.parse::<u16>().unwrap_or(0);
    let table = table_of(alloc, &first_networks(alloc, count)?)?;
    let numbered = numbered_in(alloc, &table, count, times)?;
    Ok(numbered.to_string(alloc)?)
}

fn numbered_in(
    alloc: Global,
    table: &PrefixTable,
    count: u32,
    times: u16,
) -> Result<u64, OutOfMemory> {
    let sets = first_sets(alloc, count)?;
    numbered_by(alloc, table, &sets, count, times)
}

fn numbered_by(
    alloc: Global,
    table: &PrefixTable,
    sets: &FieldsList,
    count: u32,
    times: u16,
) -> Result<u64, OutOfMemory> {
    let mut numbered = 0u64;
    for i in 0..count {
        let more = times_numbered(alloc, table, sets, i, times)?;
        numbered = numbered.saturating_add(u64::from(more));
    }
    Ok(numbered)
}

// How many of so many times the event from the i-th address gets its number.
fn times_numbered(
    alloc: Global,
    table: &PrefixTable,
    sets: &FieldsList,
    i: u32,
    times: u16,
) -> Result<u16, OutOfMemory> {
    let event = nth_event(alloc, i)?;
    let mut numbered = 0u16;
    for _ in 0..times {
        if is_numbered(alloc, table, sets, &event, i)? {
            numbered = numbered.saturating_add(1);
        }
    }
    Ok(numbered)
}

fn is_numbered(
    alloc: Global,
    table: &PrefixTable,
    sets: &FieldsList,
    event: &Fields,
    i: u32,
) -> Result<bool, OutOfMemory> {
    if table.len() != sets.len() {
        return Err(OutOfMemory);
    }
    let name = Text::from("source.asn".to_string(alloc)?);
    let enriched = enrich(alloc, table, sets, false, event)?;
    Ok(is_whole(enriched.get(&name), nth_number(i)))
}

fn is_whole(value: Option<&Value>, number: i64) -> bool {
    match value {
        Some(Value::Whole(n)) => *n == number,
        _ => false,
    }
}
