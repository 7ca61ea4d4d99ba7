//! What experts make of events.
use crate::messages::{event_text, fields_of, parts_of};
use crate::prefixes::{network_of, table_of};
use base_types::{OutOfMemory, Text, TextList};
use event_model::Fields;
use expert_rules::{DedupRule, FieldsList, dedup_fields, enrich, taxonomy};
use prefix_table::{NetworkList, PrefixTable};
use std::alloc::Global;

/// An event with its taxonomy.
pub fn classified(alloc: Global, case: &str) -> Result<String, OutOfMemory> {
    let fields = fields_of(alloc, case)?;
    event_text(alloc, taxonomy(alloc, &fields)?)
}

/// The fields that tell an event from others, where the names are those that count or, without `keep`, those that don't.
pub fn chosen(alloc: Global, keep: bool, case: &str) -> Result<String, OutOfMemory> {
    let (names, event) = parts_of(case);
    let rule = DedupRule {
        keys: names_in(alloc, names)?,
        keep,
        ttl: 60,
        cache_max: 1,
    };
    let fields = fields_of(alloc, event)?;
    event_text(alloc, dedup_fields(alloc, &rule, &fields)?)
}

// The names between commas; none in an empty text.
fn names_in(alloc: Global, text: &str) -> Result<TextList, OutOfMemory> {
    let mut names = Vec::new(alloc);
    if !text.is_empty() {
        for name in text.split(',') {
            names.push(Text::from(name.to_string(alloc)?))?;
        }
    }
    Ok(TextList::from(names))
}

/// An event with what the longest network that holds its address sets; each network stands with its fields behind ` | `.
pub fn enriched(alloc: Global, overwrite: bool, case: &str) -> Result<String, OutOfMemory> {
    let (event, networks) = parts_of(case);
    let rows = rows_in(alloc, networks)?;
    let table = table_of(alloc, &rows)?;
    let sets = sets_in(alloc, networks)?;
    enriched_by(alloc, &table, &sets, overwrite, event)
}

fn rows_in(alloc: Global, networks: &str) -> Result<NetworkList, OutOfMemory> {
    let mut rows = Vec::new(alloc);
    for part in networks.split(" | ") {
        let (network, _) = part.split_once(' ').unwrap_or((part, ""));
        rows.push(network_of(network)?)?;
    }
    Ok(NetworkList::from(rows))
}

fn sets_in(alloc: Global, networks: &str) -> Result<FieldsList, OutOfMemory> {
    let mut sets = Vec::new(alloc);
    for part in networks.split(" | ") {
        let (_, set) = part.split_once(' ').unwrap_or((part, ""));
        sets.push(fields_of(alloc, set)?)?;
    }
    Ok(FieldsList::from(sets))
}

fn enriched_by(
    alloc: Global,
    table: &PrefixTable,
    sets: &FieldsList,
    overwrite: bool,
    event: &str,
) -> Result<String, OutOfMemory> {
    if table.len() != sets.len() {
        return Ok("no set for each network".to_string(alloc)?);
    }
    let fields = fields_of(alloc, event)?;
    event_text(alloc, enrich(alloc, table, sets, overwrite, &fields)?)
}
