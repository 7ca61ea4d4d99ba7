//! Modules with their parameters as texts.
use base_types::{OutOfMemory, Text, TextList};
use runtime_config::Module;
use sieve_tree::Sieve;

/// Appends the word of a module and its parameters.
pub fn push_module(out: &mut String, module: &Module) -> Result<(), OutOfMemory> {
    match module {
        Module::Collector {
            file,
            name,
            provider,
            chunk_size,
            replicate,
        } => push_collector(out, file, name, provider, *chunk_size, *replicate),
        Module::Csv {
            columns,
            delimiter,
            skip_header,
            stamp,
            ..
        } => push_csv(out, columns.as_slice(), *delimiter, *skip_header, *stamp),
        Module::Json { style, .. } => push_words(out, "json ", style.as_str()),
        Module::Sieve(sieve) => push_sieve(out, sieve),
        Module::Dedup {
            keys,
            keep,
            ttl,
            cache_max,
        } => push_dedup(out, keys, *keep, *ttl, *cache_max),
        Module::Prefix { table, overwrite } => {
            let rows = table.rows();
            push_prefix(out, rows.networks.len(), rows.sets.len(), *overwrite)
        }
        Module::Taxonomy => push_words(out, "taxonomy", ""),
        Module::Modify {
            rules,
            overwrite,
            most,
        } => push_modify(out, rules.len(), *overwrite, *most),
        Module::Output => push_words(out, "output", ""),
    }
}

fn push_words(out: &mut String, first: &str, second: &str) -> Result<(), OutOfMemory> {
    out.push_str(first)?;
    out.push_str(second)?;
    Ok(())
}

fn push_collector(
    out: &mut String,
    file: &Text,
    name: &Text,
    provider: &Option<Text>,
    chunk_size: u32,
    replicate: bool,
) -> Result<(), OutOfMemory> {
    let file = file.as_str();
    let name = name.as_str();
    let known = provider.is_some();
    write!(
        out,
        "collector {file} {name} {known} {chunk_size} {replicate}"
    )?;
    Ok(())
}

fn push_csv(
    out: &mut String,
    columns: &[TextList],
    delimiter: u8,
    skip_header: bool,
    stamp: bool,
) -> Result<(), OutOfMemory> {
    write!(out, "csv {delimiter} {skip_header} {stamp}")?;
    for column in columns {
        out.push_str(" ")?;
        push_names(out, column)?;
    }
    Ok(())
}

fn push_sieve(out: &mut String, sieve: &Sieve) -> Result<(), OutOfMemory> {
    let items = sieve.items().len();
    let patterns = sieve.patterns().len();
    write!(out, "sieve {items} {patterns}")?;
    for (name, at) in sieve.paths() {
        let name = name.as_str();
        write!(out, " {name} {at}")?;
    }
    Ok(())
}

fn push_dedup(
    out: &mut String,
    keys: &TextList,
    keep: bool,
    ttl: u64,
    cache_max: u32,
) -> Result<(), OutOfMemory> {
    out.push_str("dedup ")?;
    push_names(out, keys)?;
    write!(out, " {keep} {ttl} {cache_max}")?;
    Ok(())
}

fn push_prefix(
    out: &mut String,
    networks: usize,
    sets: usize,
    overwrite: bool,
) -> Result<(), OutOfMemory> {
    write!(out, "prefix {networks} {sets} {overwrite}")?;
    Ok(())
}

fn push_modify(
    out: &mut String,
    rules: usize,
    overwrite: bool,
    most: u32,
) -> Result<(), OutOfMemory> {
    write!(out, "modify {rules} {overwrite} {most}")?;
    Ok(())
}

// Names, each with a bar behind it.
fn push_names(out: &mut String, names: &TextList) -> Result<(), OutOfMemory> {
    for name in names.as_slice() {
        out.push_str(name.as_str())?;
        out.push_str("|")?;
    }
    Ok(())
}
