//! A bot with its checked parameters.
ghost use Rattle.std.specs.Prelude.{◌≡◌, ◌<◌, ◌^◌, ◌==◌, map, codes, None, Some, IfOk, MatchResult};
ghost use Rattle.std.specs.List.{slice_split};
ghost use Rattle.std.specs.Str.{bytes_eq};
ghost use Rattle.config_bundle.specs.declared.bundle.Bundle.{Bundle as AnyBundle};
ghost use Rattle.runtime_config.specs.Faults.{bot_sieve, content_fault, instances, rules_fault, table_fault, table_text};
ghost use Rattle.runtime_config.specs.Found.{IsFault, IsPlannedAs};
ghost use Rattle.runtime_config.specs.Shared.{AreShared};
ghost use Rattle.runtime_config.specs.Load.{is_allowing, module_as, names_of, planned, route_of, table_of};
ghost use Rattle.runtime_text.specs.Read.{entry_of, members_of};
ghost use Rattle.runtime_text.specs.Runtime.{line, module_of, routes, set_as, whole_in};
ghost use Rattle.module_settings.specs.declared.module.ModuleWord.TheVariants as modules;

use crate::file_rules::modify_rules;
use crate::rules::table_text;
use crate::{LoadFault, Module, NamesList, Planned, RouteList};
use base_types::{OutOfMemory, Text, TextList};
use config_bundle::Bundle;
use module_settings::{ModuleWord, Table, TableFault, copies_of, table_in};
use runtime_text::given::{defaults, line, line_given, lines, switch, whole};
use runtime_text::{Bot, Object};
use sieve_tree::Sieve;
use std::alloc::{AllocError, Global};

fn small(n: u64) -> u32
    requires { n < 2 ^ 32 }
    ensures { result ≡ n }
{
    n as u32
}

fn byte(n: u64) -> u8
    requires { n < 2 ^ 8 }
    ensures { result ≡ n }
{
    n as u8
}

// ---- the modules

fn chunk_size(alloc: Global, global: &Object, bot: &Bot) -> Result<u32, OutOfMemory>
    ensures { IfOk result (λ n. n ≡ whole_in (set_as (members_of global.now) (entry_of bot.now) (codes "chunk_size"))) }
{
    let bytes = whole(alloc, global, bot, "chunk_size")?;
    Ok(small(bytes))
}

fn collector(alloc: Global, global: &Object, bot: &Bot) -> Result<Module, OutOfMemory>
    ensures { IfOk result (λ m. (bundle : AnyBundle) → m ≡ module_as bundle (members_of global.now) (entry_of bot.now) (Some modules.Collector)) }
{
    Ok(Module::Collector {
        file: line(alloc, global, bot, "file")?,
        name: line(alloc, global, bot, "name")?,
        provider: line_given(alloc, global, bot, "provider")?,
        chunk_size: chunk_size(alloc, global, bot)?,
        replicate: switch(alloc, global, bot, "chunk_replicate_header")?,
    })
}

// The parts of a column between its bars.
fn parts_of(alloc: Global, column: &str) -> Result<Vec<&str>, AllocError>
    ensures { IfOk result (λ parts. map (λ part. part.now) parts.items ≡ slice_split (λ b. b == 124) column.now) }
{
    column.split('|').collect(alloc)
}

fn names_of(alloc: Global, column: &Text) -> Result<TextList, OutOfMemory>
    ensures { IfOk result (λ names. names ≡ names_of column.now) }
{
    let parts = parts_of(alloc, column.as_str())?;
    copies_of(alloc, &parts)
}

fn columns_of(alloc: Global, columns: &[Text]) -> Result<NamesList, OutOfMemory>
    ensures { IfOk result (λ names. names ≡ map names_of columns.now) }
{
    let mut names = Vec::with_capacity(alloc, columns.len())?;
    'columns: for column in columns {
        names.push(names_of(alloc, column)?)?;
    }
    Ok(NamesList::from(names))
}

fn delimiter(alloc: Global, global: &Object, bot: &Bot) -> Result<u8, OutOfMemory>
    ensures { IfOk result (λ n. n ≡ whole_in (set_as (members_of global.now) (entry_of bot.now) (codes "delimiter"))) }
{
    let code = whole(alloc, global, bot, "delimiter")?;
    Ok(byte(code))
}

fn csv(alloc: Global, global: &Object, bot: &Bot) -> Result<Module, OutOfMemory>
    ensures { IfOk result (λ m. (bundle : AnyBundle) → m ≡ module_as bundle (members_of global.now) (entry_of bot.now) (Some modules.Csv)) }
{
    let columns = lines(alloc, global, bot, "columns")?;
    let time_format = line_given(alloc, global, bot, "time_format")?;
    Ok(Module::Csv {
        columns: columns_of(alloc, columns.as_slice())?,
        delimiter: delimiter(alloc, global, bot)?,
        skip_header: switch(alloc, global, bot, "skip_header")?,
        defaults: defaults(alloc, global, bot, "default_fields")?,
        stamp: time_format.is_some(),
    })
}

fn json(alloc: Global, global: &Object, bot: &Bot) -> Result<Module, OutOfMemory>
    ensures { IfOk result (λ m. (bundle : AnyBundle) → m ≡ module_as bundle (members_of global.now) (entry_of bot.now) (Some modules.Json)) }
{
    Ok(Module::Json {
        style: line(alloc, global, bot, "style")?,
        defaults: defaults(alloc, global, bot, "default_fields")?,
    })
}

fn is_allowing(word: &Text) -> bool
    ensures { result ≡ is_allowing word.now }
{
    word.as_str() == "allow" || word.as_str() == "whitelist"
}

fn cache_max(alloc: Global, global: &Object, bot: &Bot) -> Result<u32, OutOfMemory>
    ensures { IfOk result (λ n. n ≡ whole_in (set_as (members_of global.now) (entry_of bot.now) (codes "cache_max"))) }
{
    let marks = whole(alloc, global, bot, "cache_max")?;
    Ok(small(marks))
}

fn dedup(alloc: Global, global: &Object, bot: &Bot) -> Result<Module, OutOfMemory>
    ensures { IfOk result (λ m. (bundle : AnyBundle) → m ≡ module_as bundle (members_of global.now) (entry_of bot.now) (Some modules.Dedup)) }
{
    let filter = line(alloc, global, bot, "filter_type")?;
    Ok(Module::Dedup {
        keys: lines(alloc, global, bot, "filter_keys")?,
        keep: is_allowing(&filter),
        ttl: whole(alloc, global, bot, "ttl")?,
        cache_max: cache_max(alloc, global, bot)?,
    })
}

// The table that is the bot's file.
fn table_of(alloc: Global, bundle: &Bundle, global: &Object, bot: &Bot) -> Result<Table, LoadFault>
    ensures { MatchResult result (λ table. (table_fault bundle.now (members_of global.now) (entry_of bot.now) ≡ None)
        × (table ≡ table_of (table_text bundle.now (members_of global.now) (entry_of bot.now))))
        (IsFault (table_fault bundle.now (members_of global.now) (entry_of bot.now))) }
{
    let Some(bytes) = table_text(alloc, bundle, global, bot)? else {
        return Ok(Table::new(alloc));
    };
    match table_in(alloc, bytes) {
        Ok(table) => Ok(table),
        Err(TableFault::Line(line)) => Err(LoadFault::Table {
            bot: bot.name(),
            line,
        }),
        Err(TableFault::OutOfMemory) => Err(LoadFault::OutOfMemory),
    }
}

fn prefix(alloc: Global, bundle: &Bundle, global: &Object, bot: &Bot) -> Result<Module, LoadFault>
    ensures { MatchResult result (λ m. (table_fault bundle.now (members_of global.now) (entry_of bot.now) ≡ None)
        × (m ≡ module_as bundle.now (members_of global.now) (entry_of bot.now) (Some modules.Prefix)))
        (IsFault (table_fault bundle.now (members_of global.now) (entry_of bot.now))) }
{
    Ok(Module::Prefix {
        table: table_of(alloc, bundle, global, bot)?,
        overwrite: switch(alloc, global, bot, "overwrite")?,
    })
}

// After how many rules that matched no other is tried.
fn most_matches(alloc: Global, global: &Object, bot: &Bot) -> Result<u32, OutOfMemory>
    ensures { IfOk result (λ n. n ≡ whole_in (set_as (members_of global.now) (entry_of bot.now) (codes "maximum_matches"))) }
{
    let matches = whole(alloc, global, bot, "maximum_matches")?;
    Ok(small(matches))
}

fn modify(alloc: Global, bundle: &Bundle, global: &Object, bot: &Bot) -> Result<Module, LoadFault>
    ensures { MatchResult result (λ m. (rules_fault bundle.now (members_of global.now) (entry_of bot.now) ≡ None)
        × (m ≡ module_as bundle.now (members_of global.now) (entry_of bot.now) (Some modules.Modify)))
        (IsFault (rules_fault bundle.now (members_of global.now) (entry_of bot.now))) }
{
    let overwrite = switch(alloc, global, bot, "overwrite")?;
    let most = most_matches(alloc, global, bot)?;
    let rules = modify_rules(alloc, bundle, global, bot)?;
    Ok(Module::Modify {
        rules,
        overwrite,
        most,
    })
}

fn module_of(
    alloc: Global,
    bundle: &Bundle,
    global: &Object,
    bot: &Bot,
    sieve: Sieve,
) -> Result<Module, LoadFault>
    requires { sieve ≡ bot_sieve bundle.now (members_of global.now) (entry_of bot.now) }
    ensures { MatchResult result (λ m. (content_fault bundle.now (members_of global.now) (entry_of bot.now) ≡ None)
        × (m ≡ module_as bundle.now (members_of global.now) (entry_of bot.now) (module_of (entry_of bot.now))))
        (IsFault (content_fault bundle.now (members_of global.now) (entry_of bot.now))) }
{
    match bot.module() {
        Some(ModuleWord::Collector) => Ok(collector(alloc, global, bot)?),
        Some(ModuleWord::Csv) => Ok(csv(alloc, global, bot)?),
        Some(ModuleWord::Json) => Ok(json(alloc, global, bot)?),
        Some(ModuleWord::Sieve) => Ok(Module::Sieve(sieve)),
        Some(ModuleWord::Dedup) => Ok(dedup(alloc, global, bot)?),
        Some(ModuleWord::Prefix) => prefix(alloc, bundle, global, bot),
        Some(ModuleWord::Taxonomy) => Ok(Module::Taxonomy),
        Some(ModuleWord::Modify) => modify(alloc, bundle, global, bot),
        Some(ModuleWord::Output) | None => Ok(Module::Output),
    }
}

// ---- the parameters of all bots

/// Those of a bot, as `Planned` has them.
#[derive(Clone, Copy)]
pub(crate) struct Shared {
    instances: u8,
    retries: u32,
    delay: u64,
    stop: bool,
}

fn instances(alloc: Global, global: &Object, bot: &Bot) -> Result<u8, OutOfMemory>
    ensures { IfOk result (λ n. n ≡ instances (members_of global.now) (entry_of bot.now)) }
{
    let threads = whole(alloc, global, bot, "instances_threads")?;
    Ok(byte(threads))
}

fn retries(alloc: Global, global: &Object, bot: &Bot) -> Result<u32, OutOfMemory>
    ensures { IfOk result (λ n. n ≡ whole_in (set_as (members_of global.now) (entry_of bot.now) (codes "error_max_retries"))) }
{
    let times = whole(alloc, global, bot, "error_max_retries")?;
    Ok(small(times))
}

fn stops(alloc: Global, global: &Object, bot: &Bot) -> Result<bool, OutOfMemory>
    ensures { IfOk result (λ stop. stop ≡ bytes_eq (line (members_of global.now) (entry_of bot.now) (codes "error_procedure")) (codes "stop")) }
{
    let procedure = line(alloc, global, bot, "error_procedure")?;
    Ok(procedure.as_str() == "stop")
}

// The parameters that all bots have.
fn shared_of(alloc: Global, global: &Object, bot: &Bot) -> Result<Shared, OutOfMemory>
    ensures { IfOk result (AreShared (members_of global.now) (entry_of bot.now)) }
{
    Ok(Shared {
        instances: instances(alloc, global, bot)?,
        retries: retries(alloc, global, bot)?,
        delay: whole(alloc, global, bot, "error_retry_delay")?,
        stop: stops(alloc, global, bot)?,
    })
}

/// A bot with its checked parameters, these paths and this sieve.
#[tactic(auto, unfolding(crate::specs::Load::planned))]
pub(crate) fn planned(
    alloc: Global,
    bundle: &Bundle,
    global: &Object,
    bot: &Bot,
    paths: RouteList,
    sieve: Sieve,
) -> Result<Planned, LoadFault>
    requires paths { paths ≡ map route_of (routes (entry_of bot.now)) }
    requires sieve { sieve ≡ bot_sieve bundle.now (members_of global.now) (entry_of bot.now) }
    ensures { IsPlannedAs (content_fault bundle.now (members_of global.now) (entry_of bot.now)) (planned bundle.now (members_of global.now) (entry_of bot.now)) result }
{
    let shared = shared_of(alloc, global, bot)?;
    // Nothing fails behind the module: at each such end its drop would be proved over all modules.
    let module = module_of(alloc, bundle, global, bot, sieve)?;
    Ok(Planned {
        bot: bot.name(),
        module,
        instances: shared.instances,
        retries: shared.retries,
        delay: shared.delay,
        stop: shared.stop,
        paths,
    })
}
