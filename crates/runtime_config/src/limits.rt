//! Limits of a bot, and of the bots together.
ghost use Rattle.std.specs.Prelude.{◌≡◌, ◌≤◌, ◌++◌, [], ◌∷◌, ◌||◌, false, length, unwrap_or, option_map, IfOk, OnOk};
ghost use Rattle.std.specs.List.{list_all, list_any};
ghost use Rattle.std.specs.Str.{bytes_eq};
ghost use Rattle.config_bundle.specs.Limits.{longest_file};
ghost use Rattle.runtime_config.specs.Faults.{is_route, most_rows, pass_together, passes_own};
ghost use Rattle.runtime_text.specs.Read.{entries_of, entry_of, members_of};
ghost use Rattle.runtime_config.specs.Sums.{new_bytes, passes_by, with_file, AreNumbers, AreSmall, AreSums};
ghost use Rattle.module_settings.specs.Table.{row_count};

use crate::file_rules::passes_rules;
use crate::rules::{content, file_of, table_text};
use base_types::{OutOfMemory, Text, TextList};
use config_bundle::{Bundle, LONGEST_FILE};
use module_settings::row_count;
use runtime_text::given::{lines, whole};
use runtime_text::{Bot, Object};
use std::alloc::Global;

const MOST_BOTS: usize = 64;

const MOST_INSTANCES: u64 = 128;

const MOST_ROWS: u64 = 100_000;

const MOST_ROWS_IN_ALL: u64 = 1_000_000;

const LONGEST_BUNDLE: u64 = 16_777_216;

const MOST_ROUTES: usize = 32;

const MOST_QUEUES: usize = 16;

const MOST_COLUMNS: usize = 256;

/// The numbers of a bot that count.
#[derive(Drop)]
pub(crate) struct Numbers {
    instances: u64,
    /// Those of its table.
    rows: u64,
    /// The name of its file.
    file: Option<Text>,
    /// The bytes of its file.
    length: u64,
    /// Whether it has too many rules that set fields, or too many patterns in them.
    many_rules: bool,
}

/// Their sums over bots. A file counts once.
#[derive(Drop)]
pub(crate) struct Sums {
    instances: u64,
    rows: u64,
    files: TextList,
    bytes: u64,
}

// How many rows a table has.
fn rows_of(table: Option<&[u8]>) -> u64
    ensures { result ≡ unwrap_or (option_map (λ b. row_count b.now) table.entry) 0 }
{
    match table {
        Some(bytes) => row_count(bytes) as u64,
        None => 0,
    }
}

// How many bytes a file has.
fn length_of(file: Option<&[u8]>) -> u64
    ensures { result ≡ length (unwrap_or (option_map (λ b. b.now) file.entry) []) }
{
    match file {
        Some(bytes) => bytes.len() as u64,
        None => 0,
    }
}

fn numbers_of(
    alloc: Global,
    bundle: &Bundle,
    global: &Object,
    bot: &Bot,
) -> Result<Numbers, OutOfMemory>
    ensures { IfOk result (AreNumbers bundle.now (members_of global.now) (entry_of bot.now)) }
{
    Ok(Numbers {
        instances: whole(alloc, global, bot, "instances_threads")?,
        rows: rows_of(table_text(alloc, bundle, global, bot)?),
        file: file_of(alloc, global, bot)?,
        length: length_of(content(alloc, bundle, global, bot)?),
        many_rules: passes_rules(alloc, bundle, global, bot)?,
    })
}

fn is_route(route: &(Text, TextList)) -> bool
    ensures { result ≡ is_route route.now }
{
    !route.1.is_empty() && route.1.len() <= MOST_QUEUES
}

fn are_routes(routes: &[(Text, TextList)]) -> bool
    ensures { result ≡ list_all is_route routes.now }
{
    routes.iter().all(|route| is_route(route))
}

// Whether a number of the bot itself is above its limit.
fn passes_own(
    alloc: Global,
    global: &Object,
    bot: &Bot,
    numbers: &Numbers,
) -> Result<bool, OutOfMemory>
    ensures { IfOk result (λ passes. passes ≡ passes_by (members_of global.now) (entry_of bot.now) numbers.now) }
{
    if bot.routes().len() > MOST_ROUTES || !are_routes(bot.routes()) {
        return Ok(true);
    }
    let columns = lines(alloc, global, bot, "columns")?;
    Ok(
        columns.len() > MOST_COLUMNS
            || numbers.rows > MOST_ROWS
            || numbers.length > LONGEST_FILE as u64
            || numbers.many_rules,
    )
}

fn is_named(files: &TextList, name: &Text) -> bool
    ensures { result ≡ list_any (bytes_eq name.now) files.now }
{
    files.as_slice().iter().any(|file| *name == *file)
}

// The bytes of a file that wasn't named before.
fn new_bytes(files: &TextList, name: &Option<Text>, length: u64) -> u64
    ensures { result ≡ new_bytes files.now name.now length }
{
    match name {
        Some(name) if !is_named(files, name) => length,
        _ => 0,
    }
}

fn push_file(files: &mut TextList, name: Option<Text>) -> Result<(), OutOfMemory>
    ensures { OnOk result (files.new ≡ with_file files.old name) }
{
    match name {
        Some(name) => match files.push(name) {
            Ok(()) => Ok(()),
            Err(_) => Err(OutOfMemory),
        },
        None => Ok(()),
    }
}

impl Sums {
    ghost use Rattle.runtime_config.specs.Sums.{added, are_past};

    /// Those of no bots.
    pub(crate) fn new(alloc: Global, bundle: &Bundle) -> Self
        ensures instances { result.instances ≡ 0 }
        ensures rows { result.rows ≡ 0 }
        ensures files { result.files ≡ [] }
        ensures bytes { result.bytes ≡ length bundle.now.runtime }
    {
        Sums {
            instances: 0,
            rows: 0,
            files: TextList::new(alloc),
            bytes: bundle.runtime.bytes().len() as u64,
        }
    }

    fn add(&mut self, numbers: Numbers) -> Result<(), OutOfMemory>
        requires small { AreSmall self.old }
        requires instances { numbers.instances ≤ 16 }
        requires rows { numbers.rows ≤ most_rows }
        requires length { numbers.length ≤ longest_file }
        ensures { OnOk result (self.new ≡ added self.old numbers) }
    {
        let bytes = new_bytes(&self.files, &numbers.file, numbers.length);
        push_file(&mut self.files, numbers.file)?;
        self.instances += numbers.instances;
        self.rows += numbers.rows * numbers.instances;
        self.bytes += bytes;
        Ok(())
    }

    // Whether one is above its limit, or there are more bots than there may be.
    fn are_past(&self, bots: usize) -> bool
        ensures { result ≡ are_past bots self.now }
    {
        bots > MOST_BOTS
            || self.instances > MOST_INSTANCES
            || self.rows > MOST_ROWS_IN_ALL
            || self.bytes > LONGEST_BUNDLE
    }
}

/// Whether a number of the bot is above its limit, or a sum over it and the bots before it. The sums become those with
/// this bot, unless one of its own numbers is.
pub(crate) fn is_past_limit(
    alloc: Global,
    bundle: &Bundle,
    global: &Object,
    before: &[Bot],
    bot: &Bot,
    sums: &mut Sums,
) -> Result<bool, OutOfMemory>
    requires sums { AreSums bundle.now (members_of global.now) (entries_of before.now) sums.old }
    requires small { AreSmall sums.old }
    ensures past { IfOk result (λ past. past ≡ (passes_own bundle.now (members_of global.now) (entry_of bot.now)
        || pass_together bundle.now (members_of global.now) (entries_of before.now ++ entry_of bot.now ∷ []))) }
    ensures sums { IfOk result (λ past. past ≡ false → AreSums bundle.now (members_of global.now) (entries_of before.now ++ entry_of bot.now ∷ []) sums.new) }
    ensures small { IfOk result (λ past. past ≡ false → AreSmall sums.new) }
{
    let numbers = numbers_of(alloc, bundle, global, bot)?;
    if passes_own(alloc, global, bot, &numbers)? {
        return Ok(true);
    }
    sums.add(numbers)?;
    Ok(sums.are_past(before.len() + 1))
}
