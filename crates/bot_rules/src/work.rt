//! A bot that is ready for work.
ghost use Rattle.std.specs.Prelude.{◌≡◌, false, Some, IfOk, IsSome, option_map};
ghost use Rattle.bot_rules.specs.Jobs.{csv_rule, dedup_rule, job_of, json_rule, style_of, table_of};
ghost use Rattle.bot_rules.specs.Facts.{has_feed};
ghost use Rattle.bot_rules.specs.Intel.{bot_gives, planned_in};

use crate::copies::{columns_of, copy_routes, copy_texts};
use crate::facts::{DEFAULT_PATH, queues_on};
use crate::give::body_gives;
use crate::{Change, IntelPlan, Job, ModifyJob, SieveJob, Table};
use base_types::{Blob, BotName, Moment, OutOfMemory, QueueList, Text, TextList};
use event_model::Fields;
use expert_modify::{ModifyRules, PreparedRules};
use expert_rules::DedupRule;
use feed_csv::CsvRule;
use feed_json::{JsonRule, Style};
use runtime_config::{Module, NamesList, Planned, Route};
use sieve_eval::Prepared;
use sieve_tree::Sieve;
use std::alloc::Global;
use std::marker::Model;
use std::snapshot::Snapshot;
use step_code::Given;

/// A bot of a bundle that is ready for work. Contracts see the bundle's bytes and the bot's name.
#[derive(Drop)]
pub struct IntelWork {
    plan: Snapshot<IntelPlan>,
    bot: BotName,
    queues: QueueList,
    job: Job,
}

impl Model for IntelWork {
    ghost use Rattle.step_code.specs.Rules.{Task};
    ghost use Rattle.bot_rules.specs.Ready.{IsWorkOf};

    ghost Value = { Task };

    ghost view = { λ w. record { bundle = w.plan.value.bundle; bot = w.bot } };

    ghost invariant = { λ w. IsWorkOf (record { bundle = w.plan.value.bundle; bot = w.bot }) w.queues w.job };
}

fn style_of(word: &Text) -> Style
    ensures { result ≡ style_of word.now }
{
    if word.as_str() == "object" {
        Style::Object
    } else if word.as_str() == "array" {
        Style::Array
    } else {
        Style::Lines
    }
}

fn csv(
    alloc: Global,
    columns: &NamesList,
    delimiter: u8,
    skip_header: bool,
    defaults: &Fields,
    stamp: bool,
) -> Result<Job, OutOfMemory>
    ensures { IfOk result (λ job. job ≡ Job.Csv (csv_rule columns.now delimiter skip_header defaults.now stamp)) }
{
    Ok(Job::Csv(CsvRule {
        columns: columns_of(alloc, stamp, columns.as_slice())?,
        delimiter,
        skip_header,
        defaults: defaults.copy(alloc)?,
    }))
}

fn json(alloc: Global, style: &Text, defaults: &Fields) -> Result<Job, OutOfMemory>
    ensures { IfOk result (λ job. job ≡ Job.Json (json_rule style.now defaults.now)) }
{
    Ok(Job::Json(JsonRule {
        style: style_of(style),
        defaults: defaults.copy(alloc)?,
    }))
}

// A sieve's patterns are built here, once for all messages.
fn sieve_job(alloc: Global, sieve: &Sieve, routes: &[Route]) -> Result<SieveJob, OutOfMemory>
    ensures { IfOk result (λ job. job ≡ record { sieve = sieve.now; routes = routes.now }) }
{
    Ok(SieveJob {
        sieve: Prepared::new(alloc, sieve)?,
        routes: copy_routes(alloc, routes)?,
    })
}

fn dedup(
    alloc: Global,
    keys: &TextList,
    keep: bool,
    ttl: u64,
    cache_max: u32,
) -> Result<Job, OutOfMemory>
    ensures { IfOk result (λ job. job ≡ Job.Dedup (dedup_rule keys.now keep ttl cache_max)) }
{
    Ok(Job::Dedup(DedupRule {
        keys: copy_texts(alloc, keys.as_slice())?,
        keep,
        ttl,
        cache_max,
    }))
}

// A prefix expert shares the table of its plan.
fn prefix(table: &Option<Table>) -> Result<Job, OutOfMemory>
    requires { IsSome table.now }
    ensures { IfOk result (λ job. option_map (λ rows. Job.Change (Change.Prefix rows)) table.now ≡ Some job) }
{
    match table {
        Some(table) => Ok(Job::Change(Change::Prefix(table.share()?))),
        None => unreachable!(),
    }
}

// The patterns of rules are built here, once for all messages.
fn modify(
    alloc: Global,
    rules: &ModifyRules,
    overwrite: bool,
    most: u32,
) -> Result<Job, OutOfMemory>
    ensures { IfOk result (λ job. job ≡ Job.Change (Change.Modify (record { rules = rules.now; overwrite = overwrite; most = most }))) }
{
    Ok(Job::Change(Change::Modify(ModifyJob {
        rules: PreparedRules::new(alloc, rules)?,
        overwrite,
        most,
    })))
}

// What a bot with these paths and this module, which is no collector's, does with messages.
fn job_of(
    alloc: Global,
    routes: &[Route],
    module: &Module,
    table: &Option<Table>,
) -> Result<Job, OutOfMemory>
    requires works { has_feed module.now ≡ false }
    requires table { table.now ≡ table_of module.now }
    ensures { IfOk result (λ job. job_of routes.now module.now ≡ Some job) }
{
    match module {
        Module::Collector { .. } => unreachable!(),
        Module::Csv {
            columns,
            delimiter,
            skip_header,
            defaults,
            stamp,
        } => csv(alloc, columns, *delimiter, *skip_header, defaults, *stamp),
        Module::Json { style, defaults } => json(alloc, style, defaults),
        Module::Sieve(sieve) => Ok(Job::Sieve(sieve_job(alloc, sieve, routes)?)),
        Module::Dedup {
            keys,
            keep,
            ttl,
            cache_max,
        } => dedup(alloc, keys, *keep, *ttl, *cache_max),
        Module::Prefix { .. } => prefix(table),
        Module::Taxonomy => Ok(Job::Change(Change::Taxonomy)),
        Module::Modify {
            rules,
            overwrite,
            most,
        } => modify(alloc, rules, *overwrite, *most),
        Module::Output => Ok(Job::Output),
    }
}

impl IntelWork {
    /// The work of a planned bot of a bundle that is no collector.
    pub(crate) fn new(
        alloc: Global,
        plan: &IntelPlan,
        bot: &BotName,
        planned: &Planned,
        table: &Option<Table>,
    ) -> Result<IntelWork, OutOfMemory>
        requires planned { planned_in (record { bundle = plan.now.bundle; bot = bot.now }) ≡ Some planned.now }
        requires works { has_feed planned.now.«module» ≡ false }
        requires table { table.now ≡ table_of planned.now.«module» }
        ensures { IfOk result (λ work. work ≡ record { bundle = plan.now.bundle; bot = bot.now }) }
    {
        Ok(IntelWork {
            plan: Snapshot::of(plan),
            bot: *bot,
            queues: queues_on(alloc, DEFAULT_PATH, planned.paths.as_slice())?,
            job: job_of(alloc, planned.paths.as_slice(), &planned.module, table)?,
        })
    }

    /// What the bot makes of a body that it took at a moment.
    pub(crate) fn give(
        &mut self,
        alloc: Global,
        body: &Blob,
        since: Moment,
    ) -> Result<Given, OutOfMemory>
        ensures given { IfOk result (λ g. g ≡ bot_gives (planned_in self.old) since.0 body.now) }
        ensures same { self.new ≡ self.old }
    {
        body_gives(alloc, &mut self.job, &self.queues, body, since)
    }
}
