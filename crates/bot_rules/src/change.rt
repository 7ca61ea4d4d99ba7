//! Experts that make one event of one.
ghost use Rattle.std.specs.Prelude.{◌≡◌, IfOk};
ghost use Rattle.expert_rules.specs.Enrich.{enriched};
ghost use Rattle.bot_rules.specs.Jobs.{changed};

use crate::Table;
use base_types::OutOfMemory;
use event_model::Fields;
use expert_modify::PreparedRules;
use expert_rules::{enrich, modify, taxonomy};
use std::alloc::Global;

/// Rules that are ready for events.
#[derive(Drop)]
pub struct ModifyJob {
    pub rules: PreparedRules,
    /// Whether fields that are there are set too.
    pub overwrite: bool,
    /// After how many rules that matched no other is tried; 0 where that has no limit.
    pub most: u32,
}

/// What is done with the fields of an event.
#[derive(Drop)]
pub enum Change {
    Prefix(Table),
    Taxonomy,
    Modify(ModifyJob),
}

fn enriched(alloc: Global, table: &Table, fields: &Fields) -> Result<Fields, OutOfMemory>
    ensures { IfOk result (λ made. made ≡ enriched table.now.networks table.now.sets table.now.overwrite fields.now) }
{
    let rows = table.rows();
    enrich(alloc, &rows.networks, &rows.sets, rows.overwrite, fields)
}

/// The fields of the event that is made of one with these.
pub fn changed(alloc: Global, change: &mut Change, fields: &Fields) -> Result<Fields, OutOfMemory>
    ensures made { IfOk result (λ made. made ≡ changed change.old fields.now) }
    ensures same { change.new ≡ change.old }
{
    match change {
        Change::Prefix(table) => enriched(alloc, table, fields),
        Change::Taxonomy => taxonomy(alloc, fields),
        Change::Modify(job) => modify(alloc, &mut job.rules, job.overwrite, job.most, fields),
    }
}
