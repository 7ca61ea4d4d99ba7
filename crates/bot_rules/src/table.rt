//! Tables of prefix experts, which a plan has once and all works share.
ghost use Rattle.std.specs.Prelude.{◌≡◌, map, length, IfOk};
ghost use Rattle.bot_rules.specs.Jobs.{table_of};

use crate::copies::copy_sets;
use base_types::{ListOf, OutOfMemory};
use expert_rules::FieldsList;
use prefix_table::PrefixTable;
use runtime_config::{Module, Planned};
use std::alloc::Global;
use std::marker::Model;
use std::sync::Arc;

/// Networks, and what each of them sets.
#[derive(Drop)]
pub struct Rows {
    pub networks: PrefixTable,
    pub sets: FieldsList,
    /// Whether fields that are there are set too.
    pub overwrite: bool,
}

/// Rows with as many sets as networks, which several owners share. Contracts see the rows.
#[derive(Drop)]
pub struct Table {
    rows: Arc<Rows>,
}

impl Model for Table {
    ghost use Rattle.std.specs.Prelude.{◌≡◌, length};
    ghost use Rattle.std.specs.Coded.{codes};
    ghost use Rattle.event_model.specs.contracts.fields.Fields as fields;
    ghost use Rattle.bot_rules.specs.declared.table.Rows.{Rows};

    ghost Value = { Rows };

    ghost coded = { Prim.hlevel (codes, fields.the_row.coded) };

    ghost view = { λ t. t.rows.value };

    ghost invariant = { λ t. length t.rows.value.sets ≡ length t.rows.value.networks };
}

/// The table of each bot of a plan; of a prefix expert alone there is one.
pub type TableList = ListOf<Option<Table>>;

impl Table {
    // The table of a prefix expert.
    fn new(
        alloc: Global,
        table: &module_settings::Table,
        overwrite: bool,
    ) -> Result<Table, OutOfMemory>
        ensures { IfOk result (λ t. t ≡ record { networks = table.now.networks; sets = table.now.sets; overwrite = overwrite }) }
    {
        let read = table.rows();
        let rows = Rows {
            networks: PrefixTable::build(alloc, &read.networks)?,
            sets: copy_sets(alloc, read.sets.as_slice())?,
            overwrite,
        };
        match Arc::new(alloc, rows) {
            Ok(rows) => Ok(Table { rows }),
            Err(_) => Err(OutOfMemory),
        }
    }

    /// The same table for one more owner.
    pub fn share(&self) -> Result<Table, OutOfMemory>
        ensures { IfOk result (λ t. t ≡ self.now) }
    {
        Ok(Table {
            rows: Arc::try_clone(&self.rows)?,
        })
    }

    pub fn rows(&self) -> &Rows
        ensures rows { result.now ≡ self.now }
        ensures paired { length result.now.sets ≡ length result.now.networks }
    {
        &self.rows
    }
}

fn table_of(alloc: Global, module: &Module) -> Result<Option<Table>, OutOfMemory>
    ensures { IfOk result (λ t. t ≡ table_of module.now) }
{
    match module {
        Module::Prefix { table, overwrite } => { Ok(Some(Table::new(alloc, table, *overwrite)?)) }
        _ => Ok(None),
    }
}

/// The tables of these bots.
pub fn all_tables(alloc: Global, bots: &[Planned]) -> Result<TableList, OutOfMemory>
    ensures { IfOk result (λ tables. tables ≡ map (λ p. table_of p.«module») bots.now) }
{
    let mut tables = Vec::with_capacity(alloc, bots.len())?;
    'bots: for bot in bots {
        tables.push(table_of(alloc, &bot.module)?)?;
    }
    Ok(TableList::from(tables))
}
