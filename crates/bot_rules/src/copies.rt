//! Copies of what a plan has, for a bot's work.
ghost use Rattle.std.specs.Prelude.{◌≡◌, map, IfOk};
ghost use Rattle.bot_rules.specs.Jobs.{column_of};

use base_types::{OutOfMemory, QueueList, Text, TextList};
use event_model::Fields;
use expert_rules::FieldsList;
use feed_csv::{Column, ColumnList};
use runtime_config::{Route, RouteList};
use std::alloc::Global;

pub fn copy_texts(alloc: Global, texts: &[Text]) -> Result<TextList, OutOfMemory>
    ensures { IfOk result (λ copied. copied ≡ texts.now) }
{
    let mut copied = Vec::with_capacity(alloc, texts.len())?;
    'texts: for text in texts {
        copied.push(text.copy(alloc)?)?;
    }
    Ok(TextList::from(copied))
}

pub fn copy_sets(alloc: Global, sets: &[Fields]) -> Result<FieldsList, OutOfMemory>
    ensures { IfOk result (λ copied. copied ≡ sets.now) }
{
    let mut copied = Vec::with_capacity(alloc, sets.len())?;
    'sets: for set in sets {
        copied.push(set.copy(alloc)?)?;
    }
    Ok(FieldsList::from(copied))
}

fn copy_route(alloc: Global, route: &Route) -> Result<Route, OutOfMemory>
    ensures { IfOk result (λ copied. copied ≡ route.now) }
{
    Ok(Route {
        path: route.path.copy(alloc)?,
        queues: QueueList::from(route.queues.as_slice().to_vec(alloc)?),
    })
}

pub fn copy_routes(alloc: Global, routes: &[Route]) -> Result<RouteList, OutOfMemory>
    ensures { IfOk result (λ copied. copied ≡ routes.now) }
{
    let mut copied = Vec::with_capacity(alloc, routes.len())?;
    'routes: for route in routes {
        copied.push(copy_route(alloc, route)?)?;
    }
    Ok(RouteList::from(copied))
}

fn column_of(alloc: Global, stamp: bool, names: &TextList) -> Result<Column, OutOfMemory>
    ensures { IfOk result (λ column. column ≡ column_of stamp names.now) }
{
    Ok(Column {
        names: copy_texts(alloc, names.as_slice())?,
        stamp,
    })
}

/// The columns of a parser for CSV, by the names of each.
pub fn columns_of(
    alloc: Global,
    stamp: bool,
    columns: &[TextList],
) -> Result<ColumnList, OutOfMemory>
    ensures { IfOk result (λ made. made ≡ map (column_of stamp) columns.now) }
{
    let mut made = Vec::with_capacity(alloc, columns.len())?;
    'columns: for names in columns {
        made.push(column_of(alloc, stamp, names)?)?;
    }
    Ok(ColumnList::from(made))
}
