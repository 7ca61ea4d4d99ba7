ghost use Rattle.std.specs.Prelude.{◌≡◌, [], ◌∷◌, IfOk, OnOk};
ghost use Rattle.feed_rows.specs.Rows.{and_rows, event_row, parsed, spoiled_row};
ghost use Rattle.feed_rows.specs.declared.parsed.ParseFault.TheVariants.{OutOfMemory as NoMemory};

use crate::report::{fill, with_raw};
use base_types::{FaultNote, ListOf, OutOfMemory};
use event_model::Fields;
use std::alloc::{AllocError, Global};

/// A part of a report that is no event: the report with that part as its `raw`, and why.
#[derive(Debug, Drop)]
pub struct Bad {
    pub report: Fields,
    pub note: FaultNote,
}

pub type FieldsList = ListOf<Fields>;

pub type BadList = ListOf<Bad>;

/// The events of a report and its bad parts, each in the order of the report.
#[derive(Debug, Drop)]
pub struct Parsed {
    pub events: FieldsList,
    pub bad: BadList,
}

/// What a line or an item of a report is.
#[derive(Debug, Drop)]
pub enum Row {
    /// An empty line.
    Skipped,
    Event(Fields),
    Spoiled(Bad),
}

/// Why a report isn't parsed.
#[derive(Debug, PartialEq, Eq, Drop)]
pub enum ParseFault {
    /// The report as a whole is bad.
    Fault(FaultNote),
    OutOfMemory,
}

impl From<AllocError> for ParseFault {
    ghost from_gives = { λ _ fault. fault ≡ NoMemory };

    fn from(_: AllocError) -> Self {
        ParseFault::OutOfMemory
    }
}

impl From<OutOfMemory> for ParseFault {
    ghost from_gives = { λ _ fault. fault ≡ NoMemory };

    fn from(_: OutOfMemory) -> Self {
        ParseFault::OutOfMemory
    }
}

impl Parsed {
    /// Nothing parsed. It takes no memory.
    pub fn new(alloc: Global) -> Self
        ensures { result ≡ parsed [] }
    {
        Parsed {
            events: FieldsList::new(alloc),
            bad: BadList::new(alloc),
        }
    }

    /// Puts a row behind the others.
    pub fn put(&mut self, row: Row) -> Result<(), OutOfMemory>
        ensures { OnOk result (self.new ≡ and_rows self.old (row ∷ [])) }
    {
        match row {
            Row::Skipped => Ok(()),
            Row::Event(event) => match self.events.push(event) {
                Ok(()) => Ok(()),
                Err(_) => Err(OutOfMemory),
            },
            Row::Spoiled(bad) => match self.bad.push(bad) {
                Ok(()) => Ok(()),
                Err(_) => Err(OutOfMemory),
            },
        }
    }
}

/// The row of an event, which gets the defaults that it lacks.
pub fn event_row(alloc: Global, defaults: &Fields, mut event: Fields) -> Result<Row, OutOfMemory>
    ensures { IfOk result (λ row. row ≡ event_row defaults.now event) }
{
    fill(alloc, &mut event, defaults)?;
    Ok(Row::Event(event))
}

/// The row of a part of a report that is no event. Of the report only the fields but `raw` are given.
pub fn spoiled_row(
    alloc: Global,
    others: &Fields,
    part: &[u8],
    note: FaultNote,
) -> Result<Row, OutOfMemory>
    ensures { IfOk result (λ row. row ≡ spoiled_row others.now part.now note) }
{
    let report = with_raw(alloc, others, part)?;
    Ok(Row::Spoiled(Bad { report, note }))
}
