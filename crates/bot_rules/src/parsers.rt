//! What parsers give.
ghost use Rattle.std.specs.Prelude.{◌≡◌, ◌∷◌, [], ◌++◌, true, map, Ok, IfOk, OnOk, MatchResult, Result as AnyResult};
ghost use Rattle.std.specs.List.{list_all};
ghost use Rattle.base_types.specs.declared.message.FaultNote.{FaultNote as Note};
ghost use Rattle.feed_csv.specs.Rows.{csv_parsed};
ghost use Rattle.feed_json.specs.Rows.{json_parsed};
ghost use Rattle.feed_rows.specs.Rows.{IsFaultOf};
ghost use Rattle.feed_rows.specs.declared.parsed.Parsed.{Parsed as AllParsed};
ghost use Rattle.bot_rules.specs.Gives.{are_lawful, body_of, dump_of, is_lawful, parser_gives, to_all, to_each};

use crate::body::{body_of, send_to_each};
use base_types::{NoteList, OutOfMemory, QueueList, SendList};
use event_model::{Fields, Kind};
use feed_csv::{CsvRule, parse_csv};
use feed_json::{JsonRule, parse_json};
use feed_rows::{Bad, BadList, FieldsList, ParseFault, Parsed};
use std::alloc::Global;
use step_code::Given;

// Sends an event to each of the queues.
fn send_event(
    alloc: Global,
    sends: &mut SendList,
    queues: &QueueList,
    event: Fields,
) -> Result<(), OutOfMemory>
    ensures sends { OnOk result (sends.new ≡ sends.old ++ to_each queues.now (body_of Kind.Event event)) }
    ensures lawful { OnOk result (is_lawful (body_of Kind.Event event) ≡ true) }
{
    let body = body_of(alloc, Kind::Event, event)?;
    send_to_each(alloc, sends, queues, body)
}

fn send_events(
    alloc: Global,
    queues: &QueueList,
    events: FieldsList,
) -> Result<SendList, OutOfMemory>
    ensures sends { IfOk result (λ sends. sends ≡ to_all queues.now events) }
    ensures lawful { IfOk result (λ sends. list_all (λ send. is_lawful send.1) sends ≡ true) }
{
    let mut sends = SendList::new(alloc);
    'events: for event in events.into_vec() {
        send_event(alloc, &mut sends, queues, event)?;
    }
    Ok(sends)
}

// Puts a bad part of a report aside.
fn put_aside(alloc: Global, dumps: &mut NoteList, bad: Bad) -> Result<(), OutOfMemory>
    ensures dumps { OnOk result (dumps.new ≡ dumps.old ++ dump_of bad ∷ []) }
    ensures lawful { OnOk result (is_lawful (body_of Kind.Report bad.report) ≡ true) }
{
    let body = body_of(alloc, Kind::Report, bad.report)?;
    match dumps.push((body, bad.note)) {
        Ok(()) => Ok(()),
        Err(_) => Err(OutOfMemory),
    }
}

fn put_all_aside(alloc: Global, bad: BadList) -> Result<NoteList, OutOfMemory>
    ensures dumps { IfOk result (λ dumps. dumps ≡ map dump_of bad) }
    ensures lawful { IfOk result (λ dumps. list_all (λ dump. is_lawful dump.0) dumps ≡ true) }
{
    let mut dumps = NoteList::new(alloc);
    'bad: for part in bad.into_vec() {
        put_aside(alloc, &mut dumps, part)?;
    }
    Ok(dumps)
}

// What a parser gives of what it made of a report.
fn parser_gives(
    alloc: Global,
    queues: &QueueList,
    parsed: Result<Parsed, ParseFault>,
) -> Result<Given, OutOfMemory>
    ensures given { (reading : AnyResult AllParsed Note) → MatchResult parsed (λ all. reading ≡ Ok all) (IsFaultOf reading) → IfOk result (λ g. g ≡ parser_gives queues.now reading) }
    ensures lawful { IfOk result (λ g. are_lawful g ≡ true) }
{
    match parsed {
        Ok(all) => Ok(Given::Pass {
            sends: send_events(alloc, queues, all.events)?,
            dumps: put_all_aside(alloc, all.bad)?,
            key: None,
            line: false,
        }),
        Err(ParseFault::Fault(note)) => Ok(Given::Fault(note)),
        Err(ParseFault::OutOfMemory) => Err(OutOfMemory),
    }
}

/// What a parser for CSV gives of a report.
pub fn csv_gives(
    alloc: Global,
    rule: &CsvRule,
    queues: &QueueList,
    report: &Fields,
) -> Result<Given, OutOfMemory>
    ensures given { IfOk result (λ g. g ≡ parser_gives queues.now (csv_parsed rule.now report.now)) }
    ensures lawful { IfOk result (λ g. are_lawful g ≡ true) }
{
    parser_gives(alloc, queues, parse_csv(alloc, rule, report))
}

/// What a parser for JSON gives of a report.
pub fn json_gives(
    alloc: Global,
    rule: &JsonRule,
    queues: &QueueList,
    report: &Fields,
) -> Result<Given, OutOfMemory>
    ensures given { IfOk result (λ g. g ≡ parser_gives queues.now (json_parsed rule.now report.now)) }
    ensures lawful { IfOk result (λ g. are_lawful g ≡ true) }
{
    parser_gives(alloc, queues, parse_json(alloc, rule, report))
}
