//! A report as events and bad parts.
ghost use Rattle.std.specs.Prelude.{◌≡◌, Ok, Err, None, MatchResult};
ghost use Rattle.std.specs.FinMap.{get};
ghost use Rattle.feed_rows.specs.Notes.{raw_note};
ghost use Rattle.feed_rows.specs.Reports.{raw_key};
ghost use Rattle.feed_rows.specs.Rows.{IsFaultOf};
ghost use Rattle.feed_json.specs.Objects.{event_in};
ghost use Rattle.feed_json.specs.Rows.{json_parsed, of_event, styled};

use crate::array::parse_array;
use crate::lines::parse_lines;
use crate::object::event_in;
use crate::{JsonRule, Style};
use event_json::Cleaner;
use event_model::Fields;
use feed_rows::{ParseFault, Parsed, content, event_row, others, raw_note};
use std::alloc::Global;

// The event that a content is.
fn parse_object(
    alloc: Global,
    defaults: &Fields,
    others: &Fields,
    content: &[u8],
) -> Result<Parsed, ParseFault>
    ensures { MatchResult result (λ all. of_event defaults.now (event_in others.now content.now) ≡ Ok all)
        (IsFaultOf (of_event defaults.now (event_in others.now content.now))) }
{
    let event = event_in(alloc, &mut Cleaner::new(alloc), others, content)?;
    let mut all = Parsed::new(alloc);
    all.put(event_row(alloc, defaults, event)?)?;
    Ok(all)
}

// What a content is in the rule's style. Of the report, its fields but `raw` are given.
#[tactic(auto, unfolding(crate::specs::Rows::styled))]
fn parse_content(
    alloc: Global,
    rule: &JsonRule,
    others: &Fields,
    content: &[u8],
) -> Result<Parsed, ParseFault>
    ensures { MatchResult result (λ all. styled rule.now.style rule.now.defaults others.now content.now ≡ Ok all)
        (IsFaultOf (styled rule.now.style rule.now.defaults others.now content.now)) }
{
    match rule.style {
        Style::Object => parse_object(alloc, &rule.defaults, others, content),
        Style::Array => parse_array(alloc, &rule.defaults, others, content),
        Style::Lines => Ok(parse_lines(alloc, &rule.defaults, others, content)?),
    }
}

/// The events of a report and its bad parts: 1 `Fault` with the note `raw` exactly where the report has no `raw`; in
/// the style `Array` with the note `json` where its content is no array; in the style `Object` with the note of the
/// object.
#[tactic(auto, unfolding(crate::specs::Rows::json_parsed))]
pub fn parse_json(alloc: Global, rule: &JsonRule, report: &Fields) -> Result<Parsed, ParseFault>
    ensures parsed { MatchResult result (λ all. json_parsed rule.now report.now ≡ Ok all) (IsFaultOf (json_parsed rule.now report.now)) }
    ensures absent { result ≡ Err (ParseFault.Fault raw_note) → get report.now raw_key ≡ None }
{
    let Some(bytes) = content(alloc, report)? else {
        return Err(ParseFault::Fault(raw_note(alloc)?));
    };
    let fields = others(alloc, report)?;
    parse_content(alloc, rule, &fields, bytes.bytes())
}
