//! What a collector reports of a piece of its feed.
ghost use Rattle.std.specs.Prelude.{◌≡◌, ◌≤◌, true, IfOk, OnOk};
ghost use Rattle.std.specs.FinMap.{insert};
ghost use Rattle.field_types.specs.declared.value.Value.TheVariants as value;
ghost use Rattle.step_code.specs.Rules.{last_moment};
ghost use Rattle.bot_rules.specs.Gives.{is_lawful};
ghost use Rattle.bot_rules.specs.Report.{moment_text, report_fields, report_text, with_provider};

use crate::body::body_of;
use base_types::{Blob, Moment, OutOfMemory, Text};
use event_model::{Fields, Kind, is_field};
use feed_rows::with_raw;
use field_types::{FieldName, Value};
use scalar_text::print_time;
use std::alloc::Global;

const SECONDS_TO_1970: u64 = 62_135_596_800;

fn moment_text(alloc: Global, now: Moment) -> Result<Text, OutOfMemory>
    requires { now.0 ≤ last_moment }
    ensures { IfOk result (λ text. text ≡ moment_text now.0) }
{
    print_time(alloc, SECONDS_TO_1970 + now.0)
}

fn text_of(alloc: Global, word: &str) -> Result<Text, OutOfMemory>
    ensures { IfOk result (λ text. text ≡ word.now) }
{
    Ok(Text::from(String::from_str(alloc, word)?))
}

// Sets a field to a text. A plan has canonical texts alone.
fn put_text(alloc: Global, fields: &mut Fields, key: &str, text: Text) -> Result<(), OutOfMemory>
    ensures { OnOk result (fields.new ≡ insert fields.old key.now (value.Text text)) }
{
    let name = FieldName::from(text_of(alloc, key)?);
    let value = Value::Text(text);
    if !is_field(alloc, &name, &value)? {
        return Err(OutOfMemory);
    }
    fields.put(text_of(alloc, key)?, value)
}

fn put_provider(
    alloc: Global,
    fields: &mut Fields,
    provider: &Option<Text>,
) -> Result<(), OutOfMemory>
    ensures { OnOk result (fields.new ≡ with_provider provider.now fields.old) }
{
    match provider {
        Some(provider) => put_text(alloc, fields, "feed.provider", provider.copy(alloc)?),
        None => Ok(()),
    }
}

fn report_fields(
    alloc: Global,
    name: &Text,
    provider: &Option<Text>,
    piece: &Blob,
    now: Moment,
) -> Result<Fields, OutOfMemory>
    requires { now.0 ≤ last_moment }
    ensures { IfOk result (λ fields. fields ≡ report_fields name.now provider.now piece.now now.0) }
{
    let mut timed = Fields::new(alloc);
    put_text(
        alloc,
        &mut timed,
        "time.observation",
        moment_text(alloc, now)?,
    )?;
    let mut fields = with_raw(alloc, &timed, piece.bytes())?;
    put_provider(alloc, &mut fields, provider)?;
    put_text(alloc, &mut fields, "feed.name", name.copy(alloc)?)?;
    Ok(fields)
}

/// The body of the report of a piece that was collected at a moment.
#[tactic(auto, unfolding(crate::specs::Report::report_text))]
pub fn report_text(
    alloc: Global,
    name: &Text,
    provider: &Option<Text>,
    piece: &Blob,
    now: Moment,
) -> Result<Blob, OutOfMemory>
    requires { now.0 ≤ last_moment }
    ensures text { IfOk result (λ body. body ≡ report_text name.now provider.now piece.now now.0) }
    ensures lawful { IfOk result (λ body. is_lawful body ≡ true) }
{
    let fields = report_fields(alloc, name, provider, piece, now)?;
    body_of(alloc, Kind::Report, fields)
}
