//! What experts give.
ghost use Rattle.std.specs.Prelude.{◌≡◌, true, IfOk};
ghost use Rattle.std.specs.List.{list_all};
ghost use Rattle.expert_rules.specs.Chosen.{chosen};
ghost use Rattle.bot_rules.specs.Jobs.{changed};
ghost use Rattle.bot_rules.specs.Gives.{are_lawful, body_of, dedup_gives, expert_gives, is_lawful, to_each};

use crate::Change;
use crate::body::{body_of, send_to_each};
use crate::change::changed;
use base_types::{Blob, NoteList, OutOfMemory, QueueList, SendList};
use event_model::{Fields, Kind};
use expert_rules::{DedupRule, dedup_fields};
use std::alloc::Global;
use step_code::Given;

fn sent_to_each(alloc: Global, queues: &QueueList, body: Blob) -> Result<SendList, OutOfMemory>
    requires { is_lawful body ≡ true }
    ensures sends { IfOk result (λ sends. sends ≡ to_each queues.now body) }
    ensures lawful { IfOk result (λ sends. list_all (λ send. is_lawful send.1) sends ≡ true) }
{
    let mut sends = SendList::new(alloc);
    send_to_each(alloc, &mut sends, queues, body)?;
    Ok(sends)
}

// What an expert gives that made this event.
fn event_gives(alloc: Global, queues: &QueueList, fields: Fields) -> Result<Given, OutOfMemory>
    ensures given { IfOk result (λ g. g ≡ expert_gives queues.now fields) }
    ensures lawful { IfOk result (λ g. are_lawful g ≡ true) }
{
    let body = body_of(alloc, Kind::Event, fields)?;
    Ok(Given::Pass {
        sends: sent_to_each(alloc, queues, body)?,
        dumps: NoteList::new(alloc),
        key: None,
        line: false,
    })
}

/// What an expert gives that makes one event of one.
pub fn change_gives(
    alloc: Global,
    change: &mut Change,
    queues: &QueueList,
    fields: &Fields,
) -> Result<Given, OutOfMemory>
    ensures given { IfOk result (λ g. g ≡ expert_gives queues.now (changed change.old fields.now)) }
    ensures lawful { IfOk result (λ g. are_lawful g ≡ true) }
    ensures same { change.new ≡ change.old }
{
    let made = changed(alloc, change, fields)?;
    event_gives(alloc, queues, made)
}

/// What a deduplicator gives of the event whose text the body is. The body goes on as it is.
pub fn dedup_gives(
    alloc: Global,
    rule: &DedupRule,
    queues: &QueueList,
    body: &Blob,
    fields: &Fields,
) -> Result<Given, OutOfMemory>
    requires text { body.now ≡ body_of Kind.Event fields.now }
    requires lawful { is_lawful body.now ≡ true }
    ensures given { IfOk result (λ g. g ≡ dedup_gives queues.now (chosen rule.now fields.now) fields.now) }
    ensures lawful { IfOk result (λ g. are_lawful g ≡ true) }
{
    let key = dedup_fields(alloc, rule, fields)?;
    Ok(Given::Pass {
        sends: sent_to_each(alloc, queues, body.copy(alloc)?)?,
        dumps: NoteList::new(alloc),
        key: Some(body_of(alloc, Kind::Event, key)?),
        line: false,
    })
}
