//! Copies of what a step carries, made before anything changes.
ghost use Rattle.std.specs.Prelude.{◌≡◌, ◌+◌, ◌≤◌, List, length, map, IfOk};
ghost use Rattle.base_types.specs.Number.{last_u64};
ghost use Rattle.step_code.specs.After.{numbered};

use base_types::{Blob, BotName, FaultNote, Moment, Msg, OutOfMemory, QueueName};
use std::alloc::Global;
use stored_types::{Coded, Dump};

/// A copy of the body for each queue.
pub fn copy_to_each(
    alloc: Global,
    queues: &[QueueName],
    body: &Blob,
) -> Result<Vec<(QueueName, Blob)>, OutOfMemory>
    ensures { IfOk result (λ copies. copies.items ≡ map (λ queue. (queue, body.now)) queues.now) }
{
    let mut copies = Vec::with_capacity(alloc, queues.len().saturating_add(1))?;
    'queues: for queue in queues {
        copies.push((*queue, body.copy(alloc)?))?;
    }
    Ok(copies)
}

/// The same body for each queue.
pub fn to_each(
    alloc: Global,
    queues: &[QueueName],
    body: Blob,
) -> Result<Vec<(QueueName, Blob)>, OutOfMemory>
    ensures { IfOk result (λ sends. sends.items ≡ map (λ queue. (queue, body)) queues.now) }
{
    match queues.split_last() {
        None => Ok(Vec::new(alloc)),
        Some((last, others)) => {
            let mut sends = copy_to_each(alloc, others, &body)?;
            sends.push((*last, body))?;
            Ok(sends)
        }
    }
}

fn new_dump(
    alloc: Global,
    no: u64,
    dump: u64,
    bot: &BotName,
    now: Moment,
    item: &(Blob, FaultNote),
) -> Result<Dump, OutOfMemory>
    ensures { IfOk result (λ made. made ≡ record { no = dump; bot = bot.now; message = record { no = no; body = item.now.0 }; note = item.now.1; moment = now }) }
{
    Ok(Dump {
        no: dump,
        bot: *bot,
        message: Msg {
            no,
            body: item.0.copy(alloc)?,
        },
        note: item.1.copy(alloc)?,
        moment: now,
    })
}

/// Dumps of these bodies, with the numbers of messages and of dumps from these on.
pub fn new_dumps(
    alloc: Global,
    no: u64,
    dump: u64,
    bot: &BotName,
    now: Moment,
    items: &[(Blob, FaultNote)],
) -> Result<Vec<Dump>, OutOfMemory>
    requires messages { no + length items.now ≤ last_u64 }
    requires dumps { dump + length items.now ≤ last_u64 }
    ensures { IfOk result (λ dumps. dumps.items ≡ numbered no dump bot.now now items.now) }
{
    let mut dumps = Vec::with_capacity(alloc, items.len())?;
    let mut place = 0;
    'items: for item in items {
        dumps.push(new_dump(alloc, no + place, dump + place, bot, now, item)?)?;
        place += 1;
    }
    Ok(dumps)
}
