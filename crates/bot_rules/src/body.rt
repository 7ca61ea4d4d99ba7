//! Bodies of messages.
ghost use Rattle.std.specs.Prelude.{◌≡◌, ◌∷◌, [], ◌++◌, true, IfOk, OnOk};
ghost use Rattle.event_text.specs.Exact.{strict};
ghost use Rattle.bot_rules.specs.Gives.{body_of, is_lawful, to_each};

use base_types::{Blob, OutOfMemory, QueueList, QueueName, SendList};
use event_model::{Fields, Kind, Message};
use event_text::{message_in, write_message};
use std::alloc::Global;

/// The message whose text a body is, if it is one's.
pub fn message_of(alloc: Global, body: &Blob) -> Result<Option<Message>, OutOfMemory>
    ensures { IfOk result (λ found. found ≡ strict body.now) }
{
    message_in(alloc, body.bytes())
}

/// The text of a message.
pub fn body_of(alloc: Global, kind: Kind, fields: Fields) -> Result<Blob, OutOfMemory>
    ensures text { IfOk result (λ body. body ≡ body_of kind fields) }
    ensures lawful { IfOk result (λ body. is_lawful body ≡ true) }
{
    write_message(alloc, &Message { kind, fields })
}

// Sends a body to a queue.
fn send(sends: &mut SendList, queue: QueueName, body: Blob) -> Result<(), OutOfMemory>
    ensures { OnOk result (sends.new ≡ sends.old ++ (queue, body) ∷ []) }
{
    match sends.push((queue, body)) {
        Ok(()) => Ok(()),
        Err(_) => Err(OutOfMemory),
    }
}

/// Sends copies of a body to queues.
pub fn send_copies(
    alloc: Global,
    sends: &mut SendList,
    queues: &[QueueName],
    body: &Blob,
) -> Result<(), OutOfMemory>
    ensures { OnOk result (sends.new ≡ sends.old ++ to_each queues.now body.now) }
{
    'queues: for queue in queues {
        send(sends, *queue, body.copy(alloc)?)?;
    }
    Ok(())
}

/// Sends a body to each of the queues. The last gets the body itself.
pub fn send_to_each(
    alloc: Global,
    sends: &mut SendList,
    queues: &QueueList,
    body: Blob,
) -> Result<(), OutOfMemory>
    ensures { OnOk result (sends.new ≡ sends.old ++ to_each queues.now body) }
{
    let [others @ .., last] = queues.as_slice() else {
        return Ok(());
    };
    send_copies(alloc, sends, others, &body)?;
    send(sends, *last, body)
}
