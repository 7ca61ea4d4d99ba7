//! Copies of messages, to be stored.
ghost use Rattle.std.specs.Prelude.{◌≡◌, ◌<◌, ◌≤◌, ◌+◌, length, IfOk};
ghost use Rattle.link_store.specs.Links.{list_of};
ghost use Rattle.queue_broker.specs.Broker.{total};
ghost use Rattle.queue_broker.specs.Kept.{messages_of, most_messages};

use base_types::{Msg, OutOfMemory};
use link_store::Links;
use link_store::laws::numbers_differ;
use std::alloc::Global;
use stored_types::{Coded, MsgList, Queue};

/// So many messages are never taken in: no counting of them passes 64 bits.
const MOST_MESSAGES: usize = 0x4000_0000_0000_0000;

/// Copies of the messages of a list.
pub fn copy_messages(alloc: Global, links: &Links<Msg>, list: u32) -> Result<MsgList, OutOfMemory>
    requires { list < length links.now.lists }
    ensures { IfOk result (λ copies. copies ≡ messages_of (list_of links.now list)) }
{
    numbers_differ(links);
    let mut copies = Vec::with_capacity(alloc, links.len(list))?;
    let mut next = links.first(list);
    'messages: while let Some(node) = next {
        let message = links.get(node).unwrap();
        let copy = message.copy(alloc)?;
        copies.push(copy)?;
        next = links.next(node);
    }
    Ok(MsgList::from(copies))
}

/// How many messages are in these queues and in so many hands, if there may be as many.
pub fn count(queues: &[Queue], hands: usize) -> Result<usize, OutOfMemory>
    ensures { IfOk result (λ n. (n ≡ total queues.now + hands) × (n ≤ most_messages)) }
{
    if hands > MOST_MESSAGES {
        return Err(OutOfMemory);
    }
    let mut count = hands;
    'queues: for queue in queues {
        let messages = queue.messages.len();
        if messages > MOST_MESSAGES - count {
            return Err(OutOfMemory);
        }
        count += messages;
    }
    Ok(count)
}
