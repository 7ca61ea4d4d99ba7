ghost use Rattle.stored_types.specs.Queue.{queue, waiting_at, IsQueue};

use crate::{CodeFault, Coded};
use base_types::{Blob, ListOf, Msg, OutOfMemory, QueueName};
use std::alloc::Global;

/// A queue and the messages that wait in it, the oldest first.
#[derive(Debug, Drop)]
pub struct Queue {
    pub name: QueueName,
    pub messages: MsgList,
}

pub type MsgList = ListOf<Msg>;

pub type WaitingList = ListOf<Queue>;

impl Coded for Queue {
    ghost code = { queue };

    ghost has_code = { IsQueue };

    ghost read = { waiting_at };

    fn code_len(&self) -> u64 {
        self.name
            .code_len()
            .saturating_add(self.messages.code_len())
    }

    #[tactic(auto, using(crate::proofs::Begins::begins))]
    fn put(&self, to: &mut Blob) -> Result<(), OutOfMemory> {
        self.name.put(to)?;
        self.messages.put(to)
    }

    #[tactic(auto, unfolding(crate::specs::Queue::waiting_at))]
    fn take(alloc: Global, bytes: &[u8]) -> Result<(Self, &[u8]), CodeFault> {
        let (name, rest) = match QueueName::take(alloc, bytes) {
            Ok(found) => found,
            Err(fault) => return Err(fault),
        };
        let (messages, rest) = MsgList::take(alloc, rest)?;
        Ok((Queue { name, messages }, rest))
    }

    fn copy(&self, alloc: Global) -> Result<Self, OutOfMemory> {
        Ok(Queue {
            name: self.name,
            messages: self.messages.copy(alloc)?,
        })
    }
}
