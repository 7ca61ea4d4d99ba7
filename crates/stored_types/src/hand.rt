ghost use Rattle.stored_types.specs.Hand.{hand, hand_at, IsHand};

use crate::{CodeFault, Coded};
use base_types::{Blob, BotName, ListOf, Moment, Msg, OutOfMemory};
use std::alloc::Global;

/// A full hand: the message that an instance of a bot holds, how often it was tried, and the moment at which it was
/// taken. Instances are numbered from 1.
#[derive(Debug, Drop)]
pub struct Hand {
    pub bot: BotName,
    pub instance: u8,
    pub message: Msg,
    pub tries: u32,
    pub since: Moment,
}

pub type HandList = ListOf<Hand>;

impl Coded for Hand {
    ghost code = { hand };

    ghost has_code = { IsHand };

    ghost read = { hand_at };

    fn code_len(&self) -> u64 {
        self.bot
            .code_len()
            .saturating_add(self.instance.code_len())
            .saturating_add(self.message.code_len())
            .saturating_add(self.tries.code_len())
            .saturating_add(self.since.code_len())
    }

    #[tactic(auto, using(crate::proofs::Begins::begins))]
    fn put(&self, to: &mut Blob) -> Result<(), OutOfMemory> {
        self.bot.put(to)?;
        self.instance.put(to)?;
        self.message.put(to)?;
        self.tries.put(to)?;
        self.since.put(to)
    }

    #[tactic(auto, unfolding(crate::specs::Hand::hand_at))]
    fn take(alloc: Global, bytes: &[u8]) -> Result<(Self, &[u8]), CodeFault> {
        let (bot, rest) = match BotName::take(alloc, bytes) {
            Ok(found) => found,
            Err(fault) => return Err(fault),
        };
        let (instance, rest) = u8::take(alloc, rest)?;
        let (message, rest) = Msg::take(alloc, rest)?;
        let (tries, rest) = u32::take(alloc, rest)?;
        let (since, rest) = Moment::take(alloc, rest)?;
        Ok((
            Hand {
                bot,
                instance,
                message,
                tries,
                since,
            },
            rest,
        ))
    }

    fn copy(&self, alloc: Global) -> Result<Self, OutOfMemory> {
        Ok(Hand {
            bot: self.bot,
            instance: self.instance,
            message: self.message.copy(alloc)?,
            tries: self.tries,
            since: self.since,
        })
    }
}
