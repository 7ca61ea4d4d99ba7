ghost use Rattle.step_code.specs.Code.{feed, IsFeed};
ghost use Rattle.step_code.specs.Reading.{feed_at};

use base_types::{Blob, BotName, ListOf, OutOfMemory};
use std::alloc::Global;
use stored_types::{CodeFault, Coded};

/// How far a collector has read its feed, in bytes, in which round from 1, and whether it has read all of it.
#[derive(Debug, Drop)]
pub struct Feed {
    pub bot: BotName,
    pub round: u64,
    pub position: u64,
    pub finished: bool,
}

pub type FeedList = ListOf<Feed>;

impl Coded for Feed {
    ghost code = { feed };

    ghost has_code = { IsFeed };

    ghost read = { feed_at };

    fn code_len(&self) -> u64 {
        self.bot
            .code_len()
            .saturating_add(self.round.code_len())
            .saturating_add(self.position.code_len())
            .saturating_add(self.finished.code_len())
    }

    #[tactic(auto, using(stored_types::proofs::Begins::begins))]
    fn put(&self, to: &mut Blob) -> Result<(), OutOfMemory> {
        self.bot.put(to)?;
        self.round.put(to)?;
        self.position.put(to)?;
        self.finished.put(to)
    }

    #[tactic(auto, unfolding(crate::specs::Reading::feed_at))]
    fn take(alloc: Global, bytes: &[u8]) -> Result<(Self, &[u8]), CodeFault> {
        let (bot, rest) = match BotName::take(alloc, bytes) {
            Ok(found) => found,
            Err(fault) => return Err(fault),
        };
        let (round, rest) = u64::take(alloc, rest)?;
        let (position, rest) = u64::take(alloc, rest)?;
        let (finished, rest) = bool::take(alloc, rest)?;
        Ok((
            Feed {
                bot,
                round,
                position,
                finished,
            },
            rest,
        ))
    }

    fn copy(&self, _: Global) -> Result<Self, OutOfMemory> {
        Ok(Feed {
            bot: self.bot,
            round: self.round,
            position: self.position,
            finished: self.finished,
        })
    }
}
