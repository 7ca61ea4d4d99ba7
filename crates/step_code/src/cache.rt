ghost use Rattle.step_code.specs.Code.{cache, IsCache};
ghost use Rattle.step_code.specs.Reading.{cache_at};

use base_types::{Blob, BotName, ListOf, OutOfMemory};
use std::alloc::Global;
use stored_types::{CodeFault, Coded, MarkList};

/// A bot's marks, the oldest first.
#[derive(Debug, Drop)]
pub struct BotCache {
    pub bot: BotName,
    pub marks: MarkList,
}

pub type CacheList = ListOf<BotCache>;

impl Coded for BotCache {
    ghost code = { cache };

    ghost has_code = { IsCache };

    ghost read = { cache_at };

    fn code_len(&self) -> u64 {
        self.bot.code_len().saturating_add(self.marks.code_len())
    }

    #[tactic(auto, using(stored_types::proofs::Begins::begins))]
    fn put(&self, to: &mut Blob) -> Result<(), OutOfMemory> {
        self.bot.put(to)?;
        self.marks.put(to)
    }

    #[tactic(auto, unfolding(crate::specs::Reading::cache_at))]
    fn take(alloc: Global, bytes: &[u8]) -> Result<(Self, &[u8]), CodeFault> {
        let (bot, rest) = match BotName::take(alloc, bytes) {
            Ok(found) => found,
            Err(fault) => return Err(fault),
        };
        let (marks, rest) = MarkList::take(alloc, rest)?;
        Ok((BotCache { bot, marks }, rest))
    }

    fn copy(&self, alloc: Global) -> Result<Self, OutOfMemory> {
        Ok(BotCache {
            bot: self.bot,
            marks: self.marks.copy(alloc)?,
        })
    }
}
