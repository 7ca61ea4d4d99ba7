ghost use Rattle.step_code.specs.Code.{output, IsOutput};
ghost use Rattle.step_code.specs.Reading.{output_at};

use base_types::{Blob, BotName, LineList, ListOf, OutOfMemory};
use std::alloc::Global;
use stored_types::{CodeFault, Coded};

/// What a bot has written: so many bytes and lines that are sealed in its file, and the lines behind them.
#[derive(Debug, Drop)]
pub struct Output {
    pub bot: BotName,
    pub sealed_bytes: u64,
    pub sealed_lines: u64,
    pub lines: LineList,
}

pub type OutList = ListOf<Output>;

impl Coded for Output {
    ghost code = { output };

    ghost has_code = { IsOutput };

    ghost read = { output_at };

    fn code_len(&self) -> u64 {
        self.bot
            .code_len()
            .saturating_add(self.sealed_bytes.code_len())
            .saturating_add(self.sealed_lines.code_len())
            .saturating_add(self.lines.code_len())
    }

    #[tactic(auto, using(stored_types::proofs::Begins::begins))]
    fn put(&self, to: &mut Blob) -> Result<(), OutOfMemory> {
        self.bot.put(to)?;
        self.sealed_bytes.put(to)?;
        self.sealed_lines.put(to)?;
        self.lines.put(to)
    }

    #[tactic(auto, unfolding(crate::specs::Reading::output_at))]
    fn take(alloc: Global, bytes: &[u8]) -> Result<(Self, &[u8]), CodeFault> {
        let (bot, rest) = match BotName::take(alloc, bytes) {
            Ok(found) => found,
            Err(fault) => return Err(fault),
        };
        let (sealed_bytes, rest) = u64::take(alloc, rest)?;
        let (sealed_lines, rest) = u64::take(alloc, rest)?;
        let (lines, rest) = LineList::take(alloc, rest)?;
        Ok((
            Output {
                bot,
                sealed_bytes,
                sealed_lines,
                lines,
            },
            rest,
        ))
    }

    fn copy(&self, alloc: Global) -> Result<Self, OutOfMemory> {
        Ok(Output {
            bot: self.bot,
            sealed_bytes: self.sealed_bytes,
            sealed_lines: self.sealed_lines,
            lines: self.lines.copy(alloc)?,
        })
    }
}
