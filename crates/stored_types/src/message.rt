ghost use Rattle.stored_types.specs.Message.{dump, dump_at, message, message_at, note, note_at, IsDump, IsMessage, IsNote};

use crate::{CodeFault, Coded};
use base_types::{Blob, BotName, FaultNote, ListOf, Moment, Msg, OutOfMemory, Text};
use std::alloc::Global;

/// A message that a bot couldn't process, with the fault and the moment at which it was put aside. Dumps have numbers
/// from 1.
#[derive(Debug, Drop, PartialEq, Eq)]
pub struct Dump {
    pub no: u64,
    pub bot: BotName,
    pub message: Msg,
    pub note: FaultNote,
    pub moment: Moment,
}

pub type DumpList = ListOf<Dump>;

impl Coded for Msg {
    ghost code = { message };

    ghost has_code = { IsMessage };

    ghost read = { message_at };

    fn code_len(&self) -> u64 {
        self.no.code_len().saturating_add(self.body.code_len())
    }

    #[tactic(auto, using(crate::proofs::Begins::begins))]
    fn put(&self, to: &mut Blob) -> Result<(), OutOfMemory> {
        self.no.put(to)?;
        self.body.put(to)
    }

    #[tactic(auto, unfolding(crate::specs::Message::message_at))]
    fn take(alloc: Global, bytes: &[u8]) -> Result<(Self, &[u8]), CodeFault> {
        let (no, rest) = u64::take(alloc, bytes)?;
        let (body, rest) = Blob::take(alloc, rest)?;
        Ok((Msg { no, body }, rest))
    }

    fn copy(&self, alloc: Global) -> Result<Self, OutOfMemory> {
        Ok(Msg {
            no: self.no,
            body: self.body.copy(alloc)?,
        })
    }
}

impl Coded for FaultNote {
    ghost code = { note };

    ghost has_code = { IsNote };

    ghost read = { note_at };

    fn code_len(&self) -> u64 {
        self.code.code_len().saturating_add(self.text.code_len())
    }

    #[tactic(auto, using(crate::proofs::Begins::begins))]
    fn put(&self, to: &mut Blob) -> Result<(), OutOfMemory> {
        self.code.put(to)?;
        self.text.put(to)
    }

    #[tactic(auto, unfolding(crate::specs::Message::note_at))]
    fn take(alloc: Global, bytes: &[u8]) -> Result<(Self, &[u8]), CodeFault> {
        let (code, rest) = u16::take(alloc, bytes)?;
        let (text, rest) = Text::take(alloc, rest)?;
        Ok((FaultNote { code, text }, rest))
    }

    fn copy(&self, alloc: Global) -> Result<Self, OutOfMemory> {
        Ok(FaultNote {
            code: self.code,
            text: self.text.copy(alloc)?,
        })
    }
}

impl Coded for Dump {
    ghost code = { dump };

    ghost has_code = { IsDump };

    ghost read = { dump_at };

    fn code_len(&self) -> u64 {
        self.no
            .code_len()
            .saturating_add(self.bot.code_len())
            .saturating_add(self.message.code_len())
            .saturating_add(self.note.code_len())
            .saturating_add(self.moment.code_len())
    }

    #[tactic(auto, using(crate::proofs::Begins::begins))]
    fn put(&self, to: &mut Blob) -> Result<(), OutOfMemory> {
        self.no.put(to)?;
        self.bot.put(to)?;
        self.message.put(to)?;
        self.note.put(to)?;
        self.moment.put(to)
    }

    #[tactic(auto, unfolding(crate::specs::Message::dump_at))]
    fn take(alloc: Global, bytes: &[u8]) -> Result<(Self, &[u8]), CodeFault> {
        let (no, rest) = u64::take(alloc, bytes)?;
        let (bot, rest) = match BotName::take(alloc, rest) {
            Ok(found) => found,
            Err(fault) => return Err(fault),
        };
        let (message, rest) = Msg::take(alloc, rest)?;
        let (note, rest) = FaultNote::take(alloc, rest)?;
        let (moment, rest) = Moment::take(alloc, rest)?;
        Ok((
            Dump {
                no,
                bot,
                message,
                note,
                moment,
            },
            rest,
        ))
    }

    fn copy(&self, alloc: Global) -> Result<Self, OutOfMemory> {
        Ok(Dump {
            no: self.no,
            bot: self.bot,
            message: self.message.copy(alloc)?,
            note: self.note.copy(alloc)?,
            moment: self.moment,
        })
    }
}
