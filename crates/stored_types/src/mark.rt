ghost use Rattle.stored_types.specs.Mark.{mark, mark_at, IsMark};

use crate::{CodeFault, Coded};
use base_types::{Blob, ListOf, Moment, OutOfMemory};
use std::alloc::Global;

/// A key that a bot has let through, and when.
#[derive(Debug, Drop)]
pub struct Mark {
    pub key: Blob,
    pub moment: Moment,
}

pub type MarkList = ListOf<Mark>;

impl Coded for Mark {
    ghost code = { mark };

    ghost has_code = { IsMark };

    ghost read = { mark_at };

    fn code_len(&self) -> u64 {
        self.key.code_len().saturating_add(self.moment.code_len())
    }

    #[tactic(auto, using(crate::proofs::Begins::begins))]
    fn put(&self, to: &mut Blob) -> Result<(), OutOfMemory> {
        self.key.put(to)?;
        self.moment.put(to)
    }

    #[tactic(auto, unfolding(crate::specs::Mark::mark_at))]
    fn take(alloc: Global, bytes: &[u8]) -> Result<(Self, &[u8]), CodeFault> {
        let (key, rest) = Blob::take(alloc, bytes)?;
        let (moment, rest) = Moment::take(alloc, rest)?;
        Ok((Mark { key, moment }, rest))
    }

    fn copy(&self, alloc: Global) -> Result<Self, OutOfMemory> {
        Ok(Mark {
            key: self.key.copy(alloc)?,
            moment: self.moment,
        })
    }
}
