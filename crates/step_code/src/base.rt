ghost use Rattle.std.specs.Prelude.{◌≡◌, ◌++◌, OnOk};
ghost use Rattle.stored_types.specs.Code.{blob, IsBlob, IsMoment, IsNumber};
ghost use Rattle.stored_types.specs.Coded.{Begins, Gives};
ghost use Rattle.step_code.specs.Code.{code_of_base, first_format, heads, IsWritableBase};
ghost use Rattle.step_code.specs.Reading.{base_at, heads_at};

use crate::cache::CacheList;
use crate::feed::FeedList;
use crate::output::OutList;
use base_types::{Blob, BotName, ListOf, Moment, OutOfMemory};
use std::alloc::Global;
use stored_types::{CodeFault, Coded, DumpList, HandList, WaitingList};

/// The whole state of a pipeline.
///
/// Lists of queues, caches, outputs and feeds are in the order in which their entries were made, full hands in the
/// order in which they were filled, halted bots in the order in which they were halted.
#[derive(Debug, Drop)]
pub struct Base {
    /// The number of steps that led here.
    pub steps: u64,
    /// The number that the next message gets.
    pub next_message: u64,
    /// The number that the next dump gets.
    pub next_dump: u64,
    /// The number of messages that were discarded. No step discards any yet.
    pub discarded: u64,
    /// The moment of the last step.
    pub latest: Moment,
    /// The number of the bundle in force, from 1.
    pub bundle_no: u64,
    /// The bundle in force, in the code of bundles.
    pub bundle: Blob,
    pub queues: WaitingList,
    pub hands: HandList,
    pub caches: CacheList,
    pub dumps: DumpList,
    pub outs: OutList,
    pub feeds: FeedList,
    pub halted: BotList,
}

pub type BotList = ListOf<BotName>;

// What stands before the lists of a state.
#[derive(Drop)]
struct Heads {
    steps: u64,
    next_message: u64,
    next_dump: u64,
    latest: Moment,
    bundle_no: u64,
    bundle: Blob,
}

// They are read as one nested pair, by the reader of pairs: `heads_at` is made of the same.
type HeadFields = (((((u64, u64), u64), Moment), u64), Blob);

#[tactic(auto, unfolding(crate::specs::Reading::heads_at))]
fn heads_of(alloc: Global, bytes: &[u8]) -> Result<(Heads, &[u8]), CodeFault>
    ensures { Gives (λ x. (x.0, x.1.now)) result (heads_at bytes.now) }
{
    let (fields, rest) = HeadFields::take(alloc, bytes)?;
    let (((((steps, next_message), next_dump), latest), bundle_no), bundle) = fields;
    let heads = Heads {
        steps,
        next_message,
        next_dump,
        latest,
        bundle_no,
        bundle,
    };
    Ok((heads, rest))
}

// What stands before the lists.
#[tactic(auto, using(stored_types::proofs::Begins::begins))]
fn put_heads(to: &mut Blob, base: &Base) -> Result<(), OutOfMemory>
    ensures code { OnOk result (to.new ≡ to.old ++ heads base.now) }
    ensures steps { OnOk result (IsNumber base.now.steps) }
    ensures next_message { OnOk result (IsNumber base.now.next_message) }
    ensures next_dump { OnOk result (IsNumber base.now.next_dump) }
    ensures latest { OnOk result (IsMoment base.now.latest) }
    ensures bundle_no { OnOk result (IsNumber base.now.bundle_no) }
    ensures bundle { OnOk result (IsBlob base.now.bundle) }
    ensures kept { Begins to.old to.new }
{
    base.steps.put(to)?;
    base.next_message.put(to)?;
    base.next_dump.put(to)?;
    base.latest.put(to)?;
    base.bundle_no.put(to)?;
    base.bundle.put(to)
}

/// Its code is that of the first format, which has no number of discarded messages: where some were discarded, there is
/// none.
impl Coded for Base {
    ghost code = { code_of_base first_format };

    ghost has_code = { IsWritableBase first_format };

    ghost read = { base_at };

    fn code_len(&self) -> u64 {
        self.bundle
            .code_len()
            .saturating_add(40)
            .saturating_add(self.queues.code_len())
            .saturating_add(self.hands.code_len())
            .saturating_add(self.caches.code_len())
            .saturating_add(self.dumps.code_len())
            .saturating_add(self.outs.code_len())
            .saturating_add(self.feeds.code_len())
            .saturating_add(self.halted.code_len())
    }

    #[tactic(auto, using(stored_types::proofs::Begins::begins))]
    fn put(&self, to: &mut Blob) -> Result<(), OutOfMemory> {
        if self.discarded != 0 {
            return Err(OutOfMemory);
        }
        put_heads(to, self)?;
        self.queues.put(to)?;
        self.hands.put(to)?;
        self.caches.put(to)?;
        self.dumps.put(to)?;
        self.outs.put(to)?;
        self.feeds.put(to)?;
        self.halted.put(to)
    }

    #[tactic(auto, unfolding(crate::specs::Reading::base_at))]
    fn take(alloc: Global, bytes: &[u8]) -> Result<(Self, &[u8]), CodeFault> {
        let (heads, rest) = heads_of(alloc, bytes)?;
        let (queues, rest) = WaitingList::take(alloc, rest)?;
        let (hands, rest) = HandList::take(alloc, rest)?;
        let (caches, rest) = CacheList::take(alloc, rest)?;
        let (dumps, rest) = DumpList::take(alloc, rest)?;
        let (outs, rest) = OutList::take(alloc, rest)?;
        let (feeds, rest) = FeedList::take(alloc, rest)?;
        let (halted, rest) = BotList::take(alloc, rest)?;
        let base = Base {
            steps: heads.steps,
            next_message: heads.next_message,
            next_dump: heads.next_dump,
            discarded: 0,
            latest: heads.latest,
            bundle_no: heads.bundle_no,
            bundle: heads.bundle,
            queues,
            hands,
            caches,
            dumps,
            outs,
            feeds,
            halted,
        };
        Ok((base, rest))
    }

    fn copy(&self, alloc: Global) -> Result<Self, OutOfMemory> {
        Ok(Base {
            steps: self.steps,
            next_message: self.next_message,
            next_dump: self.next_dump,
            discarded: self.discarded,
            latest: self.latest,
            bundle_no: self.bundle_no,
            bundle: self.bundle.copy(alloc)?,
            queues: self.queues.copy(alloc)?,
            hands: self.hands.copy(alloc)?,
            caches: self.caches.copy(alloc)?,
            dumps: self.dumps.copy(alloc)?,
            outs: self.outs.copy(alloc)?,
            feeds: self.feeds.copy(alloc)?,
            halted: self.halted.copy(alloc)?,
        })
    }
}
