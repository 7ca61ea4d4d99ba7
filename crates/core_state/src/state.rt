//! The state in parts that grow.
ghost use Rattle.std.specs.Prelude.{◌≡◌, ◌+◌, ◌^◌, IfOk, OnOk, length, map};
ghost use Rattle.std.specs.List.Sorted.{IsStrictlySortedBy};
ghost use Rattle.std.specs.Ordering.{nat_cmp};
ghost use Rattle.queue_broker.specs.Broker.{HaveQueues, total};
ghost use Rattle.core_state.specs.Caches.{AreCaches, GotAtMost};
ghost use Rattle.core_state.specs.Outputs.{HaveLengths, outs_of};
ghost use Rattle.core_state.specs.Sealing.{HaveSmallOutputs, sealed_whole};
ghost use Rattle.core_state.specs.State.{state_of};

use crate::caches::Marks;
use crate::outputs::Written;
use crate::{caches, outputs};
use base_types::{Blob, BotName, Moment, OutOfMemory};
use dump_store::Dumps;
use queue_broker::Broker;
use std::alloc::Global;
use step_code::{Base, BotList, Feed, FeedList, OutList};
use stored_types::{Coded, copies};

/// A pipeline's state, with room to grow.
#[derive(Debug, Drop)]
pub struct State {
    pub steps: u64,
    pub next_message: u64,
    pub next_dump: u64,
    pub discarded: u64,
    pub latest: Moment,
    pub bundle_no: u64,
    pub bundle: Blob,
    pub broker: Broker,
    pub caches: Vec<Marks>,
    pub dumps: Dumps,
    pub outs: Vec<Written>,
    pub feeds: Vec<Feed>,
    pub halted: Vec<BotName>,
}

/// The state of a base, whose items move.
pub fn from_base(alloc: Global, base: Base) -> Result<State, OutOfMemory>
    requires queues { HaveQueues base.queues base.hands }
    requires dumps { IsStrictlySortedBy nat_cmp (map (λ d. d.no) base.dumps) }
    requires caches { AreCaches base.caches }
    ensures same { IfOk result (λ state. state_of state ≡ base) }
    ensures lengths { IfOk result (λ state. HaveLengths state.outs.items) }
    ensures pushed { IfOk result (λ state. state.broker.pushed ≡ total base.queues + length base.hands) }
    ensures marks { IfOk result (λ state. GotAtMost (2 ^ 32) state.caches.items) }
{
    Ok(State {
        steps: base.steps,
        next_message: base.next_message,
        next_dump: base.next_dump,
        discarded: base.discarded,
        latest: base.latest,
        bundle_no: base.bundle_no,
        bundle: base.bundle,
        broker: Broker::from_lists(alloc, base.queues, base.hands)?,
        caches: caches::from_lists(base.caches, alloc)?,
        dumps: Dumps::from_list(base.dumps),
        outs: outputs::from_lists(base.outs, alloc)?,
        feeds: base.feeds.into_vec(),
        halted: base.halted.into_vec(),
    })
}

// A copy of the state as a base, with these outputs.
fn base_with(alloc: Global, state: &State, outs: OutList) -> Result<Base, OutOfMemory>
    ensures { IfOk result (λ base. base ≡ record (state_of state.now) { outs = outs }) }
{
    Ok(Base {
        steps: state.steps,
        next_message: state.next_message,
        next_dump: state.next_dump,
        discarded: state.discarded,
        latest: state.latest,
        bundle_no: state.bundle_no,
        bundle: state.bundle.copy(alloc)?,
        queues: state.broker.queues_copy(alloc)?,
        hands: state.broker.hands_copy(alloc)?,
        caches: caches::copies(&state.caches, alloc)?,
        dumps: state.dumps.copy(alloc)?,
        outs,
        feeds: FeedList::from(copies(alloc, &state.feeds)?),
        halted: BotList::from(copies(alloc, &state.halted)?),
    })
}

/// A copy of the state as a base.
pub fn to_base(alloc: Global, state: &State) -> Result<Base, OutOfMemory>
    ensures { IfOk result (λ base. base ≡ state_of state.now) }
{
    base_with(alloc, state, outputs::copies(&state.outs, alloc)?)
}

/// A copy of the state as a base, with all lines of its outputs sealed. Want of memory also where 64 bits don't hold the bytes
/// or the lines of an output.
pub fn to_sealed_base(alloc: Global, state: &State) -> Result<Base, OutOfMemory>
    requires { HaveLengths state.now.outs.items }
    ensures base { IfOk result (λ base. base ≡ sealed_whole (state_of state.now)) }
    ensures small { OnOk result (HaveSmallOutputs (outs_of state.now.outs.items)) }
{
    base_with(alloc, state, outputs::sealed_copies(&state.outs, alloc)?)
}
