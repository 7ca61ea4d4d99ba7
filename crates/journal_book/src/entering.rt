//! Taking a step in: its code behind those that wait, and the state that it leads to.
ghost use Rattle.std.specs.Prelude.{◌≡◌, ◌≤◌, ◌+◌, ◌++◌, length, take, None, IfOk, OnOk, OnErr};
ghost use Rattle.step_code.specs.After.{after};
ghost use Rattle.step_code.specs.Code.{code_of_step, IsWritable};
ghost use Rattle.step_code.specs.Content.{May};
ghost use Rattle.step_code.specs.Spent.{spent};

use ack_steps::Core;
use base_types::{Blob, OutOfMemory};
use disk_journal::Journal;
use history_laws::what_may_be_taken_may_be_replayed;
use std::alloc::Global;
use step_code::{Rules, Step};
use stored_types::Coded;

// Drops what an earlier call left behind the first so many bytes. There is room for as much again, as a flush is followed by
// one of about its length.
fn cut_back(alloc: Global, pending: &mut Blob, used: usize) -> Result<(), OutOfMemory>
    requires { used ≤ length pending.old }
    ensures ok { OnOk result (pending.new ≡ take used pending.old) }
    ensures err { OnErr result (pending.new ≡ pending.old) }
{
    let len = pending.bytes().len();
    if len > used {
        let mut bytes = Vec::with_capacity(alloc, len)?;
        bytes.extend_from_slice(&pending.bytes()[..used])?;
        *pending = Blob::from(bytes);
    }
    Ok(())
}

// Writes the code of a step behind the first so many bytes, and answers the length with it. Where memory runs out, those
// bytes are as they were, and a part of the code may stand behind them.
#[tactic(auto, using(stored_types::proofs::Begins::begins_front, stored_types::proofs::Begins::begins_long))]
fn put_code(
    alloc: Global,
    pending: &mut Blob,
    used: usize,
    step: &Step,
) -> Result<usize, OutOfMemory>
    requires { used ≤ length pending.old }
    ensures code { OnOk result (pending.new ≡ take used pending.old ++ code_of_step step.now) }
    ensures len { IfOk result (λ len. len ≡ length pending.new) }
    ensures writable { OnOk result (IsWritable step.now) }
    ensures kept { OnErr result (take used pending.new ≡ take used pending.old) }
    ensures within { OnErr result (used ≤ length pending.new) }
{
    cut_back(alloc, pending, used)?;
    step.put(pending)?;
    Ok(pending.bytes().len())
}

// The core takes a step that may be taken and brings no number past the last one.
fn apply<R: Rules>(core: &mut Core<R>, step: &Step) -> Result<(), OutOfMemory>
    requires may { May R.meaning core.old.state step.now }
    requires small { spent R.meaning core.old.state step.now ≡ None }
    ensures ok { OnOk result (core.new ≡ record core.old { state = after R.meaning core.old.state step.now }) }
    ensures err { OnErr result (core.new ≡ core.old) }
{
    what_may_be_taken_may_be_replayed::<R>();
    let _ = core.plan();
    core.apply_fitting(step)
}

/// Takes a step in: its code stands behind the first `used` bytes that wait, the journal has room for all of them, and the
/// core has the state behind it. Answers the length of what waits. Where memory runs out, those bytes and the core are as
/// they were.
pub fn enter<R: Rules>(
    alloc: Global,
    pending: &mut Blob,
    used: usize,
    journal: &mut Journal,
    core: &mut Core<R>,
    step: &Step,
) -> Result<usize, OutOfMemory>
    requires within { used ≤ length pending.old }
    requires may { May R.meaning core.old.state step.now }
    requires small { spent R.meaning core.old.state step.now ≡ None }
    ensures core { OnOk result (core.new ≡ record core.old { state = after R.meaning core.old.state step.now }) }
    ensures code { OnOk result (pending.new ≡ take used pending.old ++ code_of_step step.now) }
    ensures len { IfOk result (λ len. len ≡ length pending.new) }
    ensures writable { OnOk result (IsWritable step.now) }
    ensures room { IfOk result (λ len. len ≤ journal.new.room) }
    ensures journal { journal.new ≡ record journal.old { room = journal.new.room } }
    ensures no_less { journal.old.room ≤ journal.new.room }
    ensures err { OnErr result (core.new ≡ core.old) }
    ensures kept { OnErr result (take used pending.new ≡ take used pending.old) }
    ensures still { OnErr result (used ≤ length pending.new) }
{
    let len = put_code(alloc, pending, used, step)?;
    journal.reserve(len as u64)?;
    apply(core, step)?;
    Ok(len)
}
