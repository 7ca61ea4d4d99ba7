//! Whether a state is that of a new store.
ghost use Rattle.std.specs.Prelude.{◌≡◌, ◌↔◌, true, IfOk};
ghost use Rattle.store_audit.specs.Audit.{IsFirst};

use ack_steps::Core;
use base_types::OutOfMemory;
use generation_reading::first_state;
use std::alloc::Global;
use step_code::{Base, Rules, bases_have_one_code, encode_base};

/// Whether both states are the same. Want of memory also where one of them has no code.
pub(crate) fn is_same_state(alloc: Global, a: &Base, b: &Base) -> Result<bool, OutOfMemory>
    ensures { IfOk result (λ same. (same ≡ true) ↔ (a.now ≡ b.now)) }
{
    bases_have_one_code();
    let a_code = encode_base(alloc, a)?;
    let b_code = encode_base(alloc, b)?;
    Ok(a_code == b_code)
}

/// Whether the core's state is that of a new store of its bundle.
pub(crate) fn is_first<R: Rules>(alloc: Global, core: &Core<R>) -> Result<bool, OutOfMemory>
    ensures { IfOk result (λ is. (is ≡ true) ↔ IsFirst R.meaning core.now.state) }
{
    let base = core.base()?;
    let bots = core.rules().facts(core.plan()).as_slice();
    let first = first_state(alloc, bots, &base.bundle)?;
    is_same_state(alloc, &base, &first)
}
