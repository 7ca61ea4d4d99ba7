//! The history that the bodies of a generation hold.
ghost use Rattle.std.specs.Prelude.{◌≡◌, ◌<◌, ◌^◌, IfErr, IfOk};
ghost use Rattle.step_code.specs.History.{replay};
ghost use Rattle.store_image.specs.Damage.{behind_bodies, AreNoHistory};
ghost use Rattle.generation_reading.specs.Reading.{AreHistory, IsBodyFault};

use crate::reading::{FRAME, HEADER, base_of};
use crate::replaying::replay_bodies;
use ack_steps::Core;
use base_types::Blob;
use disk_journal::JournalFault;
use std::alloc::Global;
use std::snapshot::Snapshot;
use step_code::{Base, Rules};
use step_log::StepLog;
use stored_types::CodeFault;

/// A state, steps behind it, and a core with the state behind all.
#[derive(Drop)]
pub struct History<R: Rules> {
    pub core: Core<R>,
    pub base: Snapshot<Base>,
    pub steps: StepLog,
}

/// The history that these bodies hold.
///
/// # Errors
///
/// `Damaged` where they hold none: behind the header where there is no body, at the first byte of the first where that is
/// no state, and else at the first byte of what is no step that can be replayed. `OutOfMemory`.
pub fn history_of<R: Rules>(
    alloc: Global,
    rules: R,
    bodies: &[Blob],
) -> Result<History<R>, JournalFault>
    requires { behind_bodies bodies.now < 2 ^ 64 }
    ensures core { IfOk result (λ found. found.core ≡ record { rules = rules; state = replay R.meaning found.base.value found.steps }) }
    ensures history { IfOk result (λ found. AreHistory R.meaning bodies.now found.base.value found.steps) }
    ensures fault { IfErr result (IsBodyFault (AreNoHistory R.meaning bodies.now)) }
{
    let [body, records @ ..] = bodies else {
        return Err(JournalFault::Damaged { at: HEADER });
    };
    let body = body.bytes();
    let (mut core, base) = match base_of(alloc, rules, body) {
        Ok(begun) => begun,
        Err(CodeFault::Bad) => {
            return Err(JournalFault::Damaged { at: HEADER + FRAME });
        }
        Err(CodeFault::OutOfMemory) => return Err(JournalFault::OutOfMemory),
    };
    let start = HEADER + FRAME + body.len() as u64;
    match replay_bodies(alloc, &mut core, records, start) {
        Ok(steps) => Ok(History { core, base, steps }),
        Err(fault) => Err(fault),
    }
}
