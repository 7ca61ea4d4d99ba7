//! What the bodies of a store's files say: the generation in force, and the state that a generation begins with.
ghost use Rattle.std.specs.Prelude.{◌≡◌, ◌≢◌, ◌≤◌, ◌<◌, ◌^◌, ℕ, List, IfErr, IfOk, IsErrOf, MatchOption};
ghost use Rattle.stored_types.specs.Code.{number};
ghost use Rattle.step_code.specs.declared.base.Base.{Base};
ghost use Rattle.step_code.specs.Code.{code_of_base, first_format, IsWritableBase};
ghost use Rattle.step_code.specs.Sound.{IsSound};
ghost use Rattle.step_code.specs.Spent.{last_given};
ghost use Rattle.store_image.specs.Damage.{behind_bodies, NameNone};
ghost use Rattle.generation_reading.specs.Reading.{AreGenerations, IsBase, IsBodyFault};

use ack_steps::{Core, CoreFault};
use base_types::{Blob, read_u64};
use disk_journal::JournalFault;
use std::alloc::Global;
use std::snapshot::Snapshot;
use step_code::{Base, LAST_GIVEN, Rules, decode_base};
use stored_types::CodeFault;

/// How many bytes stand before the first record of a file.
pub const HEADER: u64 = disk_journal::HEADER as u64;

/// How many bytes of a record stand before its body.
pub const FRAME: u64 = disk_journal::FRAME as u64;

// The number that a body of the root shows.
fn generation_of(body: &[u8]) -> Option<u64>
    ensures { MatchOption result ((n : ℕ) → n ≤ last_given → body.now ≢ number n) (λ n. (body.now ≡ number n) × (n ≤ last_given)) }
{
    if body.len() != 8 {
        return None;
    }
    let generation = read_u64(body, 0)?;
    if generation <= LAST_GIVEN {
        Some(generation)
    } else {
        None
    }
}

/// The generation that these bodies of the root name last.
///
/// # Errors
///
/// `Damaged` at the gate before the first body that is no number of a generation, or behind the header if there is none.
pub fn generation_named(bodies: &[Blob]) -> Result<u64, JournalFault>
    requires { behind_bodies bodies.now < 2 ^ 64 }
    ensures ok { IfOk result (λ generation. AreGenerations bodies.now generation) }
    ensures fault { IfErr result (IsBodyFault (NameNone bodies.now)) }
{
    let mut last = None;
    let mut at = HEADER;
    'bodies: for body in bodies {
        let Some(generation) = generation_of(body.bytes()) else {
            return Err(JournalFault::Damaged { at });
        };
        last = Some(generation);
        at += FRAME + body.bytes().len() as u64;
    }
    match last {
        Some(generation) => Ok(generation),
        None => Err(JournalFault::Damaged { at: HEADER }),
    }
}

/// A core with the state that a body has, and that state.
///
/// # Errors
///
/// `Bad` where no store may begin a generation with this body. `OutOfMemory`.
pub fn base_of<R: Rules>(
    alloc: Global,
    rules: R,
    body: &[u8],
) -> Result<(Core<R>, Snapshot<Base>), CodeFault>
    ensures core { IfOk result (λ begun. begun.0 ≡ record { rules = rules; state = begun.1.value }) }
    ensures base { IfOk result (λ begun. IsBase R.meaning body.now begun.1.value) }
    ensures bad { IsErrOf result CodeFault.Bad → (base : Base) → IsWritableBase first_format base → IsSound R.meaning base → body.now ≢ code_of_base first_format base }
{
    let (state, len) = decode_base(alloc, body)?;
    if len != body.len() {
        return Err(CodeFault::Bad);
    }
    let base = Snapshot::of(&state);
    match Core::new(alloc, rules, state) {
        Ok(core) => Ok((core, base)),
        Err(CoreFault::Refused) => Err(CodeFault::Bad),
        Err(CoreFault::OutOfMemory) => Err(CodeFault::OutOfMemory),
    }
}
