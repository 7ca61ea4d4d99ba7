ghost use Rattle.std.specs.Prelude.{◌≡◌, ◌++◌, ℕ, List, length, IfOk, IsErrOf};
ghost use Rattle.step_code.specs.Code.{code_of_step, code_of_base, first_format, IsWritable, IsWritableBase};

use crate::base::Base;
use crate::step::Step;
use std::alloc::Global;
use stored_types::{CodeFault, Coded};

/// The step whose code stands in front of the bytes, and the length of its code.
pub fn decode_step(alloc: Global, bytes: &[u8]) -> Result<(Step, usize), CodeFault>
    ensures step { IfOk result (λ found. IsWritable found.0) }
    ensures code { IfOk result (λ found. (rest : List ℕ) × (bytes.now ≡ code_of_step found.0 ++ rest) × (found.1 ≡ length (code_of_step found.0))) }
    ensures bad { IsErrOf result CodeFault.Bad → (step : Step) (rest : List ℕ) → IsWritable step → bytes.now ≡ code_of_step step ++ rest → ⊥ }
{
    let (step, rest) = Step::take(alloc, bytes)?;
    Ok((step, bytes.len() - rest.len()))
}

/// The state whose code stands in front of the bytes, and the length of its code.
pub fn decode_base(alloc: Global, bytes: &[u8]) -> Result<(Base, usize), CodeFault>
    ensures base { IfOk result (λ found. IsWritableBase first_format found.0) }
    ensures code { IfOk result (λ found. (rest : List ℕ) × (bytes.now ≡ code_of_base first_format found.0 ++ rest) × (found.1 ≡ length (code_of_base first_format found.0))) }
    ensures bad { IsErrOf result CodeFault.Bad → (base : Base) (rest : List ℕ) → IsWritableBase first_format base → bytes.now ≡ code_of_base first_format base ++ rest → ⊥ }
{
    let (base, rest) = Base::take(alloc, bytes)?;
    Ok((base, bytes.len() - rest.len()))
}
