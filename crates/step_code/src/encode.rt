ghost use Rattle.std.specs.Prelude.{◌≡◌, IfOk, OnOk};
ghost use Rattle.step_code.specs.Code.{code_of_step, code_of_base, first_format, IsWritable, IsWritableBase};

use crate::base::Base;
use crate::step::Step;
use base_types::{Blob, OutOfMemory};
use std::alloc::Global;
use stored_types::Coded;

/// The code of a step. Where a length can't be written in its bytes, there is no code, as where memory runs out.
pub fn encode_step(alloc: Global, step: &Step) -> Result<Blob, OutOfMemory>
    ensures code { IfOk result (λ code. code ≡ code_of_step step.now) }
    ensures writable { OnOk result (IsWritable step.now) }
{
    let mut code = Blob::from(Vec::new(alloc));
    step.put(&mut code)?;
    Ok(code)
}

/// The code of a state. Where a length can't be written in its bytes, there is no code, as where memory runs out.
pub fn encode_base(alloc: Global, base: &Base) -> Result<Blob, OutOfMemory>
    ensures code { IfOk result (λ code. code ≡ code_of_base first_format base.now) }
    ensures writable { OnOk result (IsWritableBase first_format base.now) }
{
    let mut code = Blob::from(Vec::new(alloc));
    base.put(&mut code)?;
    Ok(code)
}
