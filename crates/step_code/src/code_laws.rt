ghost use Rattle.std.specs.Prelude.{◌≡◌, ◌++◌, List, ℕ};
ghost use Rattle.step_code.specs.Code.{code_of_step, code_of_base, first_format, IsWritable, IsWritableBase};

use crate::{Base, Step};

/// No code of a step begins another, so what was written is read back, whatever follows it.
pub fn steps_have_one_code()
    ensures { (a b : Step) (x y : List ℕ) → IsWritable a → IsWritable b → code_of_step a ++ x ≡ code_of_step b ++ y → (a ≡ b) × (x ≡ y) }
{}

/// No code of a state begins another, so what was written is read back, whatever follows it.
pub fn bases_have_one_code()
    ensures { (a b : Base) (x y : List ℕ) → IsWritableBase first_format a → IsWritableBase first_format b → code_of_base first_format a ++ x ≡ code_of_base first_format b ++ y → (a ≡ b) × (x ≡ y) }
{}
