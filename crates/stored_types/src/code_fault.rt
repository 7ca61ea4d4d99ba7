ghost use Rattle.stored_types.specs.declared.code_fault.CodeFault.TheVariants as fault;
ghost use Rattle.std.specs.Prelude.{◌≡◌};

use base_types::OutOfMemory;
use std::alloc::AllocFailed;

/// Why bytes give no value.
#[derive(Clone, Copy, Debug, PartialEq, Eq)]
pub enum CodeFault {
    /// The bytes don't begin with the code of a value.
    Bad,
    OutOfMemory,
}

impl From<OutOfMemory> for CodeFault {
    ghost from_gives = { λ _ e. e ≡ fault.OutOfMemory };

    fn from(_: OutOfMemory) -> Self {
        CodeFault::OutOfMemory
    }
}

impl<T: Drop> From<AllocFailed<T>> for CodeFault {
    ghost from_gives = { λ _ e. e ≡ fault.OutOfMemory };

    fn from(_: AllocFailed<T>) -> Self {
        CodeFault::OutOfMemory
    }
}
