ghost use Rattle.std.specs.Prelude.{◌≡◌};
ghost use Rattle.base_types.specs.declared.scalar.ScalarFault.TheVariants.{OutOfMemory};

use crate::memory;
use std::alloc::AllocError;

/// A text has no value by the rule of its kind.
#[derive(Clone, Copy, Debug, PartialEq, Eq)]
pub struct Bad;

/// Why a text gives no value, where one takes memory.
#[derive(Clone, Copy, Debug, PartialEq, Eq)]
pub enum ScalarFault {
    /// The text has no value by the rule of its kind.
    Bad,
    OutOfMemory,
}

impl From<AllocError> for ScalarFault {
    ghost from_gives = { λ _ fault. fault ≡ OutOfMemory };

    fn from(_: AllocError) -> Self {
        ScalarFault::OutOfMemory
    }
}

impl From<memory::OutOfMemory> for ScalarFault {
    ghost from_gives = { λ _ fault. fault ≡ OutOfMemory };

    fn from(_: memory::OutOfMemory) -> Self {
        ScalarFault::OutOfMemory
    }
}
