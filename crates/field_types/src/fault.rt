ghost use Rattle.std.specs.Prelude.{◌≡◌};
ghost use Rattle.base_types.specs.declared.scalar.ScalarFault.{ScalarFault};
ghost use Rattle.field_types.specs.declared.fault.FieldFault.TheVariants.{OutOfMemory};
ghost use Rattle.field_types.specs.Faults.{of_scalar};

use base_types::ScalarFault;
use std::alloc::AllocError;

/// Why a value has no place in a field.
#[derive(Clone, Copy, Debug, PartialEq, Eq)]
pub enum FieldFault {
    /// The kind of the field has no canonical value for it.
    BadValue,
    OutOfMemory,
}

impl From<AllocError> for FieldFault {
    ghost from_gives = { λ _ fault. fault ≡ OutOfMemory };

    fn from(_: AllocError) -> Self {
        FieldFault::OutOfMemory
    }
}

impl From<base_types::OutOfMemory> for FieldFault {
    ghost from_gives = { λ _ fault. fault ≡ OutOfMemory };

    fn from(_: base_types::OutOfMemory) -> Self {
        FieldFault::OutOfMemory
    }
}

impl From<ScalarFault> for FieldFault {
    ghost from_gives = { λ from fault. fault ≡ of_scalar from };

    fn from(fault: ScalarFault) -> Self {
        match fault {
            ScalarFault::Bad => FieldFault::BadValue,
            ScalarFault::OutOfMemory => FieldFault::OutOfMemory,
        }
    }
}
