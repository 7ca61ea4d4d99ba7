ghost use Rattle.std.specs.Prelude.{◌≡◌};

use base_types::OutOfMemory;
use edge_traits::Failed;
use std::alloc::AllocError;

/// What the whole history of a store comes to.
#[derive(Clone, Copy, Debug, PartialEq, Eq)]
pub enum Verdict {
    /// All of its steps are allowed, and there are so many.
    Legal { steps: u64 },
    /// The step of this number, from 1, is the first that isn't allowed.
    Illegal { step: u64 },
    /// The bytes of a file from this offset on are none that a store has there.
    Damaged { file: u64, at: u64 },
}

/// Why there is no verdict.
#[derive(Clone, Copy, Debug, PartialEq, Eq)]
pub enum AuditFault {
    Disk,
    OutOfMemory,
}

impl From<Failed> for AuditFault {
    ghost use Rattle.store_audit.specs.declared.verdict.AuditFault.TheVariants as fault;

    ghost from_gives = { λ _ e. e ≡ fault.Disk };

    fn from(_: Failed) -> Self {
        AuditFault::Disk
    }
}

impl From<OutOfMemory> for AuditFault {
    ghost use Rattle.store_audit.specs.declared.verdict.AuditFault.TheVariants as fault;

    ghost from_gives = { λ _ e. e ≡ fault.OutOfMemory };

    fn from(_: OutOfMemory) -> Self {
        AuditFault::OutOfMemory
    }
}

impl From<AllocError> for AuditFault {
    ghost use Rattle.store_audit.specs.declared.verdict.AuditFault.TheVariants as fault;

    ghost from_gives = { λ _ e. e ≡ fault.OutOfMemory };

    fn from(_: AllocError) -> Self {
        AuditFault::OutOfMemory
    }
}
