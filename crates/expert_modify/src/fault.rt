ghost use Rattle.std.specs.Prelude.{◌≡◌};
ghost use Rattle.expert_modify.specs.declared.fault.RulesFault.TheVariants.{OutOfMemory as ran_out};

use base_types::OutOfMemory;
use std::alloc::{AllocError, AllocFailed};

/// Why a text gives no rules.
#[derive(Clone, Copy, Debug, PartialEq, Eq)]
pub enum RulesFault {
    /// The rule with this number, from 1, is none; the first such. 0 where the text is no JSON list (RFC 8259).
    Rule { rule: u32 },
    /// There are too many rules, or too many patterns in them.
    Limit,
    OutOfMemory,
}

impl From<OutOfMemory> for RulesFault {
    ghost from_gives = { λ _ fault. fault ≡ ran_out };

    fn from(_: OutOfMemory) -> Self {
        RulesFault::OutOfMemory
    }
}

impl From<AllocError> for RulesFault {
    ghost from_gives = { λ _ fault. fault ≡ ran_out };

    fn from(_: AllocError) -> Self {
        RulesFault::OutOfMemory
    }
}

impl<T: Drop> From<AllocFailed<T>> for RulesFault {
    ghost from_gives = { λ _ fault. fault ≡ ran_out };

    fn from(_: AllocFailed<T>) -> Self {
        RulesFault::OutOfMemory
    }
}
