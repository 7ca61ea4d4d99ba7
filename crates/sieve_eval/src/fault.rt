ghost use Rattle.std.specs.Prelude.{◌≡◌};
ghost use Rattle.sieve_eval.specs.declared.fault.EvalFault.TheVariants.{OutOfMemory as ran_out};

use base_types::OutOfMemory;

/// Why a sieve makes nothing of an event.
#[derive(Clone, Copy, Debug, PartialEq, Eq)]
pub enum EvalFault {
    /// The run reached a copy whose value the field's kind doesn't take. Its source stands at that offset in bytes.
    BadValue { at: u32 },
    OutOfMemory,
}

impl From<OutOfMemory> for EvalFault {
    ghost from_gives = { λ _ fault. fault ≡ ran_out };

    fn from(_: OutOfMemory) -> Self {
        EvalFault::OutOfMemory
    }
}
