ghost use Rattle.std.specs.Prelude.{◌≡◌};
ghost use Rattle.sieve_reader.specs.declared.fault.Fault.TheVariants.{OutOfMemory as ran_out};

use base_types::OutOfMemory;

/// What is wrong with a token.
#[derive(Clone, Copy)]
pub enum Cause {
    Expected,
    Field,
    Value,
    Pattern,
    Deep,
}

/// Why nothing was read: the cause, and how many tokens are left from the refused one on.
#[derive(Clone, Copy)]
pub enum Fault {
    Refused { cause: Cause, left: usize },
    OutOfMemory,
}

impl From<OutOfMemory> for Fault {
    ghost from_gives = { λ _ fault. fault ≡ ran_out };

    fn from(_: OutOfMemory) -> Self {
        Fault::OutOfMemory
    }
}
