ghost use Rattle.config_bundle.specs.Reading.{of_code};
ghost use Rattle.std.specs.Prelude.{◌≡◌};

use stored_types::CodeFault;

/// Why bytes give no bundle.
#[derive(Clone, Copy, Debug, PartialEq, Eq)]
pub enum BundleBad {
    /// The bytes are no bundle's code.
    Bad,
    OutOfMemory,
}

impl From<CodeFault> for BundleBad {
    ghost from_gives = { λ from e. e ≡ of_code from };

    fn from(fault: CodeFault) -> Self {
        match fault {
            CodeFault::Bad => BundleBad::Bad,
            CodeFault::OutOfMemory => BundleBad::OutOfMemory,
        }
    }
}
