ghost use Rattle.std.specs.Prelude.{◌≡◌};
ghost use Rattle.bundle_fetch.specs.declared.fault.BundleFault.TheVariants as fault;

use base_types::{OutOfMemory, Text};

/// Why a bundle wasn't fetched.
#[derive(Debug, Drop, PartialEq)]
pub enum BundleFault {
    /// The shelf has no file of this name, the first such: that of the bundle, or one of those that it names.
    Absent { name: Text },
    /// The file of this name couldn't be fetched or read.
    Failed { name: Text },
    OutOfMemory,
}

impl From<OutOfMemory> for BundleFault {
    ghost from_gives = { λ _ e. e ≡ fault.OutOfMemory };

    fn from(_: OutOfMemory) -> Self {
        BundleFault::OutOfMemory
    }
}
