//! Laws of the code. Each is a clause of a function that does nothing.
ghost use Rattle.std.specs.Prelude.{◌≡◌, Some};
ghost use Rattle.config_bundle.specs.Bundle.{bundle_code, bundle_in, IsBundle};

use crate::Bundle;

/// What was written of a bundle is read as that bundle.
pub fn written_bundle_reads_back()
    ensures { (b : Bundle) → IsBundle b → bundle_in (bundle_code b) ≡ Some b }
{}

/// Bytes that are read as a bundle are its code, so that no bundle has two.
pub fn read_bundle_was_written(bytes: &[u8])
    ensures code { (b : Bundle) → bundle_in bytes.now ≡ Some b → bundle_code b ≡ bytes.now }
    ensures bundle { (b : Bundle) → bundle_in bytes.now ≡ Some b → IsBundle b }
{}
