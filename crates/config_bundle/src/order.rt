ghost use Rattle.std.specs.Prelude.{◌≡◌};
ghost use Rattle.std.specs.Ordering.{is_lt, nat_cmp};
ghost use Rattle.std.specs.Cmp.Lexicographic.{slice_cmp};
ghost use Rattle.config_bundle.specs.Bundle.{names_rise};

use base_types::{Blob, Text};

fn is_below(file: &(Text, Blob), next: &(Text, Blob)) -> bool
    ensures { result ≡ is_lt (slice_cmp nat_cmp file.now.0 next.now.0) }
{
    file.0.bytes().cmp(next.0.bytes()).is_lt()
}

/// Whether each name is above the one before it, in byte order.
pub fn names_rise(files: &[(Text, Blob)]) -> bool
    ensures { result ≡ names_rise files.now }
{
    'files: for i in 1..files.len() {
        if !is_below(&files[i - 1], &files[i]) {
            return false;
        }
    }
    true
}
