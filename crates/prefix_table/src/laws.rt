//! Laws of the look-up. Each is a clause of a function that does nothing.
ghost use Rattle.std.specs.Prelude.{◌≡◌, ◌↔◌, ℕ, Some, None};
ghost use Rattle.prefix_table.specs.Longest.{longest, IsLongest, HoldsNone};

use scalar_net::{Ip, Network};

/// The longest row is found exactly where there is one, and nothing exactly where no row holds the address.
pub fn longest_is_exact(rows: &[Network], ip: &Ip)
    ensures found { (i : ℕ) → (longest rows.now ip.now ≡ Some i) ↔ IsLongest rows.now ip.now i }
    ensures none { (longest rows.now ip.now ≡ None) ↔ HoldsNone rows.now ip.now }
{}
