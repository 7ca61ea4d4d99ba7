ghost use Rattle.std.specs.Prelude.{◌≡◌, ◌≤◌, ◌-◌, ◌%◌, ◌^◌};
ghost use Rattle.scalar_net.specs.Family.{width};

use crate::Ip;

/// The network of the addresses whose first `len` bits are those of `ip` (RFC 4632).
#[derive(Clone, Copy, Debug, PartialEq, Eq)]
pub struct Network {
    pub ip: Ip,
    /// The length of the prefix in bits.
    pub len: u8,
    pub ghost within: { len ≤ width ip.six },
    pub ghost host_bits_zero: { ip.bits % 2 ^ (width ip.six - len) ≡ 0 },
}
