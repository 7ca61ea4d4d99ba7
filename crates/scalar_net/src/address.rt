ghost use Rattle.std.specs.Prelude.{◌<◌, ◌^◌};
ghost use Rattle.scalar_net.specs.Family.{width};

/// An IPv4 or IPv6 address as a number, the first bit of the address its most significant.
#[derive(Clone, Copy, Debug, PartialEq, Eq)]
pub struct Ip {
    /// Whether it is an IPv6 address.
    pub six: bool,
    pub bits: u128,
    pub ghost in_range: { bits < 2 ^ width six },
}
