ghost use Rattle.std.specs.Prelude.{◌≡◌, ◌≤◌, ◌-◌, ◌↔◌, IsTrue};
ghost use Rattle.scalar_net.specs.Family.{width, front_bits, without_host_bits};
ghost use Rattle.scalar_net.specs.Network.{IsInside, is_inside};

use crate::{Ip, Network};

/// How many bits an address of the family has.
pub(crate) fn width(six: bool) -> u8
    ensures { result ≡ width six }
{
    if six { 128 } else { 32 }
}

// The bits in front of the last `host` bits.
fn front_bits(bits: u128, host: u8) -> u128
    requires { host ≤ 128 }
    ensures { result ≡ front_bits host bits }
{
    if host == 128 { 0 } else { bits >> host }
}

/// The bits with the last `host` of them zero.
pub(crate) fn without_host_bits(bits: u128, host: u8) -> u128
    requires { host ≤ 128 }
    ensures { result ≡ without_host_bits host bits }
{
    let front = front_bits(bits, host);
    if host == 128 { 0 } else { front << host }
}

/// Whether the network holds the address: both are of one family, and the first bits of the address are the network's.
pub fn holds(net: &Network, ip: &Ip) -> bool
    ensures inside { IsTrue result ↔ IsInside net.now ip.now }
    ensures test { result ≡ is_inside net.now ip.now }
{
    let host = width(net.ip.six) - net.len;
    ip.six == net.ip.six && front_bits(ip.bits, host) == front_bits(net.ip.bits, host)
}
