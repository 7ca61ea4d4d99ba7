//! The first bits of addresses.
ghost use Rattle.std.specs.Prelude.{◌≡◌, ◌≤◌, ◌-◌};
ghost use Rattle.scalar_net.specs.Family.{width, front_bits, without_host_bits};
ghost use Rattle.prefix_table.specs.Trie.{bit_at};

use scalar_net::Ip;

/// How many bits an address of the family has.
pub fn width(six: bool) -> u8
    ensures { result ≡ width six }
{
    if six { 128 } else { 32 }
}

/// The first so many bits of an address, as a number.
pub fn front(ip: &Ip, len: u8) -> u128
    requires { len ≤ width ip.now.six }
    ensures { result ≡ front_bits (width ip.now.six - len) ip.now.bits }
{
    let host = width(ip.six) - len;
    if host == 128 { 0 } else { ip.bits >> host }
}

/// An address with zeros behind its first so many bits, as a number.
pub fn cut(ip: &Ip, len: u8) -> u128
    requires { len ≤ width ip.now.six }
    ensures { result ≡ without_host_bits (width ip.now.six - len) ip.now.bits }
{
    let host = width(ip.six) - len;
    let front = front(ip, len);
    if host == 128 { 0 } else { front << host }
}

/// The bit of an address at a place, counted from 0 at its front; the last bit behind that.
pub fn bit_at(ip: &Ip, place: u8) -> bool
    ensures { result ≡ bit_at ip.now place }
{
    let behind = (width(ip.six) - 1).saturating_sub(place);
    (ip.bits >> behind) % 2 == 1
}
