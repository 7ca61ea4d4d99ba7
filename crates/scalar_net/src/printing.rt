ghost use Rattle.std.specs.Prelude.{◌≡◌, IfOk, Some};
ghost use Rattle.scalar_net.specs.Address.{ip_text};
ghost use Rattle.scalar_net.specs.Network.{network_text};

use crate::{Ip, Network};
use base_types::{OutOfMemory, Text};
use std::alloc::Global;
use std::fmt;
use std::net::{Ipv4Addr, Ipv6Addr};

impl fmt::Display for Ip {
    ghost output = { λ ip. Some (ip_text ip) };

    fn fmt<W: fmt::Write>(&self, f: &mut fmt::Formatter<W>) -> fmt::Result {
        if self.six {
            fmt::Display::fmt(&Ipv6Addr::from_bits(self.bits).hex_groups(), f)
        } else {
            fmt::Display::fmt(&Ipv4Addr::from_bits(self.bits as u32), f)
        }
    }
}

/// The canonical text of an address (RFC 5952, 4): an IPv6 address in hex groups alone.
pub fn print_ip(alloc: Global, ip: &Ip) -> Result<Text, OutOfMemory>
    ensures { IfOk result (λ text. text ≡ ip_text ip.now) }
{
    Ok(Text::from(format!(in alloc; "{ip}")?))
}

/// The canonical text of a network: its address, `/` and the length.
pub fn print_network(alloc: Global, net: &Network) -> Result<Text, OutOfMemory>
    ensures { IfOk result (λ text. text ≡ network_text net.now) }
{
    let ip = net.ip;
    let len = net.len;
    Ok(Text::from(format!(in alloc; "{ip}/{len}")?))
}
