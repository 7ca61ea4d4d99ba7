//! Laws of the texts. Each is a clause of a function that does nothing.
ghost use Rattle.std.specs.Prelude.{◌≡◌, ◌↔◌, ℕ, true, List, Some};
ghost use Rattle.scalar_net.specs.declared.address.Ip.{Ip};
ghost use Rattle.scalar_net.specs.Address.{IsIpText, ip_text, groups};
ghost use Rattle.scalar_net.specs.Canonical.{IsCanonicalText};
ghost use Rattle.scalar_net.specs.declared.network.Network.{Network};
ghost use Rattle.std.specs.declared.net.ipv4_addr.Ipv4Addr.{Ipv4Addr};
ghost use Rattle.std.specs.Net.Grammar.{IsIpv4Text};
ghost use Rattle.scalar_net.specs.Fqdn.{fqdn, is_ipv4};
ghost use Rattle.scalar_net.specs.Url.{url_text};
ghost use Rattle.scalar_net.specs.Network.{IsInside, IsNetworkOf, IsNetworkText, network_text};

use crate::{Ip, Network};

/// Reading what was printed gives the address again.
pub fn printed_ip_reads_back(ip: &Ip)
    ensures { IsIpText (ip_text ip.now) ip.now }
{}

/// A text writes one address at most.
pub fn ip_of_a_text_is_one(text: &[u8])
    ensures { (a b : Ip) → IsIpText text.now a → IsIpText text.now b → a ≡ b }
{}

/// No two addresses have one canonical text.
pub fn ip_texts_differ(a: &Ip, b: &Ip)
    ensures { ip_text a.now ≡ ip_text b.now → a.now ≡ b.now }
{}

/// To clean an address twice is to clean it once: what its canonical text writes has that text.
pub fn clean_ip_stays(ip: &Ip)
    ensures { (again : Ip) → IsIpText (ip_text ip.now) again → ip_text again ≡ ip_text ip.now }
{}

/// The canonical text of an IPv6 address compresses the first of its longest zero runs (RFC 5952, 4.2).
pub fn ipv6_text_is_canonical(ip: &Ip)
    ensures { ip.now.six ≡ true → IsCanonicalText (groups ip.now.bits) (ip_text ip.now) }
{}

/// Reading what was printed gives the network again.
pub fn printed_network_reads_back(net: &Network)
    ensures { IsNetworkText (network_text net.now) net.now }
{}

/// A text writes one network at most.
pub fn network_of_a_text_is_one(text: &[u8])
    ensures { (a b : Network) → IsNetworkText text.now a → IsNetworkText text.now b → a ≡ b }
{}

/// No two networks have one canonical text.
pub fn network_texts_differ(a: &Network, b: &Network)
    ensures { network_text a.now ≡ network_text b.now → a.now ≡ b.now }
{}

/// To clean a network twice is to clean it once: what its canonical text writes has that text.
pub fn clean_network_stays(net: &Network)
    ensures { (again : Network) → IsNetworkText (network_text net.now) again → network_text again ≡ network_text net.now }
{}

/// A network holds an address exactly where it is the network of its length that the address is in.
pub fn network_of_what_it_holds(net: &Network, ip: &Ip)
    ensures { IsInside net.now ip.now ↔ IsNetworkOf ip.now net.now.len net.now }
{}

/// To clean a domain name twice is to clean it once.
pub fn clean_fqdn_stays(text: &[u8])
    ensures { (name : List ℕ) → fqdn text.now ≡ Some name → fqdn name ≡ Some name }
{}

/// The test of a domain name refuses the texts of IPv4 addresses, and no others.
pub fn ipv4_test_is_exact(text: &[u8])
    ensures { (is_ipv4 text.now ≡ true) ↔ ((a : Ipv4Addr) × IsIpv4Text text.now a) }
{}

/// No canonical domain name is an IPv4 address.
pub fn fqdn_is_no_ipv4_text(text: &[u8])
    ensures { (name : List ℕ) (a : Ipv4Addr) → fqdn text.now ≡ Some name → ¬ (IsIpv4Text name a) }
{}

/// To clean a URL twice is to clean it once.
pub fn clean_url_stays(text: &[u8])
    ensures { (kept : List ℕ) → url_text text.now ≡ Some kept → url_text kept ≡ Some kept }
{}
