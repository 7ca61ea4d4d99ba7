ghost use Rattle.std.specs.Prelude.{◌≡◌, ◌≢◌, ◌≤◌, ℕ, ◌+◌, ◌∷◌, ◌++◌, ◌<◌, length, slice_index, Contains, EachIndex, IfNone, IfOk, false, IfSome, MatchOption, MatchResult, option_map};
ghost use Rattle.std.specs.Result.{result_ok};
ghost use Rattle.std.specs.Net.Grammar.{Parses};
ghost use Rattle.scalar_net.specs.Family.{width};
ghost use Rattle.scalar_net.specs.Address.{IsIpText, ip_in, ip_text};
ghost use Rattle.scalar_net.specs.Network.{IsNetworkText, IsNetworkOf, network_in};

use crate::inside::{width, without_host_bits};
use crate::{Ip, Network};
use base_types::{Bad, read_digits};
use std::net::{Ipv4Addr, Ipv6Addr};

/// The address that a text writes (RFC 4291, 2.2), with no zone.
pub fn read_ip(text: &[u8]) -> Result<Ip, Bad>
    ensures writes { Parses IsIpText text.now result }
    ensures value { option_map (λ ip. (ip.six, ip.bits)) (result_ok result) ≡ ip_in text.now }
    ensures four { IfOk result (λ ip. ip.six ≡ false → ip_text ip ≡ text.now) }
{
    if let Ok(four) = Ipv4Addr::parse_ascii(text) {
        return Ok(Ip {
            six: false,
            bits: four.to_bits() as u128,
        });
    }
    match Ipv6Addr::parse_ascii(text) {
        Ok(six) => Ok(Ip {
            six: true,
            bits: six.to_bits(),
        }),
        Err(_) => Err(Bad),
    }
}

/// Where a byte stands last.
pub(crate) fn last_of(text: &[u8], mark: u8) -> Option<usize>
    ensures none { IfNone result (EachIndex text.now (λ k. slice_index text.now k ≢ mark)) }
    ensures at { IfSome result (λ i. (i < length text.now) × (slice_index text.now i ≡ mark)) }
    ensures last { IfSome result (λ i. (k : ℕ) → i < k → k < length text.now → slice_index text.now k ≢ mark) }
{
    text.iter().rposition(|b| *b == mark)
}

// What is before the last `/` and what is behind it.
fn around_last_slash(text: &[u8]) -> Option<(&[u8], &[u8])>
    ensures { MatchOption result (¬ (Contains text.now 47)) (λ parts. (text.now ≡ parts.0.now ++ 47 ∷ parts.1.now) × (¬ (Contains parts.1.now 47))) }
{
    let at = last_of(text, b'/')?;
    Some((&text[..at], &text[at + 1..]))
}

fn network_of(ip: Ip, len: u8) -> Network
    requires { len ≤ width ip.six }
    ensures { IsNetworkOf ip len result }
{
    Network {
        ip: Ip {
            six: ip.six,
            bits: without_host_bits(ip.bits, width(ip.six) - len),
        },
        len,
    }
}

/// The network that a text writes: an address, `/` and a length of 1 to 3 digits (RFC 4632). Bits behind the length are cut.
pub fn read_network(text: &[u8]) -> Result<Network, Bad>
    ensures writes { Parses IsNetworkText text.now result }
    ensures value { option_map (λ net. (net.ip.six, net.ip.bits, net.len)) (result_ok result) ≡ network_in text.now }
{
    let Some((address, digits)) = around_last_slash(text) else {
        return Err(Bad);
    };
    let Ok(ip) = read_ip(address) else {
        return Err(Bad);
    };
    let Some(len) = read_digits(digits, 3) else {
        return Err(Bad);
    };
    if len > u64::from(width(ip.six)) {
        return Err(Bad);
    }
    Ok(network_of(ip, len as u8))
}
