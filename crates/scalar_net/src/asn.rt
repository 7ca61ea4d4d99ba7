ghost use Rattle.std.specs.Prelude.{◌≡◌, ℕ, MatchResult};
ghost use Rattle.std.specs.Result.{result_ok};
ghost use Rattle.std.specs.Net.Grammar.{Parses};
ghost use Rattle.scalar_net.specs.Asn.{IsAsnText, asn_in, behind_as, is_asn};

use base_types::{Bad, read_digits};

fn behind_as(text: &[u8]) -> &[u8]
    ensures { result.now ≡ behind_as text.now }
{
    match text {
        [a, s, rest @ ..] if a.to_ascii_lowercase() == b'a' && s.to_ascii_lowercase() == b's' =>
            rest,
        _ => text,
    }
}

fn is_asn(number: u64) -> bool
    ensures { result ≡ is_asn number }
{
    0 < number && number <= u32::MAX as u64
}

/// The number of an autonomous system, from 1 to 4294967295, perhaps behind `AS` in any case (RFC 6793, RFC 7607).
pub fn read_asn(text: &[u8]) -> Result<u32, Bad>
    ensures writes { Parses IsAsnText text.now result }
    ensures value { result_ok result ≡ asn_in text.now }
{
    let Some(number) = read_digits(behind_as(text), 10) else {
        return Err(Bad);
    };
    if !is_asn(number) {
        return Err(Bad);
    }
    Ok(number as u32)
}
