ghost use Rattle.std.specs.Prelude.{◌≡◌, ◌==◌, length};
ghost use Rattle.std.specs.List.{list_all, list_any, slice_split};
ghost use Rattle.std.specs.Cow.{cow_str_bytes};
ghost use Rattle.std.specs.Int.{is_in_range};
ghost use Rattle.std.specs.Result.{result_map_both};
ghost use Rattle.scalar_net.specs.Fqdn.{fqdn, is_domain_name, is_ipv4, has_end_hyphen, is_label, is_label_byte, without_final_dot};
ghost use Rattle.base_types.specs.Scalar.{IsReadAs};

use base_types::ScalarFault;
use idna::{AsciiDenyList, Errors, domain_to_ascii_cow};
use std::alloc::Global;
use std::borrow::CowStr;
use std::net::Ipv4Addr;

const LONGEST_NAME: usize = 253;

const LONGEST_LABEL: usize = 63;

fn without_final_dot(text: &[u8]) -> &[u8]
    ensures { result.now ≡ without_final_dot text.now }
{
    match text {
        [front @ .., b'.'] => front,
        _ => text,
    }
}

fn is_label_byte(b: u8) -> bool
    ensures { result ≡ is_label_byte b }
{
    matches!(b, b'a'..=b'z' | b'0'..=b'9' | b'-' | b'_')
}

fn has_end_hyphen(label: &[u8]) -> bool
    ensures { result ≡ has_end_hyphen label.now }
{
    matches!(label, [b'-', ..] | [.., b'-'])
}

fn is_label(label: &[u8]) -> bool
    ensures { result ≡ is_label label.now }
{
    has_label_length(label) && has_label_bytes(label) && !has_end_hyphen(label)
}

fn has_label_length(label: &[u8]) -> bool
    ensures { result ≡ is_in_range 1 63 (length label.now) }
{
    !label.is_empty() && label.len() <= LONGEST_LABEL
}

fn has_label_bytes(label: &[u8]) -> bool
    ensures { result ≡ list_all is_label_byte label.now }
{
    label.iter().all(|b| is_label_byte(*b))
}

fn has_dot(name: &[u8]) -> bool
    ensures { result ≡ list_any (λ b. b == 46) name.now }
{
    name.iter().any(|b| *b == b'.')
}

fn has_labels(name: &[u8]) -> bool
    ensures { result ≡ list_all is_label (slice_split (λ b. b == 46) name.now) }
{
    name.split(|b| *b == b'.').all(|label| is_label(label))
}

fn is_ipv4(name: &[u8]) -> bool
    ensures { result ≡ is_ipv4 name.now }
{
    Ipv4Addr::parse_ascii(name).is_ok()
}

fn is_domain_name(name: &[u8]) -> bool
    ensures { result ≡ is_domain_name name.now }
{
    name.len() <= LONGEST_NAME && has_dot(name) && has_labels(name) && !is_ipv4(name)
}

/// The canonical text of a domain name: its ASCII form (UTS 46) without a final dot. Where the text stands so already, it
/// takes no memory.
#[tactic(auto, unfolding(crate::specs::Fqdn::fqdn))]
pub fn read_fqdn(alloc: Global, text: &[u8]) -> Result<CowStr<'_>, ScalarFault>
    ensures { IsReadAs (fqdn text.now) (result_map_both cow_str_bytes (λ fault. fault) result) }
{
    match domain_to_ascii_cow(alloc, without_final_dot(text), AsciiDenyList::EMPTY) {
        Ok(name) if is_domain_name(name.as_bytes()) => Ok(name),
        Err(Errors::OutOfMemory) => Err(ScalarFault::OutOfMemory),
        _ => Err(ScalarFault::Bad),
    }
}
