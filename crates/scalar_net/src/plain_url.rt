//! URLs that are canonical as they stand, and are seen at once to be so.
ghost use Rattle.std.specs.Prelude.{◌≡◌, ◌++◌, ◌⊎◌, Some, codes, nat_lt, IfSome, IsTrue};
ghost use Rattle.std.specs.List.{list_all, prefix_len};
ghost use Rattle.url.specs.Input.{rsplit_once};
ghost use Rattle.scalar_net.specs.PlainUrl.{begins_with_letter, ends_host, is_host_byte};
ghost use Rattle.scalar_net.specs.Url.{url_text};

use crate::reading::last_of;

// What is behind `http://` or `https://`.
fn behind_scheme(text: &[u8]) -> Option<&[u8]>
    ensures { IfSome result (λ rest. (text.now ≡ codes "https://" ++ rest.now) ⊎ (text.now ≡ codes "http://" ++ rest.now)) }
{
    match text.strip_prefix(b"https://".as_slice()) {
        Some(rest) => Some(rest),
        None => text.strip_prefix(b"http://".as_slice()),
    }
}

fn is_host_byte(b: u8) -> bool
    ensures { result ≡ is_host_byte b }
{
    matches!(b, b'a'..=b'z' | b'0'..=b'9' | b'-' | b'.' | b'_')
}

// How many bytes of a host with a name in lower case stand at the front.
fn host_len(text: &[u8]) -> usize
    ensures { result ≡ prefix_len is_host_byte text.now }
{
    text.iter().take_while(|b| is_host_byte(**b)).count()
}

// What is behind the last dot.
fn last_label(host: &[u8]) -> &[u8]
    ensures { result.now ≡ (rsplit_once 46 host.now).1 }
{
    match last_of(host, b'.') {
        Some(at) => &host[at + 1..],
        None => host,
    }
}

// Whether the last label of a host begins with a letter, so that the host is no address.
fn has_name(host: &[u8]) -> bool
    ensures { result ≡ begins_with_letter (rsplit_once 46 host.now).1 }
{
    matches!(last_label(host), [b'a'..=b'z', ..])
}

fn ends_host(behind: &[u8]) -> bool
    ensures { result ≡ ends_host behind.now }
{
    match behind {
        [] => true,
        [b, ..] => matches!(*b, b'/' | b'?' | b'#'),
    }
}

fn are_visible(text: &[u8]) -> bool
    ensures { result ≡ list_all (nat_lt 32) text.now }
{
    text.iter().all(|b| *b > b' ')
}

/// Whether a text is a URL as it stands, as is seen at once of `http` and `https` at a host with a name in lower case and
/// with no port. A false answer says nothing.
pub fn is_plain_url(text: &str) -> bool
    ensures { IsTrue result → url_text text.now ≡ Some text.now }
{
    let bytes = text.as_bytes();
    let Some(rest) = behind_scheme(bytes) else {
        return false;
    };
    let (host, behind) = rest.split_at(host_len(rest));
    has_name(host) && ends_host(behind) && are_visible(bytes)
}
