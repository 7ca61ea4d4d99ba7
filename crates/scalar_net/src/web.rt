ghost use Rattle.std.specs.Prelude.{◌≡◌, true, false, drop, IfOk, MatchOption, string_bytes};
ghost use Rattle.scalar_net.specs.Url.{is_defanged, refanged, url_text};
ghost use Rattle.base_types.specs.Scalar.{IsReadAs};

use base_types::{ScalarFault, Text};
use std::alloc::{AllocError, Global};
use std::str;
use url::{ParseError, Url};

// What is behind the `hxx` of a text that begins with `hxxp://` or `hxxps://`.
fn behind_hxx(text: &str) -> Option<&str>
    ensures { MatchOption result (is_defanged text.now ≡ false) (λ rest. (is_defanged text.now ≡ true) × (rest.now ≡ drop 3 text.now)) }
{
    match text.strip_prefix("hxx") {
        Some(rest) if rest.starts_with("p://") || rest.starts_with("ps://") => Some(rest),
        _ => None,
    }
}

#[tactic(auto, unfolding(crate::specs::Url::refanged))]
fn refanged(alloc: Global, text: &str) -> Result<String, AllocError>
    ensures { IfOk result (λ changed. string_bytes changed ≡ refanged text.now) }
{
    match behind_hxx(text) {
        Some(rest) => format!(in alloc; "htt{rest}"),
        None => String::from_str(alloc, text),
    }
}

/// The text of a URL with a host, by the URL Standard. A leading `hxxp://` or `hxxps://` is changed back.
#[tactic(auto, unfolding(crate::specs::Url::url_text))]
pub fn read_url(alloc: Global, text: &[u8]) -> Result<Text, ScalarFault>
    ensures { IsReadAs (url_text text.now) result }
{
    let Ok(text) = str::from_utf8(text) else {
        return Err(ScalarFault::Bad);
    };
    let changed = refanged(alloc, text)?;
    match Url::parse(alloc, &changed) {
        Ok(url) if url.has_host() => Ok(Text::from(changed)),
        Err(ParseError::OutOfMemory | ParseError::Overflow) => Err(ScalarFault::OutOfMemory),
        _ => Err(ScalarFault::Bad),
    }
}
