ghost use Rattle.std.specs.Prelude.{◌≡◌, ◌<◌, false, length, IfOk, IfSome};
ghost use Rattle.sieve_tokens.specs.Bytes.{is_escape};
ghost use Rattle.sieve_tokens.specs.Quoted.{content_of, meaning_of, unescaped, IsQuoted};
ghost use Rattle.sieve_tokens.specs.Scan.{closing, quoted_len};

use base_types::{OutOfMemory, Text};
use std::alloc::Global;
use std::str;

fn is_escape(b: u8) -> bool
    ensures { result ≡ is_escape b }
{
    matches!(b, b'\\' | b'\'' | b'"' | b'n' | b't')
}

// Where the closing quote stands, behind the first.
fn closing(quote: u8, behind: &[u8]) -> Option<usize>
    ensures place { result ≡ closing quote false 0 behind.now }
    ensures within { IfSome result (λ at. at < length behind.now) }
{
    let mut escaped = false;
    'bytes: for (at, b) in behind.iter().enumerate() {
        if escaped {
            if !is_escape(*b) {
                return None;
            }
            escaped = false;
        } else if *b == quote {
            return Some(at);
        } else {
            escaped = *b == b'\\';
        }
    }
    None
}

/// The length of a quoted text, of what stands behind its first quote.
#[tactic(auto, unfolding(crate::specs::Scan::quoted_len))]
pub fn quoted_len(quote: u8, behind: &[u8]) -> Option<usize>
    ensures { result ≡ quoted_len quote behind.now }
{
    let at = closing(quote, behind)?;
    match str::from_utf8(&behind[..at]) {
        Ok(_) => Some(at + 2),
        Err(_) => None,
    }
}

fn meaning_of(b: u8) -> u8
    ensures { result ≡ meaning_of b }
{
    match b {
        b'n' => b'\n',
        b't' => b'\t',
        _ => b,
    }
}

fn unescaped(alloc: Global, inner: &[u8]) -> Result<Vec<u8>, OutOfMemory>
    ensures { IfOk result (λ text. text.items ≡ unescaped false inner.now) }
{
    let mut text = Vec::new(alloc);
    let mut escaped = false;
    'bytes: for b in inner {
        if !escaped && *b == b'\\' {
            escaped = true;
            continue;
        }
        text.push(if escaped { meaning_of(*b) } else { *b })?;
        escaped = false;
    }
    Ok(text)
}

/// The text that a quoted text stands for.
pub fn content(alloc: Global, piece: &[u8]) -> Result<Text, OutOfMemory>
    requires { IsQuoted piece.now }
    ensures { IfOk result (λ text. text ≡ content_of piece.now) }
{
    let bytes = unescaped(alloc, &piece[1..piece.len() - 1])?;
    match String::from_utf8(bytes) {
        Ok(text) => Ok(Text::from(text)),
        Err(_) => unreachable!(),
    }
}
