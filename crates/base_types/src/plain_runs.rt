//! Bytes of JSON strings, looked at many at a time.
ghost use Rattle.std.specs.Prelude.{◌≡◌, ◌<◌, length, map, take, drop, IsTrue};
ghost use Rattle.std.specs.List.{list_all, prefix_len};
ghost use Rattle.std.specs.Simd.Lanes.{mask_l};
ghost use Rattle.base_types.specs.JsonText.{is_plain};
ghost use Rattle.base_types.specs.Plain.{is_foreign, is_plain_ascii, is_special, PlainBetween};

use crate::is_plain;
use std::simd::prelude::*;
use std::str;

// A bit for each byte that is escaped in a string.
fn specials(bytes: u8x16) -> u64
    ensures { result ≡ mask_l (map is_special bytes) }
{
    (bytes.simd_eq(u8x16::splat(b'"'))
        | bytes.simd_eq(u8x16::splat(b'\\'))
        | bytes.simd_lt(u8x16::splat(32))).to_bitmask()
}

// The same of eight bytes.
fn specials_of_eight(bytes: u8x8) -> u64
    ensures { result ≡ mask_l (map is_special bytes) }
{
    (bytes.simd_eq(u8x8::splat(b'"'))
        | bytes.simd_eq(u8x8::splat(b'\\'))
        | bytes.simd_lt(u8x8::splat(32))).to_bitmask()
}

// A bit for each byte that is escaped in a string or is no ASCII.
fn foreigns(bytes: u8x16) -> u64
    ensures { result ≡ mask_l (map is_foreign bytes) }
{
    (bytes.simd_eq(u8x16::splat(b'"'))
        | bytes.simd_eq(u8x16::splat(b'\\'))
        | bytes.simd_lt(u8x16::splat(32))
        | bytes.simd_gt(u8x16::splat(127))).to_bitmask()
}

fn is_plain_ascii(byte: u8) -> bool
    ensures { result ≡ is_plain_ascii byte }
{
    is_plain(byte) && byte.is_ascii()
}

// The same as `ascii_len`, one byte after the other.
fn ascii_len_by_one(text: &[u8]) -> usize
    ensures { result ≡ prefix_len is_plain_ascii text.now }
{
    text.iter()
        .take_while(|byte| is_plain_ascii(**byte))
        .count()
}

// How many bytes at the front are ASCII and stand in a JSON string as they are.
fn ascii_len(text: &[u8]) -> usize
    ensures { result ≡ prefix_len is_plain_ascii text.now }
{
    let mut at = 0;
    'lanes: while text.len() - at >= 16 {
        let found = foreigns(u8x16::from_slice(&text[at..]));
        if found != 0 {
            return at + found.trailing_zeros() as usize;
        }
        at += 16;
    }
    at + ascii_len_by_one(&text[at..])
}

/// The bytes at the front that are ASCII and stand in a JSON string as they are, and what is behind them.
pub fn split_plain_ascii(text: &[u8]) -> (&str, &[u8])
    ensures front { result.0.now ≡ take (prefix_len is_plain_ascii text.now) text.now }
    ensures back { result.1.now ≡ drop (prefix_len is_plain_ascii text.now) text.now }
{
    let (front, behind) = text.split_at(ascii_len(text));
    // It is UTF-8, since it is ASCII.
    (unsafe { str::from_utf8_unchecked(front) }, behind)
}

fn are_plain(text: &[u8]) -> bool
    ensures { result ≡ list_all is_plain text.now }
{
    text.iter().all(|byte| is_plain(*byte))
}

// Whether fewer than sixteen bytes stand in a JSON string as they are. Two looks at eight may overlap.
fn is_short_plain(text: &[u8]) -> bool
    requires { length text.now < 16 }
    ensures { IsTrue result → PlainBetween text.now 0 (length text.now) }
{
    let len = text.len();
    if len < 8 {
        return are_plain(text);
    }
    specials_of_eight(u8x8::from_slice(text)) == 0
        && specials_of_eight(u8x8::from_slice(&text[len - 8..])) == 0
}

/// Whether a text stands in a JSON string as it is. The last look may overlap the one before.
pub fn is_plain_text(text: &[u8]) -> bool
    ensures { IsTrue result → PlainBetween text.now 0 (length text.now) }
{
    let len = text.len();
    if len < 16 {
        return is_short_plain(text);
    }
    let mut at = 0;
    'lanes: while len - at > 16 {
        if specials(u8x16::from_slice(&text[at..])) != 0 {
            return false;
        }
        at += 16;
    }
    specials(u8x16::from_slice(&text[len - 16..])) == 0
}
