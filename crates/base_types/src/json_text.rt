//! Strings and flags as JSON (RFC 8259).
ghost use Rattle.std.specs.Prelude.{◌≡◌, ◌++◌, ◌<◌, flat_map, OnOk};
ghost use Rattle.base_types.specs.JsonText.{escaped, hex_digit, is_plain, quoted, flag_word};

use crate::OutOfMemory;
use crate::plain_runs::is_plain_text;

/// Whether a byte stands in a JSON string as it is.
pub fn is_plain(byte: u8) -> bool
    ensures { result ≡ is_plain byte }
{
    byte >= 32 && byte != b'"' && byte != b'\\'
}

/// A hexadecimal digit in lower case.
pub fn hex_digit(n: u8) -> u8
    requires { n < 16 }
    ensures { result ≡ hex_digit n }
{
    if n < 10 { b'0' + n } else { b'a' + (n - 10) }
}

fn push_control(out: &mut Vec<u8>, byte: u8) -> Result<(), OutOfMemory>
    requires { byte < 32 }
    ensures { OnOk result (out.new.items ≡ out.old.items ++ escaped byte) }
{
    match byte {
        8 => out.extend_from_slice(b"\\b")?,
        b'\t' => out.extend_from_slice(b"\\t")?,
        b'\n' => out.extend_from_slice(b"\\n")?,
        12 => out.extend_from_slice(b"\\f")?,
        b'\r' => out.extend_from_slice(b"\\r")?,
        _ => {
            out.extend_from_slice(b"\\u00")?;
            out.push(hex_digit(byte / 16))?;
            out.push(hex_digit(byte % 16))?;
        }
    }
    Ok(())
}

fn push_escaped(out: &mut Vec<u8>, byte: u8) -> Result<(), OutOfMemory>
    ensures { OnOk result (out.new.items ≡ out.old.items ++ escaped byte) }
{
    match byte {
        b'"' => out.extend_from_slice(b"\\\"")?,
        b'\\' => out.extend_from_slice(b"\\\\")?,
        0..=31 => push_control(out, byte)?,
        _ => out.push(byte)?,
    }
    Ok(())
}

// The inside of a JSON string.
fn push_content(out: &mut Vec<u8>, text: &[u8]) -> Result<(), OutOfMemory>
    ensures { OnOk result (out.new.items ≡ out.old.items ++ flat_map escaped text.now) }
{
    if is_plain_text(text) {
        out.extend_from_slice(text)?;
        return Ok(());
    }
    'bytes: for byte in text {
        push_escaped(out, *byte)?;
    }
    Ok(())
}

/// Puts a text as a JSON string (RFC 8259, section 7) behind `out`. Without memory, a part of it may stand there.
#[tactic(auto, unfolding(crate::specs::JsonText::quoted))]
pub fn push_quoted(out: &mut Vec<u8>, text: &[u8]) -> Result<(), OutOfMemory>
    ensures { OnOk result (out.new.items ≡ out.old.items ++ quoted text.now) }
{
    out.push(b'"')?;
    push_content(out, text)?;
    out.push(b'"')?;
    Ok(())
}

/// The word of a flag.
pub fn flag_word(flag: bool) -> &'static str
    ensures { result.now ≡ flag_word flag }
{
    if flag { "true" } else { "false" }
}

/// Puts the word of a flag behind `out`.
pub fn push_flag(out: &mut Vec<u8>, flag: bool) -> Result<(), OutOfMemory>
    ensures { OnOk result (out.new.items ≡ out.old.items ++ flag_word flag) }
{
    out.extend_from_slice(flag_word(flag).as_bytes())?;
    Ok(())
}
