//! Texts in JSON strings (RFC 8259, section 7), written without memory.
ghost use Rattle.std.specs.Prelude.{◌≡◌, ◌<◌, ◌≤◌, length, take, IfOk, OnOk, OnErr, IsErr};
ghost use Rattle.std.specs.List.{flat_map, prefix_len};
ghost use Rattle.edge_traits.specs.Count.{Rose};
ghost use Rattle.edge_traits.specs.Output.{TookFront};
ghost use Rattle.edge_traits.specs.Sink.{Took};
ghost use Rattle.base_types.specs.JsonText.{escaped, is_plain};

use base_types::{hex_digit, is_plain};
use edge_traits::{Failed, Sink, write_all};

fn write_control<S: Sink>(out: &mut S, byte: u8) -> Result<(), Failed>
    requires { byte < 32 }
    ensures ok { OnOk result (Took (S.sink out.old) (S.sink out.new) (escaped byte)) }
    ensures err { OnErr result (TookFront (S.sink out.old) (S.sink out.new) (escaped byte)) }
    ensures failed { IsErr result → Rose (S.sink out.old).faults (S.sink out.new).faults }
    ensures count { (S.sink out.old).faults ≤ (S.sink out.new).faults }
{
    match byte {
        8 => write_all(out, b"\\b"),
        b'\t' => write_all(out, b"\\t"),
        b'\n' => write_all(out, b"\\n"),
        12 => write_all(out, b"\\f"),
        b'\r' => write_all(out, b"\\r"),
        _ => {
            let digits = [hex_digit(byte / 16), hex_digit(byte % 16)];
            write_all(out, &[b'\\', b'u', b'0', b'0', digits[0], digits[1]])
        }
    }
}

fn write_escaped<S: Sink>(out: &mut S, byte: u8) -> Result<(), Failed>
    ensures ok { OnOk result (Took (S.sink out.old) (S.sink out.new) (escaped byte)) }
    ensures err { OnErr result (TookFront (S.sink out.old) (S.sink out.new) (escaped byte)) }
    ensures failed { IsErr result → Rose (S.sink out.old).faults (S.sink out.new).faults }
    ensures count { (S.sink out.old).faults ≤ (S.sink out.new).faults }
{
    match byte {
        b'"' => write_all(out, b"\\\""),
        b'\\' => write_all(out, b"\\\\"),
        0..=31 => write_control(out, byte),
        _ => write_all(out, &[byte]),
    }
}

// How many bytes in front stand in a JSON string as they are.
fn plain_len(text: &[u8]) -> usize
    ensures { result ≡ prefix_len is_plain text.now }
{
    text.iter().take_while(|byte| is_plain(**byte)).count()
}

// Writes what stands in front: bytes as they are, or one that is escaped. Answers how many.
fn write_run<S: Sink>(out: &mut S, text: &[u8]) -> Result<usize, Failed>
    requires { 0 < length text.now }
    ensures some { IfOk result (λ n. (0 < n) × (n ≤ length text.now)) }
    ensures ok { IfOk result (λ n. Took (S.sink out.old) (S.sink out.new) (flat_map escaped (take n text.now))) }
    ensures err { OnErr result (TookFront (S.sink out.old) (S.sink out.new) (flat_map escaped text.now)) }
    ensures failed { IsErr result → Rose (S.sink out.old).faults (S.sink out.new).faults }
    ensures count { (S.sink out.old).faults ≤ (S.sink out.new).faults }
{
    let n = plain_len(text);
    if n == 0 {
        write_escaped(out, text[0])?;
        Ok(1)
    } else {
        write_all(out, &text[..n])?;
        Ok(n)
    }
}

/// Writes the inside of a JSON string. After a failure the sink has got a front of it.
pub fn write_content<S: Sink>(out: &mut S, text: &[u8]) -> Result<(), Failed>
    ensures ok { OnOk result (Took (S.sink out.old) (S.sink out.new) (flat_map escaped text.now)) }
    ensures err { OnErr result (TookFront (S.sink out.old) (S.sink out.new) (flat_map escaped text.now)) }
    ensures failed { IsErr result → Rose (S.sink out.old).faults (S.sink out.new).faults }
    ensures count { (S.sink out.old).faults ≤ (S.sink out.new).faults }
{
    let mut rest = text;
    'runs: while !rest.is_empty() {
        let n = write_run(out, rest)?;
        rest = &rest[n..];
    }
    Ok(())
}
