//! Inputs of cases that are built of parts, where they are too long to be written out.
use base_types::OutOfMemory;
use std::alloc::Global;
use table_lines::unescaped;

/// The bytes of parts, with ` | ` between two: a text with escapes as it stands, `N * TEXT` such a text N times, and `N # TEXT` N such
/// texts, where the `#` of the first stands for 100000, that of the next for 100001, and so on.
pub fn built(alloc: Global, parts: &str) -> Result<Vec<u8>, OutOfMemory> {
    let mut bytes = Vec::new(alloc);
    for part in parts.split(" | ") {
        push_part(alloc, &mut bytes, part)?;
    }
    Ok(bytes)
}

fn push_part(alloc: Global, bytes: &mut Vec<u8>, part: &str) -> Result<(), OutOfMemory> {
    if let Some((times, text)) = counted(part, " * ") {
        return push_repeated(bytes, times, &unescaped(alloc, text)?);
    }
    match counted(part, " # ") {
        Some((count, text)) => push_numbered(alloc, bytes, count, text),
        None => Ok(bytes.extend_from_slice(&unescaped(alloc, part)?)?),
    }
}

// The number before a sign, and the text behind it.
fn counted<'p>(part: &'p str, sign: &str) -> Option<(u64, &'p str)> {
    let (number, text) = part.split_once(sign)?;
    Some((number.parse().ok()?, text))
}

/// Puts these bytes so many times behind those that are there.
pub fn push_repeated(bytes: &mut Vec<u8>, times: u64, text: &[u8]) -> Result<(), OutOfMemory> {
    for _ in 0..times {
        bytes.extend_from_slice(text)?;
    }
    Ok(())
}

fn push_numbered(
    alloc: Global,
    bytes: &mut Vec<u8>,
    count: u64,
    text: &str,
) -> Result<(), OutOfMemory> {
    let Some((front, back)) = text.split_once('#') else {
        return Ok(());
    };
    let front = unescaped(alloc, front)?;
    let back = unescaped(alloc, back)?;
    for n in 0..count {
        let number = n.wrapping_add(100_000);
        bytes.extend_from_slice(&front)?;
        bytes.extend_from_slice(format!(in alloc; "{number}")?.as_bytes())?;
        bytes.extend_from_slice(&back)?;
    }
    Ok(())
}
