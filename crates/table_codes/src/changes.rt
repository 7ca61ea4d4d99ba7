//! Codes that are changed: cut short, with a bit turned, with a wrong length.
use crate::calls::Kind;
use crate::marked::{Length, Marked};
use base_types::{Blob, OutOfMemory};
use std::alloc::{AllocError, Global};
use step_code::{decode_base, decode_step, encode_base, encode_step};
use stored_types::CodeFault;

// What is read from the bytes, written again, and the length that is answered.
fn step_again(alloc: Global, bytes: &[u8]) -> Result<(Blob, usize), CodeFault> {
    match decode_step(alloc, bytes) {
        Ok((step, len)) => with_len(encode_step(alloc, &step), len),
        Err(fault) => Err(fault),
    }
}

fn state_again(alloc: Global, bytes: &[u8]) -> Result<(Blob, usize), CodeFault> {
    match decode_base(alloc, bytes) {
        Ok((state, len)) => with_len(encode_base(alloc, &state), len),
        Err(fault) => Err(fault),
    }
}

fn with_len(code: Result<Blob, OutOfMemory>, len: usize) -> Result<(Blob, usize), CodeFault> {
    Ok((code?, len))
}

// What is read from bytes.
#[derive(Clone, Copy, PartialEq)]
enum Verdict {
    Bad,
    /// It is written as the bytes that were read.
    Again,
    Otherwise,
}

fn read_code(alloc: Global, kind: Kind, bytes: &[u8]) -> Result<Verdict, AllocError> {
    let found = match kind {
        Kind::Step => step_again(alloc, bytes),
        Kind::State => state_again(alloc, bytes),
    };
    match found {
        Ok((code, len)) if bytes.get(..len) == Some(code.bytes()) => Ok(Verdict::Again),
        Ok(_) => Ok(Verdict::Otherwise),
        Err(CodeFault::Bad) => Ok(Verdict::Bad),
        Err(CodeFault::OutOfMemory) => Err(AllocError),
    }
}

/// How many of the shorter fronts are bad.
pub fn fronts(alloc: Global, kind: Kind, bytes: &[u8]) -> Result<String, AllocError> {
    let mut bad = 0usize;
    for len in 0..bytes.len() {
        if read_code(alloc, kind, &bytes[..len])? == Verdict::Bad {
            bad = bad.saturating_add(1);
        }
    }
    format!(in alloc; "{bad} of {} bad", bytes.len())
}

/// How many codes are read of those with the lowest or the highest bit of one byte turned, and how many of them aren't written again.
pub fn turns(alloc: Global, kind: Kind, bytes: &[u8]) -> Result<String, AllocError> {
    let mut again = 0usize;
    let mut otherwise = 0usize;
    for place in 0..bytes.len() {
        for bits in [1u8, 0x80] {
            let mut turned = bytes.to_vec(alloc)?;
            turned[place] ^= bits;
            match read_code(alloc, kind, &turned)? {
                Verdict::Bad => {}
                Verdict::Again => again = again.saturating_add(1),
                Verdict::Otherwise => otherwise = otherwise.saturating_add(1),
            }
        }
    }
    format!(in alloc; "{again} read and written again, {otherwise} otherwise")
}

/// How many codes are bad where one marked length is one more than the bytes behind it or the largest, with all that stands behind it
/// and with three bytes.
pub fn lengths(alloc: Global, kind: Kind, code: &Marked) -> Result<String, AllocError> {
    let mut bad = 0usize;
    for length in &code.lengths {
        let front = code.bytes.get(..length.place).unwrap_or(&[]);
        let rest = code.bytes.get(length.end()..).unwrap_or(&[]);
        for (number, behind) in wrong(rest) {
            let mut changed = front.to_vec(alloc)?;
            changed.extend_from_slice(last_bytes(&number.to_be_bytes(), length))?;
            changed.extend_from_slice(behind)?;
            if read_code(alloc, kind, &changed)? == Verdict::Bad {
                bad = bad.saturating_add(1);
            }
        }
    }
    format!(in alloc; "{} lengths, {bad} codes bad", code.lengths.len())
}

// Wrong lengths, and what stands behind them.
fn wrong(rest: &[u8]) -> [(u64, &[u8]); 4] {
    let past = (rest.len() as u64).saturating_add(1);
    [
        (past, rest),
        (u64::MAX, rest),
        (4, &[1, 0, 1]),
        (u64::MAX, &[1, 0, 1]),
    ]
}

// As many of the last bytes as the length has.
fn last_bytes<'b>(bytes: &'b [u8], length: &Length) -> &'b [u8] {
    bytes
        .get(bytes.len().saturating_sub(length.width)..)
        .unwrap_or(&[])
}
