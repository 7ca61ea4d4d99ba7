//! Looks at a source by its bytes.
ghost use Rattle.std.specs.Prelude.{◌≡◌, ◌≤◌, ◌-◌, ◌++◌, List, ℕ, length, take, nat_lt, Some, IfOk, OnOk, IsErr, IsErrOf};
ghost use Rattle.edge_traits.specs.Count.{Rose};

use crate::ReaderFault;
use edge_traits::{Failed, Source};
use std::alloc::{AllocError, Global};

// How much is read at a time, in bytes.
const SLICE: usize = 16384;

/// Whether there is a byte at this offset.
pub(crate) fn has_byte<S: Source>(source: &mut S, at: u64) -> Result<bool, Failed>
    ensures byte { (feed : List ℕ) → (S.source source.old).told ≡ Some feed → IfOk result (λ has. has ≡ nat_lt at (length feed)) }
    ensures failed { IsErr result → Rose (S.source source.old).faults (S.source source.new).faults }
    ensures name { (S.source source.new).name ≡ (S.source source.old).name }
    ensures told { (S.source source.new).told ≡ (S.source source.old).told }
    ensures count { (S.source source.old).faults ≤ (S.source source.new).faults }
{
    let mut byte = [0];
    let n = source.read_at(at, &mut byte)?;
    Ok(n > 0)
}

/// The length of a feed that has at most so many bytes, in some 64 reads of a byte.
pub(crate) fn length_within<S: Source>(source: &mut S, most: u64) -> Result<u64, Failed>
    ensures length { (feed : List ℕ) → (S.source source.old).told ≡ Some feed → length feed ≤ most → IfOk result (λ len. len ≡ length feed) }
    ensures within { IfOk result (λ len. len ≤ most) }
    ensures failed { IsErr result → Rose (S.source source.old).faults (S.source source.new).faults }
    ensures name { (S.source source.new).name ≡ (S.source source.old).name }
    ensures told { (S.source source.new).told ≡ (S.source source.old).told }
    ensures count { (S.source source.old).faults ≤ (S.source source.new).faults }
{
    let mut low = 0;
    let mut high = most;
    'halves: while low < high {
        let middle = low + (high - low) / 2;
        if has_byte(source, middle)? {
            low = middle + 1;
        } else {
            high = middle;
        }
    }
    Ok(low)
}

/// The first bytes of a feed: so many, or all where it has fewer.
pub fn read_front<S: Source>(
    alloc: Global,
    source: &mut S,
    most: usize,
) -> Result<Vec<u8>, ReaderFault>
    ensures front { (feed : List ℕ) → (S.source source.old).told ≡ Some feed → IfOk result (λ front. front.items ≡ take most feed) }
    ensures within { IfOk result (λ front. length front.items ≤ most) }
    ensures failed { IsErrOf result ReaderFault.Failed → Rose (S.source source.old).faults (S.source source.new).faults }
    ensures name { (S.source source.new).name ≡ (S.source source.old).name }
    ensures told { (S.source source.new).told ≡ (S.source source.old).told }
    ensures count { (S.source source.old).faults ≤ (S.source source.new).faults }
{
    let mut front = Vec::new(alloc);
    let mut slice = [0; SLICE];
    'slices: while front.len() < most {
        let n = source.read_at(front.len() as u64, &mut slice)?;
        if n == 0 {
            return Ok(front);
        }
        push_front(&mut front, &slice[..n], most)?;
    }
    Ok(front)
}

// Puts as many of these bytes behind the others as there is room.
fn push_front(front: &mut Vec<u8>, bytes: &[u8], most: usize) -> Result<(), AllocError>
    requires { length front.old.items ≤ most }
    ensures { OnOk result (front.new.items ≡ front.old.items ++ take (most - length front.old.items) bytes.now) }
{
    let room = most - front.len();
    if bytes.len() > room {
        front.extend_from_slice(&bytes[..room])
    } else {
        front.extend_from_slice(bytes)
    }
}
