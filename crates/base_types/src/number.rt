ghost use Rattle.std.specs.Prelude.{◌≡◌, ◌<◌, ◌+◌, ◌++◌, length, take, drop, OnOk, OnErr, MatchOption};
ghost use Rattle.std.specs.Int.{to_be_bytes, w16, w32, w64};

use crate::{Blob, OutOfMemory};

/// Appends a number as two bytes, the most significant first.
pub fn put_u16(to: &mut Blob, n: u16) -> Result<(), OutOfMemory>
    ensures ok { OnOk result (to.new ≡ to.old ++ to_be_bytes w16 n) }
    ensures err { OnErr result (to.new ≡ to.old) }
{
    to.append(&n.to_be_bytes())
}

/// Appends a number as four bytes, the most significant first.
pub fn put_u32(to: &mut Blob, n: u32) -> Result<(), OutOfMemory>
    ensures ok { OnOk result (to.new ≡ to.old ++ to_be_bytes w32 n) }
    ensures err { OnErr result (to.new ≡ to.old) }
{
    to.append(&n.to_be_bytes())
}

/// Appends a number as eight bytes, the most significant first.
pub fn put_u64(to: &mut Blob, n: u64) -> Result<(), OutOfMemory>
    ensures ok { OnOk result (to.new ≡ to.old ++ to_be_bytes w64 n) }
    ensures err { OnErr result (to.new ≡ to.old) }
{
    to.append(&n.to_be_bytes())
}

// The N bytes from `at` on.
fn bytes_at<const N: usize>(from: &[u8], at: usize) -> Option<[u8; N]>
    ensures { MatchOption result (length from.now < at + N) (λ bytes. bytes ≡ take N (drop at from.now)) }
{
    Some(*from.get(at..)?.first_chunk::<N>()?)
}

/// Reads two bytes from `at` on as a number, the most significant first.
pub fn read_u16(from: &[u8], at: usize) -> Option<u16>
    ensures { MatchOption result (length from.now < at + 2) (λ n. take 2 (drop at from.now) ≡ to_be_bytes w16 n) }
{
    let bytes = bytes_at::<2>(from, at)?;
    Some(u16::from_be_bytes(bytes))
}

/// Reads four bytes from `at` on as a number, the most significant first.
pub fn read_u32(from: &[u8], at: usize) -> Option<u32>
    ensures { MatchOption result (length from.now < at + 4) (λ n. take 4 (drop at from.now) ≡ to_be_bytes w32 n) }
{
    let bytes = bytes_at::<4>(from, at)?;
    Some(u32::from_be_bytes(bytes))
}

/// Reads eight bytes from `at` on as a number, the most significant first.
pub fn read_u64(from: &[u8], at: usize) -> Option<u64>
    ensures { MatchOption result (length from.now < at + 8) (λ n. take 8 (drop at from.now) ≡ to_be_bytes w64 n) }
{
    let bytes = bytes_at::<8>(from, at)?;
    Some(u64::from_be_bytes(bytes))
}
