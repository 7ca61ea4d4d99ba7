//! The next line of control.
ghost use Rattle.std.specs.Prelude.{◌≡◌, ◌==◌, ◌≤◌, ◌<◌, ◌+◌, ◌-◌, ◌++◌, ℕ, List, [], length, take, drop, position, Some, IfOk, OnOk, IsErr, IsErrOf, IfSome, MatchOption, ◌∷◌};
ghost use Rattle.base_types.specs.Lines.{newline};
ghost use Rattle.edge_traits.specs.Count.{Rose};
ghost use Rattle.live_reload.specs.Control.{control_in};
ghost use Rattle.live_reload.specs.Lines.{lines_from, longest_control, longest_line, IsNextLine};

use crate::{Control, read_control};
use edge_traits::{Failed, Source};
use feed_reader::ReaderFault;
use std::alloc::{AllocError, Global};

// A line with more bytes, its newline included, is bad, and is not held whole.
const LONGEST_LINE: usize = 1024;

// Behind this offset control isn't read.
pub(crate) const LONGEST_CONTROL: u64 = 1_073_741_824;

// So many bytes are read at a time.
const PIECE: usize = 256;

// Where the first of these bytes is that ends a line.
fn newline_in(bytes: &[u8]) -> Option<usize>
    ensures { result ≡ position (λ b. b == newline) bytes.now }
{
    bytes.iter().position(|b| *b == b'\n')
}

// Puts as many of these bytes behind the others as are held of a line.
fn hold(front: &mut Vec<u8>, bytes: &[u8]) -> Result<(), AllocError>
    requires { length front.old.items ≤ longest_line }
    ensures held { OnOk result (front.new.items ≡ front.old.items ++ take (longest_line - length front.old.items) bytes.now) }
{
    let room = LONGEST_LINE - front.len();
    if bytes.len() > room {
        front.extend_from_slice(&bytes[..room])
    } else {
        front.extend_from_slice(bytes)
    }
}

// Reads some bytes from an offset on, at least one where there is one ahead of the last offset.
fn read_piece<K: Source>(control: &mut K, at: u64, piece: &mut [u8; PIECE]) -> Result<usize, Failed>
    requires { at ≤ longest_control }
    ensures within { IfOk result (λ n. n ≤ length piece.new) }
    ensures near { IfOk result (λ n. at + n ≤ longest_control) }
    ensures bytes { (content : List ℕ) → (K.source control.old).told ≡ Some content → IfOk result (λ n. take n piece.new ≡ take n (drop at content)) }
    ensures end { (content : List ℕ) → (K.source control.old).told ≡ Some content → IfOk result (λ n. n ≡ 0 → lines_from at content ≡ []) }
    ensures failed { IsErr result → Rose (K.source control.old).faults (K.source control.new).faults }
    ensures told { (K.source control.new).told ≡ (K.source control.old).told }
    ensures count { (K.source control.old).faults ≤ (K.source control.new).faults }
{
    let left = LONGEST_CONTROL - at;
    if left == 0 {
        return Ok(0);
    }
    if left < PIECE as u64 {
        control.read_at(at, &mut piece[..left as usize])
    } else {
        control.read_at(at, piece.as_mut_slice())
    }
}

// The next line that ends with a newline, of a long one its first bytes, and the offset behind it; where there is none, the offset up to
// which control was read.
fn next_line<K: Source>(
    alloc: Global,
    control: &mut K,
    at: u64,
) -> Result<(Option<Vec<u8>>, u64), ReaderFault>
    requires { at ≤ longest_control }
    ensures line { (content : List ℕ) → (K.source control.old).told ≡ Some content
        → IfOk result (λ next. MatchOption next.0 (lines_from at content ≡ []) (λ held. (line : List ℕ) × IsNextLine content at line next.1 × (held.items ≡ take longest_line line))) }
    ensures behind { IfOk result (λ next. IfSome next.0 (λ held. at < next.1) × (next.1 ≤ longest_control)) }
    ensures failed { IsErrOf result ReaderFault.Failed → Rose (K.source control.old).faults (K.source control.new).faults }
    ensures told { (K.source control.new).told ≡ (K.source control.old).told }
    ensures count { (K.source control.old).faults ≤ (K.source control.new).faults }
{
    let mut front = Vec::new(alloc);
    let mut upto = at;
    let mut piece = [0; PIECE];
    'pieces: loop {
        let n = read_piece(control, upto, &mut piece)?;
        if n == 0 {
            return Ok((None, upto));
        }
        match newline_in(&piece[..n]) {
            Some(end) => {
                hold(&mut front, &piece[..end])?;
                return Ok((Some(front), upto + end as u64 + 1));
            }
            None => {
                hold(&mut front, &piece[..n])?;
                upto += n as u64;
            }
        }
    }
}

/// What the next line of control asks for, and the offset behind it; where no further line ends with a newline, the offset up to which
/// control was read.
pub(crate) fn next_control<K: Source>(
    alloc: Global,
    control: &mut K,
    at: u64,
) -> Result<(Option<Control>, u64), ReaderFault>
    requires { at ≤ longest_control }
    ensures asked { (content : List ℕ) → (K.source control.old).told ≡ Some content
        → IfOk result (λ next. MatchOption next.0 (lines_from at content ≡ []) (λ asked. (line : List ℕ) × IsNextLine content at line next.1 × (asked ≡ control_in line))) }
    ensures behind { IfOk result (λ next. IfSome next.0 (λ asked. at < next.1) × (next.1 ≤ longest_control)) }
    ensures failed { IsErrOf result ReaderFault.Failed → Rose (K.source control.old).faults (K.source control.new).faults }
    ensures told { (K.source control.new).told ≡ (K.source control.old).told }
    ensures count { (K.source control.old).faults ≤ (K.source control.new).faults }
{
    let (line, upto) = next_line(alloc, control, at)?;
    let Some(line) = line else {
        return Ok((None, upto));
    };
    let asked = read_control(alloc, line.as_slice())?;
    Ok((Some(asked), upto))
}
