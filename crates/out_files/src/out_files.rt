ghost use Rattle.std.specs.Prelude.{◌≡◌, ◌≢◌, ◌<◌, ◌≤◌, ◌+◌, ◌++◌, [], ◌∷◌, ℕ, List, length, max, take, Some, None, IfOk, IfErr, OnOk, IsErr, IsErrOf};
ghost use Rattle.edge_traits.specs.Count.{Rose};
ghost use Rattle.edge_traits.specs.Disk.{Image, longest_file, ChangesOnly, Adds, Only, Leaves, LeavesOthers};
ghost use Rattle.out_files.specs.Output.{lines_text, completed, KeepsFront, IsFaultOf};
ghost use Rattle.out_files.specs.Run.{HasRoom, RunsAbove, IsSoFar};
ghost use Rattle.std.specs.Vec.{vec_capacity};

use base_types::Blob;
use edge_traits::{Disk, Failed};
use std::alloc::{AllocError, Global};

// The lines are gathered, and written out once there are so many bytes of them.
const PIECE: usize = 65_536;

/// Why an output file could not be completed.
#[derive(Clone, Copy, Debug, PartialEq, Eq)]
pub enum OutFault {
    Disk,
    /// The file has this many bytes, fewer than are sealed.
    Short { have: u64 },
    OutOfMemory,
}

impl From<Failed> for OutFault {
    ghost use Rattle.out_files.specs.declared.out_files.OutFault.TheVariants as fault;

    ghost from_gives = { λ _ e. e ≡ fault.Disk };

    fn from(_: Failed) -> Self {
        OutFault::Disk
    }
}

impl From<AllocError> for OutFault {
    ghost use Rattle.out_files.specs.declared.out_files.OutFault.TheVariants as fault;

    ghost from_gives = { λ _ e. e ≡ fault.OutOfMemory };

    fn from(_: AllocError) -> Self {
        OutFault::OutOfMemory
    }
}

/// Completes an output file: its first `sealed` bytes, and then the lines, each with a newline, and nothing else. It
/// syncs the file and answers its length in bytes. Nothing is written below the sealed length, so that a crash keeps
/// what is sealed.
///
/// # Errors
///
/// `Short` where the file has fewer bytes than are sealed; it stays as it is. `Disk`. `OutOfMemory`, before the disk is
/// touched.
pub fn bring_up<D: Disk>(
    alloc: Global,
    disk: &mut D,
    file: u64,
    sealed: u64,
    lines: &[Blob],
) -> Result<u64, OutFault>
    requires { sealed + length (lines_text lines.now) ≤ longest_file }
    ensures length { IfOk result (λ n. n ≡ sealed + length (lines_text lines.now)) }
    ensures completed { (files after : Image) → (D.disk disk.old).told ≡ Some files → (D.disk disk.new).told ≡ Some after
        → OnOk result (after file ≡ completed (files file) sealed lines.now) }
    ensures durable { (after : Image) → (D.disk disk.new).told ≡ Some after → OnOk result (Only (after file) ((D.disk disk.new).may_leave file)) }
    ensures fault { (files : Image) → (D.disk disk.old).told ≡ Some files → IfErr result (IsFaultOf (files file) sealed) }
    ensures long { (files : Image) → (D.disk disk.old).told ≡ Some files → OnOk result (sealed ≤ length (files file)) }
    ensures short { (have : ℕ) → IsErrOf result (OutFault.Short have) → (D.disk disk.new).told ≡ (D.disk disk.old).told }
    ensures elsewhere { (files : Image) → (D.disk disk.old).told ≡ Some files → ChangesOnly files (D.disk disk.new).told file }
    ensures untold { (D.disk disk.old).told ≡ None → (D.disk disk.new).told ≡ None }
    ensures crash_elsewhere { Adds (D.disk disk.old) (D.disk disk.new) (λ other. other ≢ file) }

    // Sealed bytes that every image has at the start are kept by a crash at any moment.
    ensures any_moment { (front : List ℕ) → length front ≡ sealed → ((c : List ℕ) → (D.disk disk.old).may_leave file c → take sealed c ≡ front)
        → Leaves (D.disk disk.old) (D.disk disk.new)
        (KeepsFront (D.disk disk.old) file front) }

    // In each other file a crash at any moment leaves what it might have left there before.
    ensures others_any_moment { Leaves (D.disk disk.old) (D.disk disk.new) (LeavesOthers (D.disk disk.old) file) }
    ensures failed { IsErrOf result OutFault.Disk → Rose (D.disk disk.old).faults (D.disk disk.new).faults }
    ensures count { (D.disk disk.old).faults ≤ (D.disk disk.new).faults }

    // Memory is taken before the disk is touched.
    ensures no_memory { IsErrOf result OutFault.OutOfMemory → disk.new ≡ disk.old }
{
    let mut buffer = buffer_for(alloc, lines)?;
    let have = disk.len(file)?;
    if have < sealed {
        return Err(OutFault::Short { have });
    }
    let end = write_lines(disk, file, sealed, lines, &mut buffer)?;
    disk.cut(file, end)?;
    disk.sync(file)?;
    Ok(end)
}

// An empty buffer with room for a piece, and for any one of the lines behind it.
fn buffer_for(alloc: Global, lines: &[Blob]) -> Result<Vec<u8>, AllocError>
    ensures empty { IfOk result (λ buffer. buffer.items ≡ []) }
    ensures room { IfOk result (λ buffer. HasRoom (vec_capacity buffer) lines.now) }
{
    let mut longest = 0;
    'lines: for line in lines {
        longest = longer(longest, line.bytes().len());
    }
    Vec::with_capacity(alloc, PIECE + longest)
}

fn longer(a: usize, b: usize) -> usize
    ensures { result ≡ max a b }
{
    if a < b { b } else { a }
}

// Writes the lines from the sealed length on, and answers the offset behind them. Older bytes may be left there.
fn write_lines<D: Disk>(
    disk: &mut D,
    file: u64,
    sealed: u64,
    lines: &[Blob],
    buffer: &mut Vec<u8>,
) -> Result<u64, Failed>
    requires empty { buffer.old.items ≡ [] }
    requires room { HasRoom (vec_capacity buffer.old) lines.now }
    requires small { sealed + length (lines_text lines.now) ≤ longest_file }
    requires within { (files : Image) → (D.disk disk.old).told ≡ Some files → sealed ≤ length (files file) }
    ensures end { IfOk result (λ n. n ≡ sealed + length (lines_text lines.now)) }
    ensures written { (files after : Image) → (D.disk disk.old).told ≡ Some files → (D.disk disk.new).told ≡ Some after
        → IfOk result (λ n. IsSoFar (after file) n [] (completed (files file) sealed lines.now)) }
    ensures run { RunsAbove (D.disk disk.old) (D.disk disk.new) file sealed }
    ensures failed { IsErr result → Rose (D.disk disk.old).faults (D.disk disk.new).faults }
{
    let mut at = sealed;
    'lines: for line in lines {
        push_line(buffer, line.bytes());
        at = write_out(disk, file, at, buffer, PIECE)?;
    }
    Ok(write_out(disk, file, at, buffer, 1)?)
}

// Gathers a line for which there is room, and so takes no memory.
fn push_line(buffer: &mut Vec<u8>, line: &[u8])
    requires room { length buffer.old.items + length line.now + 1 ≤ vec_capacity buffer.old }
    ensures items { buffer.new.items ≡ buffer.old.items ++ line.now ++ 10 ∷ [] }
    ensures capacity { vec_capacity buffer.old ≤ vec_capacity buffer.new }
{
    let _ = buffer.extend_from_slice(line);
    let _ = buffer.push(b'\n');
}

// Writes the gathered bytes at the offset `at` and empties the buffer, where it has at least so many. Answers the
// offset reached.
fn write_out<D: Disk>(
    disk: &mut D,
    file: u64,
    at: u64,
    buffer: &mut Vec<u8>,
    least: usize,
) -> Result<u64, Failed>
    requires some { 0 < least }
    requires small { at + length buffer.old.items ≤ longest_file }
    requires within { (files : Image) → (D.disk disk.old).told ≡ Some files → at ≤ length (files file) }
    ensures less { OnOk result (length buffer.new.items < least) }
    ensures capacity { vec_capacity buffer.new ≡ vec_capacity buffer.old }
    ensures end { IfOk result (λ n. (at ≤ n) × (n + length buffer.new.items ≡ at + length buffer.old.items)) }
    ensures written { (files after : Image) (text : List ℕ) → (D.disk disk.old).told ≡ Some files → (D.disk disk.new).told ≡ Some after
        → IsSoFar (files file) at buffer.old.items text → IfOk result (λ n. IsSoFar (after file) n buffer.new.items text) }
    ensures run { (sealed : ℕ) → sealed ≤ at
        → RunsAbove (D.disk disk.old) (D.disk disk.new) file sealed }
    ensures failed { IsErr result → Rose (D.disk disk.old).faults (D.disk disk.new).faults }
{
    if buffer.len() < least {
        return Ok(at);
    }
    disk.write_at(file, at, buffer)?;
    let end = at + buffer.len() as u64;
    buffer.clear();
    Ok(end)
}
