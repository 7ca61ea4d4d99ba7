//! Whether a generation's state goes on from the state before it: it is the same but for lines that are sealed, which stand in their
//! files.
ghost use Rattle.std.specs.Prelude.{◌≡◌, ◌↔◌, ◌≤◌, ◌<◌, ◌+◌, ◌^◌, ◌++◌, [], ◌∷◌, true, length, slice_get, Some, IfOk, OnOk, IsErrOf};
ghost use Rattle.edge_traits.specs.Count.{Rose};
ghost use Rattle.edge_traits.specs.Disk.{Image};
ghost use Rattle.disk_journal.specs.Reads.{OnlyReads};
ghost use Rattle.out_files.specs.Output.{lines_text};
ghost use Rattle.step_code.specs.declared.output.Output.{Output};
ghost use Rattle.step_code.specs.Sound.{IsSound};
ghost use Rattle.step_code.specs.Spent.{last_given};
ghost use Rattle.core_state.specs.Sealing.{sealed_whole, HaveSmallOutputs};
ghost use Rattle.store_image.specs.Files.{out_file};
ghost use Rattle.store_audit.specs.Audit.{GoesOnFrom};
ghost use Rattle.store_audit.specs.Sealed.{AllHaveFronts, HasFront, StandsAt};

use crate::base::is_same_state;
use crate::verdict::AuditFault;
use ack_steps::Core;
use base_types::{Blob, OutOfMemory};
use edge_traits::Disk;
use std::alloc::Global;
use step_code::Rules;

// Whether the bytes are the line and its newline.
fn is_line(bytes: &[u8], line: &[u8]) -> bool
    ensures { (result ≡ true) ↔ (bytes.now ≡ line.now ++ 10 ∷ []) }
{
    match bytes.split_last() {
        Some((last, front)) => *last == b'\n' && front == line,
        None => false,
    }
}

// Whether a line and its newline stand at this offset of a file.
fn has_line<D: Disk>(
    alloc: Global,
    disk: &mut D,
    file: u64,
    at: u64,
    line: &[u8],
) -> Result<bool, AuditFault>
    ensures has { (files : Image) → (D.disk disk.old).told ≡ Some files → IfOk result (λ has. (has ≡ true) ↔ StandsAt (line.now ++ 10 ∷ []) at (files file)) }
    ensures reads { OnlyReads (D.disk disk.old) (D.disk disk.new) }
    ensures failed { IsErrOf result AuditFault.Disk → Rose (D.disk disk.old).faults (D.disk disk.new).faults }
{
    let mut bytes = vec![in alloc; 0; line.len() + 1]?;
    let count = disk.read_at(file, at, &mut bytes)?;
    Ok(is_line(&bytes[..count], line))
}

// Whether lines stand in a file, the first of them at this offset.
fn has_lines<D: Disk>(
    alloc: Global,
    disk: &mut D,
    file: u64,
    start: u64,
    lines: &[Blob],
) -> Result<bool, AuditFault>
    requires small { start + length (lines_text lines.now) < 2 ^ 64 }
    ensures have { (files : Image) → (D.disk disk.old).told ≡ Some files → IfOk result (λ have. (have ≡ true) ↔ StandsAt (lines_text lines.now) start (files file)) }
    ensures reads { OnlyReads (D.disk disk.old) (D.disk disk.new) }
    ensures failed { IsErrOf result AuditFault.Disk → Rose (D.disk disk.old).faults (D.disk disk.new).faults }
{
    let mut at = start;
    'lines: for line in lines {
        match has_line(alloc, disk, file, at, line.bytes()) {
            Ok(true) => {}
            Ok(false) => return Ok(false),
            Err(fault) => return Err(fault),
        }
        at += line.bytes().len() as u64 + 1;
    }
    Ok(true)
}

fn are_same(a: &[Blob], b: &[Blob]) -> bool
    ensures { (result ≡ true) ↔ (a.now ≡ b.now) }
{
    a == b
}

// Whether lines end with these, and those in front of them stand in a file, the first one at this offset.
fn has_front<D: Disk>(
    alloc: Global,
    disk: &mut D,
    file: u64,
    at: u64,
    lines: &[Blob],
    last: &[Blob],
) -> Result<bool, AuditFault>
    requires small { at + length (lines_text lines.now) < 2 ^ 64 }
    ensures has { (files : Image) → (D.disk disk.old).told ≡ Some files → IfOk result (λ has. (has ≡ true) ↔ HasFront at lines.now last.now (files file)) }
    ensures reads { OnlyReads (D.disk disk.old) (D.disk disk.new) }
    ensures failed { IsErrOf result AuditFault.Disk → Rose (D.disk disk.old).faults (D.disk disk.new).faults }
{
    let Some(count) = lines.len().checked_sub(last.len()) else {
        return Ok(false);
    };
    if !are_same(&lines[count..], last) {
        return Ok(false);
    }
    has_lines(alloc, disk, file, at, &lines[..count])
}

// The file of an output's lines.
fn out_file(k: usize) -> u64
    requires { k ≤ last_given }
    ensures { result ≡ out_file k }
{
    16 + 2 * k as u64
}

// Whether the lines of the k-th output, from 0, that are sealed stand in its file.
fn has_sealed<D: Disk, R: Rules>(
    alloc: Global,
    disk: &mut D,
    before: &Core<R>,
    core: &Core<R>,
    k: usize,
) -> Result<bool, AuditFault>
    requires before { k < length before.now.state.outs }
    requires now { k < length core.now.state.outs }
    requires given { k ≤ last_given }
    requires small { HaveSmallOutputs before.now.state.outs }
    ensures has { (o sealed : Output) (files : Image) → slice_get before.now.state.outs k ≡ Some o → slice_get core.now.state.outs k ≡ Some sealed → (D.disk disk.old).told ≡ Some files
        → IfOk result (λ has. (has ≡ true) ↔ HasFront o.sealed_bytes o.lines sealed.lines (files (out_file k))) }
    ensures reads { OnlyReads (D.disk disk.old) (D.disk disk.new) }
    ensures failed { IsErrOf result AuditFault.Disk → Rose (D.disk disk.old).faults (D.disk disk.new).faults }
{
    let out = before.out_at(k);
    let sealed = core.out_at(k);
    has_front(
        alloc,
        disk,
        out_file(k),
        out.sealed_bytes,
        out.lines,
        sealed.lines,
    )
}

// Whether so it is with each output.
fn have_sealed<D: Disk, R: Rules>(
    alloc: Global,
    disk: &mut D,
    before: &Core<R>,
    core: &Core<R>,
) -> Result<bool, AuditFault>
    requires as_many { length before.now.state.outs ≡ length core.now.state.outs }
    requires few { length core.now.state.outs ≤ last_given + 1 }
    requires small { HaveSmallOutputs before.now.state.outs }
    ensures have { (files : Image) → (D.disk disk.old).told ≡ Some files → IfOk result (λ have. (have ≡ true) ↔ AllHaveFronts before.now.state.outs core.now.state.outs files) }
    ensures reads { OnlyReads (D.disk disk.old) (D.disk disk.new) }
    ensures failed { IsErrOf result AuditFault.Disk → Rose (D.disk disk.old).faults (D.disk disk.new).faults }
{
    'outputs: for k in 0..core.outs_len() {
        match has_sealed(alloc, disk, before, core, k) {
            Ok(true) => {}
            Ok(false) => return Ok(false),
            Err(fault) => return Err(fault),
        }
    }
    Ok(true)
}

// Whether both states are the same where all lines of both are sealed. Want of memory also where a number of such a state is too
// great for its code.
fn is_same_sealed<R: Rules>(
    alloc: Global,
    before: &Core<R>,
    core: &Core<R>,
) -> Result<bool, OutOfMemory>
    ensures same { IfOk result (λ same. (same ≡ true) ↔ (sealed_whole before.now.state ≡ sealed_whole core.now.state)) }
    ensures small { OnOk result (HaveSmallOutputs before.now.state.outs) }
{
    let before = before.sealed_base()?;
    let now = core.sealed_base()?;
    is_same_state(alloc, &before, &now)
}

/// Whether a generation's state, which is the core's, goes on from the one that the generations before it lead to: it is the same but
/// for lines that are sealed, which stand in their files.
///
/// # Errors
///
/// `Disk`. `OutOfMemory`, also where a number of one of the states with all lines sealed is too great for its code.
pub(crate) fn goes_on<D: Disk, R: Rules>(
    alloc: Global,
    disk: &mut D,
    before: &Core<R>,
    core: &Core<R>,
) -> Result<bool, AuditFault>
    requires sound { IsSound R.meaning core.now.state }
    ensures goes { (files : Image) → (D.disk disk.old).told ≡ Some files → IfOk result (λ is. (is ≡ true) ↔ GoesOnFrom before.now.state core.now.state files) }
    ensures reads { OnlyReads (D.disk disk.old) (D.disk disk.new) }
    ensures failed { IsErrOf result AuditFault.Disk → Rose (D.disk disk.old).faults (D.disk disk.new).faults }
{
    let is_same = is_same_sealed(alloc, before, core)?;
    if !is_same {
        return Ok(false);
    }
    have_sealed(alloc, disk, before, core)
}
