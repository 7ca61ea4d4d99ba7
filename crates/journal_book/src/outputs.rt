//! The files of outputs.
ghost use Rattle.std.specs.Prelude.{◌≡◌, ◌≢◌, ◌≤◌, ◌<◌, length, slice_get, Some, IfErr, OnOk, IsErrOf};
ghost use Rattle.edge_traits.specs.Count.{Rose};
ghost use Rattle.edge_traits.specs.Disk.{Image};
ghost use Rattle.step_code.specs.declared.output.Output.{Output};
ghost use Rattle.store_image.specs.Files.{out_file};
ghost use Rattle.store_image.specs.Opens.{AreLong};
ghost use Rattle.journal_book.specs.Alone.{IsNoOut};
ghost use Rattle.journal_book.specs.Keeping.{AreShort};
ghost use Rattle.journal_book.specs.Outputs.{AreCompleted, IsBringUpFault, IsCompleted};
ghost use Rattle.journal_book.specs.Running.{IsFaultAt, RunsIn, RunsOut};

use crate::BookFault;
use crate::files::out_file;
use ack_steps::Core;
use edge_traits::Disk;
use out_files::OutFault;
use std::alloc::Global;
use step_code::Rules;

// Completes the file of the k-th output, from 0.
fn complete_one<D: Disk, R: Rules>(
    alloc: Global,
    disk: &mut D,
    core: &Core<R>,
    k: usize,
) -> Result<(), BookFault>
    requires within { k < length core.now.state.outs }
    requires short { AreShort core.now.state.outs }
    ensures completed { (out : Output) (files after : Image) → slice_get core.now.state.outs k ≡ Some out → (D.disk disk.old).told ≡ Some files → (D.disk disk.new).told ≡ Some after
        → OnOk result (IsCompleted (D.disk disk.new).may_leave (out_file k) out files after) }
    ensures fault { (out : Output) → slice_get core.now.state.outs k ≡ Some out → IfErr result (IsFaultAt (out_file k) out.sealed_bytes (D.disk disk.old).told) }
    ensures run { (out : Output) → slice_get core.now.state.outs k ≡ Some out → RunsIn (D.disk disk.old) (D.disk disk.new) (out_file k) out.sealed_bytes }
    ensures still { IfErr result (λ fault. (fault ≢ BookFault.Disk) → (D.disk disk.new).told ≡ (D.disk disk.old).told) }
    ensures failed { IsErrOf result BookFault.Disk → Rose (D.disk disk.old).faults (D.disk disk.new).faults }
{
    let file = out_file(k);
    let out = core.out_at(k);
    match out_files::bring_up(alloc, disk, file, out.sealed_bytes, out.lines) {
        Ok(_) => Ok(()),
        Err(OutFault::Disk) => Err(BookFault::Disk),
        Err(OutFault::Short { have }) => Err(BookFault::Damaged { file, at: have }),
        Err(OutFault::OutOfMemory) => Err(BookFault::OutOfMemory),
    }
}

/// Completes the files of all outputs, the first one first.
///
/// # Errors
///
/// `Damaged` where a file is shorter than what is sealed of its output: the first such file, with its length. `Disk`.
/// `OutOfMemory`. The files before that are completed.
pub fn complete_all<D: Disk, R: Rules>(
    alloc: Global,
    disk: &mut D,
    core: &Core<R>,
) -> Result<(), BookFault>
    requires short { AreShort core.now.state.outs }
    ensures completed { (files after : Image) → (D.disk disk.old).told ≡ Some files → (D.disk disk.new).told ≡ Some after
        → OnOk result (AreCompleted (D.disk disk.new).may_leave core.now.state.outs files after) }
    ensures fault { IfErr result (IsBringUpFault core.now.state.outs (D.disk disk.old).told) }
    ensures run { RunsOut (D.disk disk.old) (D.disk disk.new) core.now.state.outs IsNoOut }

    // Files that are long enough stay so, unless the disk fails.
    ensures long { (files after : Image) → (D.disk disk.old).told ≡ Some files → (D.disk disk.new).told ≡ Some after → AreLong 0 core.now.state.outs files
        → IfErr result (λ fault. (fault ≢ BookFault.Disk) → AreLong 0 core.now.state.outs after) }
    ensures failed { IsErrOf result BookFault.Disk → Rose (D.disk disk.old).faults (D.disk disk.new).faults }
{
    'outputs: for k in 0..core.outs_len() {
        match complete_one(alloc, disk, core, k) {
            Ok(()) => {}
            Err(fault) => return Err(fault),
        }
    }
    Ok(())
}
