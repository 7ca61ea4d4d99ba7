//! The next generation of a store.
ghost use Rattle.std.specs.Prelude.{◌≡◌, ◌≢◌, ◌↔◌, ◌⊎◌, ◌≤◌, ◌+◌, ◌++◌, [], ◌∷◌, ℕ, List, suc, true, false, length, Some, None, IfOk, IfErr, OnOk, IsErrOf};
ghost use Rattle.core_state.specs.Sealing.{sealed_whole, HaveSmallOutputs};
ghost use Rattle.edge_traits.specs.Count.{Rose};
ghost use Rattle.edge_traits.specs.Disk.{Image, Leaves};
ghost use Rattle.disk_journal.specs.GateFile.{frame_length, header_length, longest_journal};
ghost use Rattle.disk_journal.specs.Journal.{IsAtRest};
ghost use Rattle.stored_types.specs.Code.{number};
ghost use Rattle.step_code.specs.Code.{code_of_base, first_format, IsWritableBase};
ghost use Rattle.step_code.specs.Sound.{longest_base, IsSound};
ghost use Rattle.step_code.specs.Spent.{last_given};
ghost use Rattle.store_image.specs.Files.{generation_file, root_file, heading_of, root_heading, written_format};
ghost use Rattle.journal_book.specs.Alone.{LeavesAlone};
ghost use Rattle.journal_book.specs.Book.{root_entry};
ghost use Rattle.journal_book.specs.Renewing.{full_cause, renew_fault, sealed_length, spent_by_renewal, spent_or_full, IsBeginFault, IsBeginning, IsRefused};

use crate::files::generation_file;
use crate::{BookFault, RenewFault};
use ack_steps::Core;
use base_types::{Blob, OutOfMemory};
use disk_journal::{Journal, JournalFault};
use edge_traits::Disk;
use std::alloc::Global;
use std::snapshot::Snapshot;
use step_code::{Base, LAST_GIVEN, LONGEST_BASE, Rules, encode_base};
use store_image::{WRITTEN_FORMAT, heading_of};
use stored_types::Coded;

// What a root grows by that names a generation, in bytes.
const ROOT_ENTRY: u64 = 17;

/// The number of the generation behind this one, where the root's file has so many bytes.
pub fn next_number(generation: u64, root: u64) -> Result<u64, RenewFault>
    ensures number { IfOk result (λ number. number ≡ suc generation) }
    ensures given { OnOk result (suc generation ≤ last_given) }
    ensures short { OnOk result (root + root_entry ≤ longest_journal) }
    ensures ok { OnOk result (spent_by_renewal generation root ≡ None) }
    ensures refused { IfErr result IsRefused }
    ensures spent { (bytes : ℕ) → IfErr result (λ fault. Some fault ≡ spent_or_full (spent_by_renewal generation root) bytes) }
{
    let number = generation.saturating_add(1);
    if number > LAST_GIVEN {
        return Err(RenewFault::Spent { next: number });
    }
    let length = root.saturating_add(ROOT_ENTRY);
    if length > LAST_GIVEN {
        return Err(RenewFault::Spent { next: length });
    }
    Ok(number)
}

// The code of a state with all lines sealed, and the state.
fn code_of<R: Rules>(alloc: Global, core: &Core<R>, base: &Base) -> Result<Blob, RenewFault>
    requires base { base.now ≡ sealed_whole core.now.state }
    ensures code { IfOk result (λ code. code ≡ code_of_base first_format base.now) }
    ensures writable { OnOk result (IsWritableBase first_format base.now) }
    ensures sound { OnOk result (IsSound R.meaning base.now) }
    ensures ok { OnOk result (full_cause (sealed_length core.now.state) ≡ None) }
    ensures full { IfErr result (λ fault. (Some fault ≡ full_cause (sealed_length core.now.state)) ⊎ (fault ≡ RenewFault.OutOfMemory)) }
{
    let bytes = base.code_len();
    if bytes > LONGEST_BASE {
        return Err(RenewFault::Full { bytes });
    }
    match core.may_hold(base) {
        Ok(true) => Ok(encode_base(alloc, base)?),
        Ok(false) | Err(OutOfMemory) => Err(RenewFault::OutOfMemory),
    }
}

/// The state with all lines of outputs sealed, and its code.
///
/// # Errors
///
/// `Full` where the code is longer than a store may hold. `OutOfMemory`; also where 64 bits don't hold a number of that state, or no
/// store may hold it.
pub fn next_base<R: Rules>(
    alloc: Global,
    core: &Core<R>,
) -> Result<(Snapshot<Base>, Blob), RenewFault>
    ensures base { IfOk result (λ next. next.0.value ≡ sealed_whole core.now.state) }
    ensures code { IfOk result (λ next. next.1 ≡ code_of_base first_format (sealed_whole core.now.state)) }
    ensures small { OnOk result (HaveSmallOutputs core.now.state.outs) }
    ensures writable { OnOk result (IsWritableBase first_format (sealed_whole core.now.state)) }
    ensures sound { OnOk result (IsSound R.meaning (sealed_whole core.now.state)) }
    ensures ok { OnOk result (full_cause (sealed_length core.now.state) ≡ None) }
    ensures full { IfErr result (λ fault. (Some fault ≡ full_cause (sealed_length core.now.state)) ⊎ (fault ≡ RenewFault.OutOfMemory)) }
{
    let Ok(base) = core.sealed_base() else {
        return Err(RenewFault::OutOfMemory);
    };
    match code_of(alloc, core, &base) {
        Ok(code) => Ok((Snapshot::of(&base), code)),
        Err(fault) => Err(fault),
    }
}

/// What completing the outputs' files says of a renewal.
pub fn renew_fault(fault: BookFault) -> RenewFault
    ensures { result ≡ renew_fault fault }
{
    match fault {
        BookFault::Disk => RenewFault::Disk,
        BookFault::Damaged { file, at } => RenewFault::Damaged { file, at },
        BookFault::Store { .. } | BookFault::Refused | BookFault::OutOfMemory => {
            RenewFault::OutOfMemory
        }
    }
}

/// Whether the disk failed.
pub fn is_disk_fault(fault: RenewFault) -> bool
    ensures { (result ≡ true) ↔ (fault ≡ RenewFault.Disk) }
{
    matches!(fault, RenewFault::Disk)
}

// Makes the file of a generation with the code of its state.
fn create_generation<D: Disk>(
    alloc: Global,
    disk: &mut D,
    generation: u64,
    code: &[u8],
) -> Result<Journal, RenewFault>
    requires given { generation ≤ last_given }
    requires small { length code.now ≤ longest_base }
    ensures journal { IfOk result (λ j. j ≡ record { file = generation_file generation; heading = heading_of written_format generation; length = header_length + 1 + frame_length + length code.now; room = 0; broken = false }) }
    ensures at_rest { (files after : Image) → (D.disk disk.old).told ≡ Some files → (D.disk disk.new).told ≡ Some after
        → IfOk result (λ j. IsAtRest j (D.disk disk.new).may_leave (code.now ∷ []) after) }
    ensures alone { LeavesAlone (D.disk disk.old) (D.disk disk.new) (λ file. file ≢ generation_file generation) }
    ensures untold { (D.disk disk.old).told ≡ None → (D.disk disk.new).told ≡ None }
    ensures fault { IfErr result IsBeginFault }
    ensures still { IfErr result (λ fault. fault ≢ RenewFault.Disk → disk.new ≡ disk.old) }
    ensures failed { IsErrOf result RenewFault.Disk → Rose (D.disk disk.old).faults (D.disk disk.new).faults }
    ensures count { (D.disk disk.old).faults ≤ (D.disk disk.new).faults }
{
    match Journal::create(
        alloc,
        disk,
        generation_file(generation),
        heading_of(WRITTEN_FORMAT, generation),
        code,
    ) {
        Ok(journal) => Ok(journal),
        Err(JournalFault::OutOfMemory) => Err(RenewFault::OutOfMemory),
        Err(JournalFault::Disk | JournalFault::Damaged { .. }) => Err(RenewFault::Disk),
    }
}

/// Makes the file of a generation with the code of its state, and then names the generation in the root.
///
/// # Errors
///
/// `Disk`; the root is broken then, or the generation's file may hold anything. `OutOfMemory`, before the disk is touched.
pub fn begin_generation<D: Disk>(
    alloc: Global,
    disk: &mut D,
    root: &mut Journal,
    generation: u64,
    code: &[u8],
) -> Result<Journal, RenewFault>
    requires given { generation ≤ last_given }
    requires small { length code.now ≤ longest_base }
    requires file { root.old.file ≡ root_file }
    requires heading { root.old.heading ≡ root_heading }
    requires short { root.old.length + root_entry ≤ longest_journal }
    requires whole { root.old.broken ≡ false }
    requires at_rest { (files : Image) → (D.disk disk.old).told ≡ Some files → (bodies : List (List ℕ)) × IsAtRest root.old (D.disk disk.old).may_leave bodies files }
    ensures journal { IfOk result (λ j. j ≡ record { file = generation_file generation; heading = heading_of written_format generation; length = header_length + 1 + frame_length + length code.now; room = 0; broken = false }) }
    ensures root { OnOk result (root.new ≡ record root.old { length = root.old.length + root_entry; room = root.new.room }) }
    ensures same { IfErr result (λ fault. root.new ≡ record root.old { room = root.new.room; broken = root.new.broken }) }
    ensures still { IfErr result (λ fault. fault ≢ RenewFault.Disk → (disk.new ≡ disk.old) × (root.new.broken ≡ false)) }
    ensures root_rests { (files after : Image) (bodies : List (List ℕ)) → (D.disk disk.old).told ≡ Some files → (D.disk disk.new).told ≡ Some after
        → IsAtRest root.old (D.disk disk.old).may_leave bodies files → OnOk result (IsAtRest root.new (D.disk disk.new).may_leave (bodies ++ number generation ∷ []) after) }
    ensures journal_rests { (files after : Image) → (D.disk disk.old).told ≡ Some files → (D.disk disk.new).told ≡ Some after
        → IfOk result (λ j. IsAtRest j (D.disk disk.new).may_leave (code.now ∷ []) after) }
    ensures alone { (files : Image) → (D.disk disk.old).told ≡ Some files → LeavesAlone (D.disk disk.old) (D.disk disk.new) (λ file. (file ≢ root_file) × (file ≢ generation_file generation)) }

    // The root names the generation only once its file is durable.
    ensures any_moment { (files : Image) (bodies : List (List ℕ)) → (D.disk disk.old).told ≡ Some files → IsAtRest root.old (D.disk disk.old).may_leave bodies files
        → Leaves (D.disk disk.old) (D.disk disk.new) (IsBeginning (D.disk disk.old) bodies code.now generation) }
    ensures untold { (D.disk disk.old).told ≡ None → (D.disk disk.new).told ≡ None }
    ensures fault { IfErr result IsBeginFault }
    ensures failed { IsErrOf result RenewFault.Disk → Rose (D.disk disk.old).faults (D.disk disk.new).faults }
    ensures count { (D.disk disk.old).faults ≤ (D.disk disk.new).faults }
{
    if let Err(OutOfMemory) = root.reserve(8) {
        return Err(RenewFault::OutOfMemory);
    }
    let journal = match create_generation(alloc, disk, generation, code) {
        Ok(journal) => journal,
        Err(fault) => return Err(fault),
    };
    match root.append(disk, &generation.to_be_bytes()) {
        Ok(()) => Ok(journal),
        Err(_) => Err(RenewFault::Disk),
    }
}
