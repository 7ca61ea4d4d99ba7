//! What an earlier generation holds.
ghost use Rattle.std.specs.Prelude.{◌≡◌, ◌<◌, ◌≤◌, ◌^◌, List, Some, IfOk, IfErr, OnOk, IsErrOf};
ghost use Rattle.edge_traits.specs.Count.{Rose};
ghost use Rattle.edge_traits.specs.Disk.{Image};
ghost use Rattle.disk_journal.specs.GateFile.{HasBodies};
ghost use Rattle.disk_journal.specs.Journal.{IsFaultOf};
ghost use Rattle.disk_journal.specs.Reads.{OnlyReads};
ghost use Rattle.step_code.specs.declared.base.Base.{Base};
ghost use Rattle.step_code.specs.declared.step.Step.{Step};
ghost use Rattle.step_code.specs.Spent.{last_given};
ghost use Rattle.store_image.specs.Damage.{behind_bodies, AreNoHistory, IsDamagedFile};
ghost use Rattle.store_image.specs.Files.{generation_file, heading_of};
ghost use Rattle.generation_reading.specs.Reading.{AreHistory, IsBodyFault};
ghost use Rattle.journal_book.specs.Opening.{IsFileFault};
ghost use Rattle.journal_book.specs.Past.{past_fault, IsPast, IsPastFault};
ghost use Rattle.step_code.specs.Code.{first_format};

use crate::PastFault;
use crate::files::generation_file;
use base_types::{Blob, BlobList};
use disk_journal::{JournalFault, read_bodies};
use edge_traits::Disk;
use generation_reading::{Lent, StepList, decode_history, history_of};
use std::alloc::Global;
use step_code::{Base, Rules};
use store_image::{FIRST_FORMAT, heading_of};

/// What a generation holds: the state that it begins with, and the steps behind it.
#[derive(Drop)]
pub struct Past {
    pub base: Base,
    pub steps: StepList,
}

// The bodies of a generation's records.
fn read_generation<D: Disk>(
    alloc: Global,
    disk: &mut D,
    generation: u64,
) -> Result<BlobList, JournalFault>
    requires { generation ≤ last_given }
    ensures short { IfOk result (λ bodies. behind_bodies bodies < 2 ^ 64) }
    ensures bodies { (files : Image) → (D.disk disk.old).told ≡ Some files → IfOk result (λ bodies. HasBodies (heading_of first_format generation) bodies (files (generation_file generation))) }
    ensures fault { (files : Image) → (D.disk disk.old).told ≡ Some files → IfErr result (IsFaultOf (heading_of first_format generation) (files (generation_file generation))) }
    ensures reads { OnlyReads (D.disk disk.old) (D.disk disk.new) }
    ensures failed { IsErrOf result JournalFault.Disk → Rose (D.disk disk.old).faults (D.disk disk.new).faults }
{
    match read_bodies(
        alloc,
        disk,
        generation_file(generation),
        heading_of(FIRST_FORMAT, generation),
    ) {
        Ok((bodies, _)) => Ok(bodies),
        Err(fault) => Err(fault),
    }
}

// Looks whether these bodies hold a history, by replaying it.
fn check_history<R: Rules>(alloc: Global, rules: &R, bodies: &[Blob]) -> Result<(), JournalFault>
    requires { behind_bodies bodies.now < 2 ^ 64 }
    ensures history { OnOk result ((base : Base) × (steps : List Step) × AreHistory R.meaning bodies.now base steps) }
    ensures fault { IfErr result (IsBodyFault (AreNoHistory R.meaning bodies.now)) }
{
    match history_of(alloc, Lent { rules }, bodies) {
        Ok(_history) => Ok(()),
        Err(fault) => Err(fault),
    }
}

// The history that these bodies hold.
fn past_of<R: Rules>(alloc: Global, rules: &R, bodies: &[Blob]) -> Result<Past, JournalFault>
    requires { behind_bodies bodies.now < 2 ^ 64 }
    ensures history { IfOk result (λ past. AreHistory R.meaning bodies.now past.base past.steps) }
    ensures fault { IfErr result (IsBodyFault (AreNoHistory R.meaning bodies.now)) }
{
    match check_history(alloc, rules, bodies) {
        Ok(()) => match decode_history(alloc, bodies) {
            Ok((base, steps)) => Ok(Past { base, steps }),
            Err(_) => Err(JournalFault::OutOfMemory),
        },
        Err(fault) => Err(fault),
    }
}

// What the file of a generation holds under these rules.
fn read_history<D: Disk, R: Rules>(
    alloc: Global,
    disk: &mut D,
    rules: &R,
    generation: u64,
) -> Result<Past, JournalFault>
    requires { generation ≤ last_given }
    ensures past { (files : Image) → (D.disk disk.old).told ≡ Some files → IfOk result (λ past. IsPast R.meaning generation (files (generation_file generation)) past.base past.steps) }
    ensures fault { (files : Image) → (D.disk disk.old).told ≡ Some files
        → IfErr result (IsFileFault (IsDamagedFile (heading_of first_format generation) (AreNoHistory R.meaning) (files (generation_file generation)))) }
    ensures reads { OnlyReads (D.disk disk.old) (D.disk disk.new) }
    ensures failed { IsErrOf result JournalFault.Disk → Rose (D.disk disk.old).faults (D.disk disk.new).faults }
{
    let bodies = match read_generation(alloc, disk, generation) {
        Ok(bodies) => bodies,
        Err(fault) => return Err(fault),
    };
    match past_of(alloc, rules, bodies.as_slice()) {
        Ok(past) => Ok(past),
        Err(fault) => Err(fault),
    }
}

fn past_fault(generation: u64, fault: JournalFault) -> PastFault
    requires { generation ≤ last_given }
    ensures { result ≡ past_fault generation fault }
{
    match fault {
        JournalFault::Disk => PastFault::Disk,
        JournalFault::Damaged { at } => PastFault::Damaged {
            file: generation_file(generation),
            at,
        },
        JournalFault::OutOfMemory => PastFault::OutOfMemory,
    }
}

/// What a generation of the store holds under these rules.
///
/// # Errors
///
/// `Damaged` where the first damage of the generation's file shows. `Disk`. `OutOfMemory`.
pub fn read_past<D: Disk, R: Rules>(
    alloc: Global,
    disk: &mut D,
    rules: &R,
    generation: u64,
) -> Result<Past, PastFault>
    requires { generation ≤ last_given }
    ensures past { (files : Image) → (D.disk disk.old).told ≡ Some files → IfOk result (λ past. IsPast R.meaning generation (files (generation_file generation)) past.base past.steps) }
    ensures fault { IfErr result (IsPastFault R.meaning generation (D.disk disk.old).told) }
    ensures reads { OnlyReads (D.disk disk.old) (D.disk disk.new) }
    ensures failed { IsErrOf result PastFault.Disk → Rose (D.disk disk.old).faults (D.disk disk.new).faults }
{
    match read_history(alloc, disk, rules, generation) {
        Ok(past) => Ok(past),
        Err(fault) => Err(past_fault(generation, fault)),
    }
}
