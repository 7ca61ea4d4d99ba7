//! One generation: its file, the state with which it begins, and its steps.
ghost use Rattle.std.specs.Prelude.{◌≡◌, ◌≢◌, ◌↔◌, ◌+◌, ◌<◌, ◌≤◌, ◌^◌, true, length, Some, Err, option_map, IfOk, IfErr, IsErrOf, OnOk};
ghost use Rattle.edge_traits.specs.Count.{Rose};
ghost use Rattle.edge_traits.specs.Disk.{Image};
ghost use Rattle.disk_journal.specs.GateFile.{header_length, open_records, HasRecords};
ghost use Rattle.disk_journal.specs.Reads.{OnlyReads};
ghost use Rattle.step_code.specs.Code.{first_format};
ghost use Rattle.step_code.specs.Sound.{IsSound};
ghost use Rattle.step_code.specs.Spent.{last_given};
ghost use Rattle.store_image.specs.Files.{generation_file, heading_of};
ghost use Rattle.store_audit.specs.Audit.{AreWrong, Follows, HaveFault, IsWrong};
ghost use Rattle.store_audit.specs.Ends.{AreThrough, IsBegun, IsEnd, IsUnbegun, LeadsTo};

use crate::base::is_first;
use crate::sealed::goes_on;
use crate::steps::{StepStop, take_records};
use crate::{AuditFault, Verdict};
use ack_steps::Core;
use base_types::Blob;
use disk_journal::{JournalFault, read_records};
use edge_traits::Disk;
use generation_reading::{FRAME, HEADER, base_of};
use std::alloc::Global;
use step_code::Rules;
use store_image::{FIRST_FORMAT, heading_of};
use stored_types::CodeFault;

/// Why a generation isn't gone through to its end: what its store comes to, or why there is no verdict.
#[derive(Clone, Copy)]
pub(crate) enum End {
    Found(Verdict),
    Fault(AuditFault),
}

fn generation_file(generation: u64) -> u64
    requires { generation ≤ last_given }
    ensures { result ≡ generation_file generation }
{
    17 + 2 * generation
}

// Whether a generation may begin with a state, behind the one to which those before it lead.
fn follows<D: Disk, R: Rules>(
    alloc: Global,
    disk: &mut D,
    before: Option<&Core<R>>,
    core: &Core<R>,
) -> Result<bool, AuditFault>
    requires sound { IsSound R.meaning core.now.state }
    ensures follows { (files : Image) → (D.disk disk.old).told ≡ Some files → IfOk result (λ is. (is ≡ true) ↔ Follows R.meaning files (option_map (λ core. core.now.state) before.entry) core.now.state) }
    ensures reads { OnlyReads (D.disk disk.old) (D.disk disk.new) }
    ensures failed { IsErrOf result AuditFault.Disk → Rose (D.disk disk.old).faults (D.disk disk.new).faults }
{
    match before {
        None => Ok(is_first(alloc, core)?),
        Some(before) => goes_on(alloc, disk, before, core),
    }
}

// A core with the state of a generation's first body, where the generation may begin with it.
fn begin<D: Disk, R: Rules>(
    alloc: Global,
    disk: &mut D,
    rules: R,
    before: Option<&Core<R>>,
    generation: u64,
    body: &[u8],
) -> Result<Core<R>, End>
    requires { generation ≤ last_given }
    ensures begun { (files : Image) → (D.disk disk.old).told ≡ Some files → IfOk result (λ core. IsBegun R.meaning files (option_map (λ core. core.now.state) before.entry) body.now core.state) }
    ensures unbegun { (files : Image) → (D.disk disk.old).told ≡ Some files → IfErr result (IsEnd (IsUnbegun R.meaning files generation (option_map (λ core. core.now.state) before.entry) body.now)) }
    ensures reads { OnlyReads (D.disk disk.old) (D.disk disk.new) }
    ensures failed { IsErrOf result (End.Fault AuditFault.Disk) → Rose (D.disk disk.old).faults (D.disk disk.new).faults }
{
    let wrong = End::Found(Verdict::Damaged {
        file: generation_file(generation),
        at: HEADER + FRAME,
    });
    let core = match base_of(alloc, rules, body) {
        Ok((core, _)) => core,
        Err(CodeFault::Bad) => return Err(wrong),
        Err(CodeFault::OutOfMemory) => return Err(End::Fault(AuditFault::OutOfMemory)),
    };
    match follows(alloc, disk, before, &core) {
        Ok(true) => Ok(core),
        Ok(false) => Err(wrong),
        Err(fault) => Err(End::Fault(fault)),
    }
}

// Goes through the records behind a generation's state. The gate before the first of them stands at this offset, and where a record is
// cut, that is told behind all steps.
fn go_through<R: Rules>(
    alloc: Global,
    core: &mut Core<R>,
    records: &[Blob],
    start: u64,
    cut: Option<u64>,
    generation: u64,
) -> Result<(), End>
    requires generation { generation ≤ last_given }
    requires short { start + length (open_records records.now) < 2 ^ 64 }
    ensures through { OnOk result (AreThrough R.meaning core.old.state records.now cut core.new.state) }
    ensures wrong { IfErr result (IsEnd (HaveFault R.meaning generation core.old.state start records.now cut)) }
    ensures fault { result ≢ Err (End.Fault AuditFault.Disk) }
{
    let file = generation_file(generation);
    match take_records(alloc, core, records, start) {
        Ok(()) => match cut {
            Some(at) => Err(End::Found(Verdict::Damaged { file, at })),
            None => Ok(()),
        },
        Err(StepStop::Illegal { step }) => Err(End::Found(Verdict::Illegal { step })),
        Err(StepStop::Damaged { at }) => Err(End::Found(Verdict::Damaged { file, at })),
        Err(StepStop::OutOfMemory) => Err(End::Fault(AuditFault::OutOfMemory)),
    }
}

// Goes through the bodies of a generation.
fn go_through_bodies<D: Disk, R: Rules>(
    alloc: Global,
    disk: &mut D,
    rules: R,
    before: Option<&Core<R>>,
    generation: u64,
    bodies: &[Blob],
    cut: Option<u64>,
) -> Result<Core<R>, End>
    requires generation { generation ≤ last_given }
    requires short { header_length + length (open_records bodies.now) + 1 < 2 ^ 64 }
    ensures right { (files : Image) → (D.disk disk.old).told ≡ Some files → HasRecords (heading_of first_format generation) bodies.now cut (files (generation_file generation))
        → IfOk result (λ core. LeadsTo R.meaning files generation (option_map (λ core. core.now.state) before.entry) core.state) }
    ensures wrong { (files : Image) → (D.disk disk.old).told ≡ Some files
        → IfErr result (IsEnd (AreWrong R.meaning files generation (option_map (λ core. core.now.state) before.entry) bodies.now cut)) }
    ensures reads { OnlyReads (D.disk disk.old) (D.disk disk.new) }
    ensures failed { IsErrOf result (End.Fault AuditFault.Disk) → Rose (D.disk disk.old).faults (D.disk disk.new).faults }
{
    let [body, records @ ..] = bodies else {
        return Err(End::Found(Verdict::Damaged {
            file: generation_file(generation),
            at: HEADER,
        }));
    };
    let body = body.bytes();
    let mut core = match begin(alloc, disk, rules, before, generation, body) {
        Ok(core) => core,
        Err(end) => return Err(end),
    };
    let start = HEADER + FRAME + body.len() as u64;
    match go_through(alloc, &mut core, records, start, cut, generation) {
        Ok(()) => Ok(core),
        Err(end) => Err(end),
    }
}

/// A core with the state to which a generation leads, behind the state to which those before it lead: none for the first.
///
/// # Errors
///
/// `Found` where the generation isn't right: its first fault by place.
pub(crate) fn audit_generation<D: Disk, R: Rules>(
    alloc: Global,
    disk: &mut D,
    rules: R,
    before: Option<&Core<R>>,
    generation: u64,
) -> Result<Core<R>, End>
    requires { generation ≤ last_given }
    ensures right { (files : Image) → (D.disk disk.old).told ≡ Some files → IfOk result (λ core. LeadsTo R.meaning files generation (option_map (λ core. core.now.state) before.entry) core.state) }
    ensures wrong { (files : Image) → (D.disk disk.old).told ≡ Some files → IfErr result (IsEnd (IsWrong R.meaning files generation (option_map (λ core. core.now.state) before.entry))) }
    ensures reads { OnlyReads (D.disk disk.old) (D.disk disk.new) }
    ensures failed { IsErrOf result (End.Fault AuditFault.Disk) → Rose (D.disk disk.old).faults (D.disk disk.new).faults }
{
    let file = generation_file(generation);
    let heading = heading_of(FIRST_FORMAT, generation);
    let (bodies, cut) = match read_records(alloc, disk, file, heading) {
        Ok(found) => found,
        Err(JournalFault::Damaged { at }) => return Err(End::Found(Verdict::Damaged { file, at })),
        Err(JournalFault::Disk) => return Err(End::Fault(AuditFault::Disk)),
        Err(JournalFault::OutOfMemory) => return Err(End::Fault(AuditFault::OutOfMemory)),
    };
    match go_through_bodies(
        alloc,
        disk,
        rules,
        before,
        generation,
        bodies.as_slice(),
        cut,
    ) {
        Ok(core) => Ok(core),
        Err(end) => Err(end),
    }
}
