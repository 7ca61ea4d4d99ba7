ghost use Rattle.std.specs.Prelude.{◌≡◌, ◌≤◌, ℕ, suc, Some, None, IfOk, IsErrOf, MatchOption};
ghost use Rattle.edge_traits.specs.Count.{Rose};
ghost use Rattle.edge_traits.specs.Disk.{Image};
ghost use Rattle.disk_journal.specs.Reads.{OnlyReads};
ghost use Rattle.step_code.specs.Spent.{last_given};
ghost use Rattle.store_image.specs.Damage.{IsDamagedStore};
ghost use Rattle.store_image.specs.Files.{root_file};
ghost use Rattle.store_audit.specs.Audit.{ComeTo, IsAudited};
ghost use Rattle.store_audit.specs.Ends.{verdict_of};

use crate::generation::{End, audit_generation};
use crate::root::generation_in_force;
use crate::{AuditFault, Verdict};
use edge_traits::Disk;
use generation_reading::Lent;
use std::alloc::Global;
use step_code::Rules;

fn verdict_of(end: End) -> Result<Verdict, AuditFault>
    ensures { result ≡ verdict_of end }
{
    match end {
        End::Found(verdict) => Ok(verdict),
        End::Fault(fault) => Err(fault),
    }
}

// What all generations of a store come to, up to the one of this number.
fn audit_generations<D: Disk, R: Rules>(
    alloc: Global,
    disk: &mut D,
    rules: &R,
    generation: u64,
) -> Result<Verdict, AuditFault>
    requires { generation ≤ last_given }
    ensures verdict { (files : Image) → (D.disk disk.old).told ≡ Some files → IfOk result (ComeTo R.meaning files (suc generation) 0 None) }
    ensures reads { OnlyReads (D.disk disk.old) (D.disk disk.new) }
    ensures failed { IsErrOf result AuditFault.Disk → Rose (D.disk disk.old).faults (D.disk disk.new).faults }
{
    let mut core = match audit_generation(alloc, disk, Lent { rules }, None, 0) {
        Ok(core) => core,
        Err(end) => return verdict_of(end),
    };
    let mut next = 1;
    'generations: while next <= generation {
        core = match audit_generation(alloc, disk, Lent { rules }, Some(&core), next) {
            Ok(later) => later,
            Err(end) => return verdict_of(end),
        };
        next += 1;
    }
    Ok(Verdict::Legal {
        steps: core.steps(),
    })
}

/// What all generations of a store come to, up to the one that its root names last: none where the root is damaged. Nothing is
/// written.
///
/// # Errors
///
/// `Disk`. `OutOfMemory`.
pub fn audit_store<D: Disk, R: Rules>(
    alloc: Global,
    disk: &mut D,
    rules: &R,
) -> Result<Option<Verdict>, AuditFault>
    ensures verdict { (files : Image) → (D.disk disk.old).told ≡ Some files
        → IfOk result (λ found. MatchOption found ((at : ℕ) × IsDamagedStore R.meaning files root_file at) (IsAudited R.meaning files)) }
    ensures reads { OnlyReads (D.disk disk.old) (D.disk disk.new) }
    ensures failed { IsErrOf result AuditFault.Disk → Rose (D.disk disk.old).faults (D.disk disk.new).faults }
{
    match generation_in_force(alloc, disk) {
        Ok(Some(generation)) => match audit_generations(alloc, disk, rules, generation) {
            Ok(verdict) => Ok(Some(verdict)),
            Err(fault) => Err(fault),
        },
        Ok(None) => Ok(None),
        Err(fault) => Err(fault),
    }
}
