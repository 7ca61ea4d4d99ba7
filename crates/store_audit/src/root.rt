//! The root: the generation that it names last.
ghost use Rattle.std.specs.Prelude.{◌≡◌, ◌<◌, ◌≤◌, ◌^◌, ℕ, Some, IfErr, IfOk, IfSome, IsErrOf, MatchOption};
ghost use Rattle.edge_traits.specs.Count.{Rose};
ghost use Rattle.edge_traits.specs.Disk.{Image};
ghost use Rattle.disk_journal.specs.Reads.{OnlyReads};
ghost use Rattle.step_code.specs.Spent.{last_given};
ghost use Rattle.store_image.specs.Damage.{behind_bodies, NameNone};
ghost use Rattle.store_image.specs.Files.{root_file};
ghost use Rattle.store_image.specs.Stored.{NamesLast};
ghost use Rattle.generation_reading.specs.Reading.{AreGenerations};
ghost use Rattle.store_audit.specs.Ends.{IsDamagedRoot};

use crate::AuditFault;
use base_types::Blob;
use disk_journal::{JournalFault, read_records};
use edge_traits::Disk;
use generation_reading::generation_named;
use std::alloc::Global;
use store_image::{ROOT, root_heading};

// The generation that these bodies name last: none where they name none.
fn last_named(bodies: &[Blob]) -> Result<Option<u64>, AuditFault>
    requires { behind_bodies bodies.now < 2 ^ 64 }
    ensures given { IfOk result (λ found. IfSome found (λ generation. generation ≤ last_given)) }
    ensures named { IfOk result (λ found. MatchOption found ((at : ℕ) × NameNone bodies.now at) (AreGenerations bodies.now)) }
    ensures memory { IfErr result (λ fault. fault ≡ AuditFault.OutOfMemory) }
{
    match generation_named(bodies) {
        Ok(generation) => Ok(Some(generation)),
        Err(JournalFault::Damaged { .. }) => Ok(None),
        Err(_) => Err(AuditFault::OutOfMemory),
    }
}

/// The generation that the root names last: none where the root is damaged.
pub(crate) fn generation_in_force<D: Disk>(
    alloc: Global,
    disk: &mut D,
) -> Result<Option<u64>, AuditFault>
    ensures given { IfOk result (λ found. IfSome found (λ generation. generation ≤ last_given)) }
    ensures named { (files : Image) → (D.disk disk.old).told ≡ Some files → IfOk result (λ found. MatchOption found (IsDamagedRoot files) (NamesLast (files root_file))) }
    ensures reads { OnlyReads (D.disk disk.old) (D.disk disk.new) }
    ensures failed { IsErrOf result AuditFault.Disk → Rose (D.disk disk.old).faults (D.disk disk.new).faults }
{
    let (bodies, cut) = match read_records(alloc, disk, ROOT, root_heading()) {
        Ok(found) => found,
        Err(JournalFault::Damaged { .. }) => return Ok(None),
        Err(JournalFault::Disk) => return Err(AuditFault::Disk),
        Err(JournalFault::OutOfMemory) => return Err(AuditFault::OutOfMemory),
    };
    if cut.is_some() {
        return Ok(None);
    }
    last_named(bodies.as_slice())
}
