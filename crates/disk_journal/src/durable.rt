ghost use Rattle.std.specs.Prelude.{◌≡◌, ◌≢◌, ◌≤◌, ◌+◌, ℕ, List, length, take, Some, None, OnOk, IsErr};
ghost use Rattle.edge_traits.specs.Count.{Rose};
ghost use Rattle.edge_traits.specs.Disk.{Image, longest_file, overwritten, ChangesOnly, Torn, Cut, Adds, Only, Leaves};
ghost use Rattle.disk_journal.specs.Durable.{IsStepped};

use edge_traits::{Disk, Failed};

/// Writes, and makes that durable.
pub(crate) fn write_durably<D: Disk>(
    disk: &mut D,
    file: u64,
    at: u64,
    bytes: &[u8],
) -> Result<(), Failed>
    requires within { (files : Image) → (D.disk disk.old).told ≡ Some files → at ≤ length (files file) }
    requires small { at + length bytes.now ≤ longest_file }
    ensures written { (files after : Image) → (D.disk disk.old).told ≡ Some files → (D.disk disk.new).told ≡ Some after
        → OnOk result (after file ≡ overwritten (files file) at bytes.now) }
    ensures durable { (after : Image) → (D.disk disk.new).told ≡ Some after → OnOk result (Only (after file) ((D.disk disk.new).may_leave file)) }
    ensures elsewhere { (files : Image) → (D.disk disk.old).told ≡ Some files → ChangesOnly files (D.disk disk.new).told file }
    ensures untold { (D.disk disk.old).told ≡ None → (D.disk disk.new).told ≡ None }
    ensures crash_elsewhere { Adds (D.disk disk.old) (D.disk disk.new) (λ other. other ≢ file) }

    // A crash at any moment leaves the file as it was, or torn by this write alone.
    ensures any_moment { Leaves (D.disk disk.old) (D.disk disk.new)
        (IsStepped (D.disk disk.old) file (Torn at (length bytes.now))) }
    ensures failed { IsErr result → Rose (D.disk disk.old).faults (D.disk disk.new).faults }
    ensures count { (D.disk disk.old).faults ≤ (D.disk disk.new).faults }
{
    disk.write_at(file, at, bytes)?;
    disk.sync(file)
}

/// Cuts the file to a length in bytes, and makes that durable.
pub(crate) fn cut_durably<D: Disk>(disk: &mut D, file: u64, len: u64) -> Result<(), Failed>
    requires { (files : Image) → (D.disk disk.old).told ≡ Some files → len ≤ length (files file) }
    ensures shortened { (files after : Image) → (D.disk disk.old).told ≡ Some files → (D.disk disk.new).told ≡ Some after
        → OnOk result (after file ≡ take len (files file)) }
    ensures durable { (after : Image) → (D.disk disk.new).told ≡ Some after → OnOk result (Only (after file) ((D.disk disk.new).may_leave file)) }
    ensures elsewhere { (files : Image) → (D.disk disk.old).told ≡ Some files → ChangesOnly files (D.disk disk.new).told file }
    ensures untold { (D.disk disk.old).told ≡ None → (D.disk disk.new).told ≡ None }
    ensures crash_elsewhere { Adds (D.disk disk.old) (D.disk disk.new) (λ other. other ≢ file) }

    // A crash at any moment leaves the file as it was, or cut by this call alone.
    ensures any_moment { Leaves (D.disk disk.old) (D.disk disk.new)
        (IsStepped (D.disk disk.old) file (Cut len)) }
    ensures failed { IsErr result → Rose (D.disk disk.old).faults (D.disk disk.new).faults }
    ensures count { (D.disk disk.old).faults ≤ (D.disk disk.new).faults }
{
    disk.cut(file, len)?;
    disk.sync(file)
}
