ghost use Rattle.std.specs.Prelude.{◌≡◌, ◌≢◌, ◌≤◌, ◌+◌, ◌-◌, ℕ, min, length, take, drop, Some, None, IfOk, OnOk, IsErr, ⊤};
ghost use Rattle.edge_traits.specs.Count.{Rose};
ghost use Rattle.edge_traits.specs.Disk.{DiskView, Image, longest_file, overwritten, ChangesOnly, Torn, Cut, LeavesAfter, Adds, Only, IsImage, Elapses};

use crate::Failed;

/// Files with numbers. A file that was never written has length 0.
///
/// Until a sync, a crash may leave any bytes in what was written, and any length between the least and the greatest
/// since the last sync. A call that answers `Failed` may have done any part of its work.
pub trait Disk {
    ghost disk: { Self → DiskView };

    /// The length of a file in bytes.
    fn len(&mut self, file: u64) -> Result<u64, Failed>
        ensures len { (files : Image) → (disk self.old).told ≡ Some files → IfOk result (λ n. n ≡ length (files file)) }
        ensures told { (disk self.new).told ≡ (disk self.old).told }
        ensures crash { Adds (disk self.old) (disk self.new) (λ _. ⊤) }
        ensures time { Elapses (disk self.old) (disk self.new) }
        ensures failed { IsErr result → Rose (disk self.old).faults (disk self.new).faults }
        ensures count { (disk self.old).faults ≤ (disk self.new).faults };

    /// Fills `buf` with the bytes from the offset `at` on, as far as the file has them, and answers how many.
    fn read_at(&mut self, file: u64, at: u64, buf: &mut [u8]) -> Result<usize, Failed>
        ensures within { IfOk result (λ n. n ≤ length buf.new) }
        ensures bytes { (files : Image) → (disk self.old).told ≡ Some files
            → IfOk result (λ n. (n ≡ min (length buf.new) (length (files file) - at)) × (take n buf.new ≡ take n (drop at (files file)))) }
        ensures told { (disk self.new).told ≡ (disk self.old).told }
        ensures crash { Adds (disk self.old) (disk self.new) (λ _. ⊤) }
        ensures time { Elapses (disk self.old) (disk self.new) }
        ensures failed { IsErr result → Rose (disk self.old).faults (disk self.new).faults }
        ensures count { (disk self.old).faults ≤ (disk self.new).faults };

    /// Writes at the offset `at`, over what is there and past the end.
    fn write_at(&mut self, file: u64, at: u64, bytes: &[u8]) -> Result<(), Failed>
        requires within { (files : Image) → (disk self.old).told ≡ Some files → at ≤ length (files file) }
        requires small { at + length bytes.now ≤ longest_file }
        ensures written { (files after : Image) → (disk self.old).told ≡ Some files → (disk self.new).told ≡ Some after
            → OnOk result (after file ≡ overwritten (files file) at bytes.now) }
        ensures elsewhere { (files : Image) → (disk self.old).told ≡ Some files → ChangesOnly files (disk self.new).told file }
        ensures untold { (disk self.old).told ≡ None → (disk self.new).told ≡ None }
        ensures crash { LeavesAfter (disk self.old) (disk self.new) file (Torn at (length bytes.now)) }
        ensures crash_elsewhere { Adds (disk self.old) (disk self.new) (λ other. other ≢ file) }
        ensures time { Elapses (disk self.old) (disk self.new) }
        ensures failed { IsErr result → Rose (disk self.old).faults (disk self.new).faults }
        ensures count { (disk self.old).faults ≤ (disk self.new).faults };

    /// Cuts a file to a length in bytes.
    fn cut(&mut self, file: u64, len: u64) -> Result<(), Failed>
        requires { (files : Image) → (disk self.old).told ≡ Some files → len ≤ length (files file) }
        ensures shortened { (files after : Image) → (disk self.old).told ≡ Some files → (disk self.new).told ≡ Some after
            → OnOk result (after file ≡ take len (files file)) }
        ensures elsewhere { (files : Image) → (disk self.old).told ≡ Some files → ChangesOnly files (disk self.new).told file }
        ensures untold { (disk self.old).told ≡ None → (disk self.new).told ≡ None }
        ensures crash { LeavesAfter (disk self.old) (disk self.new) file (Cut len) }
        ensures crash_elsewhere { Adds (disk self.old) (disk self.new) (λ other. other ≢ file) }
        ensures time { Elapses (disk self.old) (disk self.new) }
        ensures failed { IsErr result → Rose (disk self.old).faults (disk self.new).faults }
        ensures count { (disk self.old).faults ≤ (disk self.new).faults };

    /// Makes a file durable: from then on a crash leaves in it what a read gives.
    fn sync(&mut self, file: u64) -> Result<(), Failed>
        ensures durable { (files : Image) → (disk self.old).told ≡ Some files
            → OnOk result (Only (files file) ((disk self.new).may_leave file)) }
        ensures told { (disk self.new).told ≡ (disk self.old).told }
        ensures crash { Adds (disk self.old) (disk self.new) (λ _. ⊤) }
        ensures time { Elapses (disk self.old) (disk self.new) }
        ensures failed { IsErr result → Rose (disk self.old).faults (disk self.new).faults }
        ensures count { (disk self.old).faults ≤ (disk self.new).faults };

    /// The disk as it reads is one of its images.
    ghost honest: { (d : Self) (files : Image) → (disk d).told ≡ Some files → IsImage (disk d).may_leave files };

    /// This moment is one of those since an earlier one.
    ghost counts_now: { (d : Self) (t : ℕ) (image : Image) → t ≤ (disk d).moment → IsImage (disk d).may_leave image → (disk d).left_since t image };

    /// Since this moment there is no other.
    ghost only_now: { (d : Self) (image : Image) → (disk d).left_since (disk d).moment image → IsImage (disk d).may_leave image };

    /// What might have been left since a moment might have been left since an earlier one.
    ghost earlier: { (d : Self) (s t : ℕ) (image : Image) → s ≤ t → (disk d).left_since t image → (disk d).left_since s image };
}
