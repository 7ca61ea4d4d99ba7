ghost use Rattle.std.specs.Prelude.{◌≡◌, ◌≤◌, ◌<◌, ◌⊎◌, [], List, ℕ, length, slice_index, true, false, None, OnOk, IfOk, IsTrue, reverse};
ghost use Rattle.edge_traits.specs.Disk.{Image, IsImage, Only};
ghost use Rattle.edge_memory.specs.Entries.{has_file};
ghost use Rattle.edge_memory.specs.Found.{AllFound};
ghost use Rattle.edge_memory.specs.Disk.{files_of, files_after, durable_after, may_leave_after, is_pending_after, plan_of, is_starved, is_unnoted};

use crate::MemDisk;
use crate::change::{Change, Entry};
use crate::choice::Choice;
use crate::crash::image_of;
use crate::log::Log;
use base_types::OutOfMemory;
use edge_traits::Disk;
use std::alloc::Global;

impl MemDisk {
    /// The disk after a crash that came after the first so many of its calls: one of those that it may have left.
    /// Nothing of it is pending, and it has no plan and no calls.
    pub fn image(&self, alloc: Global, call: u64, choice: &Choice) -> Result<MemDisk, OutOfMemory>
        requires { call ≤ (⟦<MemDisk as Disk>⟧.disk self.now).moment }

        ensures left { IfOk result (λ image. IsImage (may_leave_after self.now call) (files_of image)) }
        ensures nothing_pending { IfOk result (λ image. (file : ℕ)
            → Only (files_of image file) ((⟦<MemDisk as Disk>⟧.disk image).may_leave file)) }

        // What is kept is what a read gave then.
        ensures kept { IsTrue choice.now.keep
            → IfOk result (λ image. (file : ℕ) → files_of image file ≡ files_after self.now call file) }

        // Else each byte that was pending is the filler,
        ensures filled { choice.now.keep ≡ false → IfOk result (λ image. (file k : ℕ)
            → k < length (files_of image file) → IsTrue (is_pending_after self.now call file k)
            → slice_index (files_of image file) k ≡ choice.now.filler) }
        // and each other byte stood there when the file was made durable last.
        ensures rest { choice.now.keep ≡ false → IfOk result (λ image. (file k : ℕ) → k < length (files_of image file)
            → (slice_index (files_of image file) k ≡ choice.now.filler)
            ⊎ ((k < length (durable_after self.now call file))
            × (slice_index (files_of image file) k ≡ slice_index (durable_after self.now call file) k))) }

        // No file that the crash may leave is longer, or shorter.
        ensures longest { choice.now.keep ≡ false → IsTrue choice.now.longest
            → IfOk result (λ image. (file : ℕ) (c : List ℕ)
            → may_leave_after self.now call file c → length c ≤ length (files_of image file)) }
        ensures shortest { choice.now.keep ≡ false → choice.now.longest ≡ false
            → IfOk result (λ image. (file : ℕ) (c : List ℕ)
            → may_leave_after self.now call file c → length (files_of image file) ≤ length c) }

        ensures moment { IfOk result (λ image. (⟦<MemDisk as Disk>⟧.disk image).moment ≡ 0) }
        ensures faults { IfOk result (λ image. (⟦<MemDisk as Disk>⟧.disk image).faults ≡ 0) }
        ensures plan { IfOk result (λ image. plan_of image ≡ record { fail = []; stop = None }) }
        ensures starved { IfOk result (λ image. is_starved image ≡ false) }
        ensures unnoted { IfOk result (λ image. is_unnoted image ≡ false) }
    {
        let past = self.log.past(call);
        let mut log = Log::new(alloc);
        'entries: for entry in past {
            restore(alloc, &mut log, past, entry.file, choice)?;
        }
        Ok(MemDisk::with_log(alloc, log))
    }
}

// Notes the file as the crash leaves it, if it isn't noted yet.
fn restore(
    alloc: Global,
    log: &mut Log,
    past: &[Entry],
    file: u64,
    choice: &Choice,
) -> Result<(), OutOfMemory>
    ensures found { OnOk result (AllFound choice.now (reverse past.now) (reverse log.old.entries.items)
        → AllFound choice.now (reverse past.now) (reverse log.new.entries.items)) }
    ensures has { OnOk result (has_file file log.new.entries.items ≡ true) }
    ensures stay { (other : ℕ) → has_file other log.old.entries.items ≡ true
        → has_file other log.new.entries.items ≡ true }
    ensures calls { log.new.calls ≡ log.old.calls }
{
    if log.has(file) {
        return Ok(());
    }
    let bytes = image_of(alloc, past, file, choice)?;
    log.push(file, Change::Found { bytes })
}

/// What a crash after some call may have left is among what might have been left since any earlier moment. After the
/// last call it is what a crash may leave now, and a read gave what it gives now.
pub fn image_is_left_since(disk: &MemDisk)
    ensures since { (call t : ℕ) (image : Image) → t ≤ call → call ≤ (⟦<MemDisk as Disk>⟧.disk disk.now).moment
        → IsImage (may_leave_after disk.now call) image → (⟦<MemDisk as Disk>⟧.disk disk.now).left_since t image }
    ensures now { (file : ℕ) (c : List ℕ) → may_leave_after disk.now (⟦<MemDisk as Disk>⟧.disk disk.now).moment file c
        → (⟦<MemDisk as Disk>⟧.disk disk.now).may_leave file c }
    ensures files_now { (file : ℕ)
        → files_after disk.now (⟦<MemDisk as Disk>⟧.disk disk.now).moment file ≡ files_of disk.now file }
{}
