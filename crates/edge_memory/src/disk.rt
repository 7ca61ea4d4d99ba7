ghost use Rattle.std.specs.Prelude.{◌≡◌, ◌≢◌, ◌<◌, ◌≤◌, ◌↔◌, ◌+◌, ◌-◌, ◌^◌, ◌⊎◌, ◌||◌, ◌&&◌, ◌∷◌, ◌++◌, [], List, ℕ, Bool, min, length, take, drop, not, true, false, is_err, reverse, Some, None, Option, IfOk, OnOk, OnErr, IsErr, IsTrue, ⊤};
ghost use Rattle.edge_traits.specs.Count.{Rose, count_sum, last_count};
ghost use Rattle.edge_traits.specs.Disk.{Image, longest_file, overwritten, ChangesOnly, Torn, Cut, LeavesAfter, Adds, Only, IsImage, Elapses};
ghost use Rattle.edge_memory.specs.Entries.{content};
ghost use Rattle.edge_memory.specs.Moments.{IsStep};
ghost use Rattle.edge_memory.specs.declared.change.Change.{Change};
ghost use Rattle.edge_memory.specs.Course.{IsCourse};
ghost use Rattle.edge_memory.specs.Plan.{is_planned};

mod image;

use crate::change::Change;
use crate::log::Log;
use crate::plan::FailPlan;
use crate::source::copy_from;
use base_types::{NumberList, OutOfMemory};
use edge_traits::{Disk, Failed};
pub use image::image_is_left_since;
use std::alloc::Global;

/// A disk in memory, which keeps the list of its calls. It tells what it holds, and what a crash after any of its calls
/// may leave.
///
/// It makes 2^64 - 1 calls at most. After them every call fails, as after a stop.
#[derive(Debug, Drop)]
pub struct MemDisk {
    alloc: Global,
    log: Log,
    plan: FailPlan,
    faults: u64,
    starved: bool,
    unnoted: bool,
}

// How a call goes on that has been counted.
#[derive(Clone, Copy, Debug)]
enum Course {
    Goes,
    Fails,
    // There is no number left for it.
    Over,
}

impl MemDisk {
    ghost use Rattle.edge_memory.specs.Disk.{files_of, plan_of, is_starved, is_unnoted, fails_next, Counted, KeepsPast};

    /// A disk on which every file is empty.
    pub fn new(alloc: Global) -> Self
        ensures moment { (⟦<MemDisk as Disk>⟧.disk result).moment ≡ 0 }
        ensures faults { (⟦<MemDisk as Disk>⟧.disk result).faults ≡ 0 }
        ensures empty { (⟦<MemDisk as Disk>⟧.disk result).told ≡ Some (λ _. []) }
        ensures nothing_pending { (file : ℕ) → Only [] ((⟦<MemDisk as Disk>⟧.disk result).may_leave file) }
        ensures plan { plan_of result ≡ record { fail = []; stop = None } }
        ensures starved { is_starved result ≡ false }
        ensures unnoted { is_unnoted result ≡ false }
    {
        MemDisk::with_log(alloc, Log::new(alloc))
    }

    fn with_log(alloc: Global, log: Log) -> Self
        ensures log { result.log ≡ log }
        ensures faults { result.faults ≡ 0 }
        ensures plan { plan_of result ≡ record { fail = []; stop = None } }
        ensures starved { is_starved result ≡ false }
        ensures unnoted { is_unnoted result ≡ false }
    {
        MemDisk {
            alloc,
            log,
            plan: FailPlan::none(alloc),
            faults: 0,
            starved: false,
            unnoted: false,
        }
    }

    /// Sets the calls that are to fail, and the call after which every call fails, by their numbers as `calls` counts
    /// them.
    pub fn plan(&mut self, fail: NumberList, stop: Option<u64>)
        ensures plan { plan_of self.new ≡ record { fail = fail; stop = stop } }
        ensures told { (⟦<MemDisk as Disk>⟧.disk self.new).told ≡ (⟦<MemDisk as Disk>⟧.disk self.old).told }
        ensures faults { (⟦<MemDisk as Disk>⟧.disk self.new).faults ≡ (⟦<MemDisk as Disk>⟧.disk self.old).faults }
        ensures moment { (⟦<MemDisk as Disk>⟧.disk self.new).moment ≡ (⟦<MemDisk as Disk>⟧.disk self.old).moment }
        ensures may_leave { (file : ℕ) (c : List ℕ) → (⟦<MemDisk as Disk>⟧.disk self.new).may_leave file c
            ↔ (⟦<MemDisk as Disk>⟧.disk self.old).may_leave file c }
        ensures left_since { (t : ℕ) (image : Image) → (⟦<MemDisk as Disk>⟧.disk self.new).left_since t image
            ↔ (⟦<MemDisk as Disk>⟧.disk self.old).left_since t image }
        ensures past { KeepsPast self.old self.new }
        ensures starved { is_starved self.new ≡ is_starved self.old }
        ensures unnoted { is_unnoted self.new ≡ is_unnoted self.old }
    {
        self.plan = FailPlan::new(fail, stop);
    }

    /// The number of its calls.
    pub fn calls(&self) -> u64
        ensures { result ≡ (⟦<MemDisk as Disk>⟧.disk self.now).moment }
    {
        self.log.calls
    }

    /// Whether a call has failed that was neither planned to nor after a stop: it found no memory.
    pub fn starved(&self) -> bool
        ensures { result ≡ is_starved self.now }
    {
        self.starved
    }

    /// Whether a write or a cut has failed of which no part is noted, for want of memory or of a number for the call: then
    /// no crash shows a part of it.
    pub fn unnoted(&self) -> bool
        ensures { result ≡ is_unnoted self.now }
    {
        self.unnoted
    }

    /// What a read of the file gives, looked at without a call.
    pub fn file(&self, alloc: Global, file: u64) -> Result<Vec<u8>, OutOfMemory>
        ensures { IfOk result (λ bytes. bytes.items ≡ files_of self.now file) }
    {
        Ok(self.log.bytes(file).to_vec(alloc)?)
    }

    // Counts a call.
    fn begin(&mut self) -> Course
        ensures course { IsCourse result (fails_next self.old) self.old.log.calls self.new.log.calls }
        ensures entries { self.new.log.entries.items ≡ self.old.log.entries.items }
        ensures same { self.new ≡ record self.old { log = self.new.log } }
    {
        if self.log.calls == u64::MAX {
            return Course::Over;
        }
        self.log.count();
        if self.plan.has(self.log.calls) {
            Course::Fails
        } else {
            Course::Goes
        }
    }

    fn fail(&mut self) -> Failed
        ensures same { self.new ≡ record self.old { faults = self.new.faults } }
        ensures faults { self.new.faults ≡ count_sum self.old.faults 1 }
        ensures failed { Rose self.old.faults self.new.faults }
        ensures count { self.old.faults ≤ self.new.faults }
    {
        self.faults = self.faults.saturating_add(1);
        Failed
    }

    fn starve(&mut self) -> Failed
        ensures same { self.new ≡ record self.old { faults = self.new.faults; starved = true } }
        ensures faults { self.new.faults ≡ count_sum self.old.faults 1 }
        ensures failed { Rose self.old.faults self.new.faults }
        ensures count { self.old.faults ≤ self.new.faults }
    {
        self.starved = true;
        self.fail()
    }

    // Makes a call that changes nothing.
    fn look(&mut self) -> Result<(), Failed>
        ensures as_told { is_err result ≡ fails_next self.old }
        ensures entries { self.new.log.entries.items ≡ self.old.log.entries.items }
        ensures unnoted { self.new.unnoted ≡ self.old.unnoted }
        ensures time { IsStep self.old.log.entries.items self.old.log.calls self.new.log.entries.items self.new.log.calls }
        ensures counted { Counted self.old self.new (is_err result) }
        ensures failed { IsErr result → Rose self.old.faults self.new.faults }
        ensures count { self.old.faults ≤ self.new.faults }
    {
        match self.begin() {
            Course::Goes => Ok(()),
            Course::Fails => Err(self.fail()),
            Course::Over => Err(self.fail()),
        }
    }

    // Notes what the call changed that was counted last, if there is memory for it.
    fn note(&mut self, file: u64, change: Option<Change>) -> Result<(), OutOfMemory>
        ensures ok { OnOk result ((done : Change) × (change ≡ Some done) × (self.new.log.entries.items
            ≡ self.old.log.entries.items ++ record { number = self.old.log.calls; file = file; change = done } ∷ [])) }
        ensures err { OnErr result (self.new.log.entries.items ≡ self.old.log.entries.items) }
        ensures calls { self.new.log.calls ≡ self.old.log.calls }
        ensures same { self.new ≡ record self.old { log = self.new.log } }
    {
        match change {
            Some(change) => self.log.push(file, change),
            None => Err(OutOfMemory),
        }
    }

    // Notes that the call that was counted last failed, and may have done this part.
    fn note_part(&mut self, file: u64, part: Option<Change>)
        ensures entries { (self.new.log.entries.items ≡ self.old.log.entries.items)
            ⊎ ((done : Change) × (part ≡ Some done) × (self.new.log.entries.items
            ≡ self.old.log.entries.items ++ record { number = self.old.log.calls; file = file; change = done } ∷ [])) }
        ensures noted { (done : Change) → part ≡ Some done → self.new.unnoted ≡ false → self.new.log.entries.items
            ≡ self.old.log.entries.items ++ record { number = self.old.log.calls; file = file; change = done } ∷ [] }
        ensures calls { self.new.log.calls ≡ self.old.log.calls }
        ensures nothing { part ≡ None → self.new.unnoted ≡ self.old.unnoted }
        ensures unnoted { self.old.unnoted ≡ true → self.new.unnoted ≡ true }
        ensures same { self.new ≡ record self.old { log = self.new.log; unnoted = self.new.unnoted } }
    {
        if let Some(part) = part {
            if self.log.push(file, part).is_err() {
                self.unnoted = true;
            }
        }
    }

    // Makes a call that changes a file: what it changes, if there is memory for that, and else, or where the call is to
    // fail, the part of it that it may have done.
    fn change(
        &mut self,
        file: u64,
        change: Option<Change>,
        part: Option<Change>,
    ) -> Result<(), Failed>
        ensures ok { OnOk result ((done : Change) × (change ≡ Some done) × (self.new.log.entries.items
            ≡ self.old.log.entries.items ++ record { number = self.new.log.calls; file = file; change = done } ∷ [])) }
        ensures err { OnErr result ((self.new.log.entries.items ≡ self.old.log.entries.items)
            ⊎ ((done : Change) × (part ≡ Some done) × (self.new.log.entries.items
            ≡ self.old.log.entries.items ++ record { number = self.new.log.calls; file = file; change = done } ∷ []))) }
        ensures noted { OnErr result ((done : Change) → part ≡ Some done → self.new.unnoted ≡ false → self.new.log.entries.items
            ≡ self.old.log.entries.items ++ record { number = self.new.log.calls; file = file; change = done } ∷ []) }
        ensures nothing { part ≡ None → self.new.unnoted ≡ self.old.unnoted }
        ensures time { IsStep self.old.log.entries.items self.old.log.calls self.new.log.entries.items self.new.log.calls }
        ensures counted { Counted self.old self.new (is_err result) }
        ensures failed { IsErr result → Rose self.old.faults self.new.faults }
        ensures count { self.old.faults ≤ self.new.faults }
    {
        match self.begin() {
            Course::Goes => match self.note(file, change) {
                Ok(()) => Ok(()),
                Err(_) => {
                    self.note_part(file, part);
                    Err(self.starve())
                }
            },
            Course::Fails => {
                self.note_part(file, part);
                Err(self.fail())
            }
            Course::Over => {
                self.unnoted |= part.is_some();
                Err(self.fail())
            }
        }
    }
}

impl Disk for MemDisk {
    ghost use Rattle.edge_memory.specs.Disk.{disk_view, may_leave, is_pending_after, is_unnoted, fails_next, Counted, KeepsPast, honest};
    ghost use Rattle.edge_memory.specs.Moments.{since_now, now_only, since_earlier};

    ghost disk = { disk_view };

    #[tactic(auto, using(crate::proofs::Steps::keeps_past))]
    fn len(&mut self, file: u64) -> Result<u64, Failed>
        ensures len { (files : Image) → (disk_view self.old).told ≡ Some files → IfOk result (λ n. n ≡ length (files file)) }
        ensures told { (disk_view self.new).told ≡ (disk_view self.old).told }
        ensures crash { Adds (disk_view self.old) (disk_view self.new) (λ _. ⊤) }
        ensures time { Elapses (disk_view self.old) (disk_view self.new) }
        ensures failed { IsErr result → Rose (disk_view self.old).faults (disk_view self.new).faults }
        ensures count { (disk_view self.old).faults ≤ (disk_view self.new).faults }
        ensures counted { Counted self.old self.new (is_err result) }
        ensures past { KeepsPast self.old self.new }
        ensures keeps { Adds (disk_view self.new) (disk_view self.old) (λ _. ⊤) }

        // A look takes no memory: it fails where it is to, and nowhere else.
        ensures as_told { is_err result ≡ fails_next self.old }
        ensures unnoted { is_unnoted self.new ≡ is_unnoted self.old }
    {
        self.look()?;
        Ok(self.log.bytes(file).len() as u64)
    }

    #[tactic(auto, using(crate::proofs::Steps::keeps_past))]
    fn read_at(&mut self, file: u64, at: u64, buf: &mut [u8]) -> Result<usize, Failed>
        ensures within { IfOk result (λ n. n ≤ length buf.new) }
        ensures bytes { (files : Image) → (disk_view self.old).told ≡ Some files
            → IfOk result (λ n. (n ≡ min (length buf.new) (length (files file) - at)) × (take n buf.new ≡ take n (drop at (files file)))) }
        ensures told { (disk_view self.new).told ≡ (disk_view self.old).told }
        ensures crash { Adds (disk_view self.old) (disk_view self.new) (λ _. ⊤) }
        ensures time { Elapses (disk_view self.old) (disk_view self.new) }
        ensures failed { IsErr result → Rose (disk_view self.old).faults (disk_view self.new).faults }
        ensures count { (disk_view self.old).faults ≤ (disk_view self.new).faults }
        ensures counted { Counted self.old self.new (is_err result) }
        ensures past { KeepsPast self.old self.new }
        ensures keeps { Adds (disk_view self.new) (disk_view self.old) (λ _. ⊤) }

        // A look takes no memory: it fails where it is to, and nowhere else.
        ensures as_told { is_err result ≡ fails_next self.old }
        ensures unnoted { is_unnoted self.new ≡ is_unnoted self.old }
    {
        self.look()?;
        Ok(copy_from(self.log.bytes(file), at, buf))
    }

    fn write_at(&mut self, file: u64, at: u64, bytes: &[u8]) -> Result<(), Failed>
        requires within { (files : Image) → (disk_view self.old).told ≡ Some files → at ≤ length (files file) }
        requires small { at + length bytes.now ≤ longest_file }
        ensures written { (files after : Image) → (disk_view self.old).told ≡ Some files → (disk_view self.new).told ≡ Some after
            → OnOk result (after file ≡ overwritten (files file) at bytes.now) }
        ensures elsewhere { (files : Image) → (disk_view self.old).told ≡ Some files → ChangesOnly files (disk_view self.new).told file }
        ensures untold { (disk_view self.old).told ≡ None → (disk_view self.new).told ≡ None }
        ensures crash { LeavesAfter (disk_view self.old) (disk_view self.new) file (Torn at (length bytes.now)) }
        ensures crash_elsewhere { Adds (disk_view self.old) (disk_view self.new) (λ other. other ≢ file) }
        ensures time { Elapses (disk_view self.old) (disk_view self.new) }
        ensures failed { IsErr result → Rose (disk_view self.old).faults (disk_view self.new).faults }
        ensures count { (disk_view self.old).faults ≤ (disk_view self.new).faults }
        ensures refused { OnErr result ((disk_view self.new).told ≡ (disk_view self.old).told) }
        ensures counted { Counted self.old self.new (is_err result) }
        ensures past { KeepsPast self.old self.new }
        ensures keeps_elsewhere { Adds (disk_view self.new) (disk_view self.old) (λ other. other ≢ file) }

        // Until a sync a crash may leave whatever a torn write leaves.
        ensures tears { OnOk result ((d c : List ℕ) → may_leave self.old file d → Torn at (length bytes.now) d c
            → may_leave self.new file c) }
        // Of a failed one it may leave any part too, unless there was no memory to note that: then none was done.
        ensures in_part { OnErr result (((c : List ℕ) → may_leave self.new file c ↔ may_leave self.old file c)
            ⊎ ((d c : List ℕ) → may_leave self.old file d → Torn at (length bytes.now) d c → may_leave self.new file c)) }
        ensures noted { OnErr result (is_unnoted self.new ≡ false
            → (d c : List ℕ) → may_leave self.old file d → Torn at (length bytes.now) d c → may_leave self.new file c) }
        ensures part_pending { OnErr result (is_unnoted self.new ≡ false → (k : ℕ) → at ≤ k → k < at + length bytes.now
            → IsTrue (is_pending_after self.new (disk_view self.new).moment file k)) }
        ensures pending { OnOk result ((k : ℕ) → at ≤ k → k < at + length bytes.now
            → IsTrue (is_pending_after self.new (disk_view self.new).moment file k)) }
    {
        let part = Change::FailedWrite {
            at,
            len: bytes.len() as u64,
        };
        let change = bytes
            .to_vec(self.alloc)
            .ok()
            .map(|bytes| Change::Write { at, bytes });
        self.change(file, change, Some(part))
    }

    fn cut(&mut self, file: u64, len: u64) -> Result<(), Failed>
        requires { (files : Image) → (disk_view self.old).told ≡ Some files → len ≤ length (files file) }
        ensures shortened { (files after : Image) → (disk_view self.old).told ≡ Some files → (disk_view self.new).told ≡ Some after
            → OnOk result (after file ≡ take len (files file)) }
        ensures elsewhere { (files : Image) → (disk_view self.old).told ≡ Some files → ChangesOnly files (disk_view self.new).told file }
        ensures untold { (disk_view self.old).told ≡ None → (disk_view self.new).told ≡ None }
        ensures crash { LeavesAfter (disk_view self.old) (disk_view self.new) file (Cut len) }
        ensures crash_elsewhere { Adds (disk_view self.old) (disk_view self.new) (λ other. other ≢ file) }
        ensures time { Elapses (disk_view self.old) (disk_view self.new) }
        ensures failed { IsErr result → Rose (disk_view self.old).faults (disk_view self.new).faults }
        ensures count { (disk_view self.old).faults ≤ (disk_view self.new).faults }
        ensures refused { OnErr result ((disk_view self.new).told ≡ (disk_view self.old).told) }
        ensures counted { Counted self.old self.new (is_err result) }
        ensures past { KeepsPast self.old self.new }
        ensures keeps_elsewhere { Adds (disk_view self.new) (disk_view self.old) (λ other. other ≢ file) }

        // Until a sync a crash may undo it, or a part of it.
        ensures undone { OnOk result ((d c : List ℕ) → may_leave self.old file d → Cut len d c
            → may_leave self.new file c) }
        // Of a failed one it may leave any part too, unless there was no memory to note that: then none was done.
        ensures in_part { OnErr result (((c : List ℕ) → may_leave self.new file c ↔ may_leave self.old file c)
            ⊎ ((d c : List ℕ) → may_leave self.old file d → Cut len d c → may_leave self.new file c)) }
        ensures noted { OnErr result (is_unnoted self.new ≡ false
            → (d c : List ℕ) → may_leave self.old file d → Cut len d c → may_leave self.new file c) }
    {
        self.change(
            file,
            Some(Change::Cut { len }),
            Some(Change::FailedCut { len }),
        )
    }

    fn sync(&mut self, file: u64) -> Result<(), Failed>
        ensures durable { (files : Image) → (disk_view self.old).told ≡ Some files
            → OnOk result (Only (files file) (may_leave self.new file)) }
        ensures told { (disk_view self.new).told ≡ (disk_view self.old).told }
        ensures crash { Adds (disk_view self.old) (disk_view self.new) (λ _. ⊤) }
        ensures time { Elapses (disk_view self.old) (disk_view self.new) }
        ensures failed { IsErr result → Rose (disk_view self.old).faults (disk_view self.new).faults }
        ensures count { (disk_view self.old).faults ≤ (disk_view self.new).faults }
        ensures counted { Counted self.old self.new (is_err result) }
        ensures past { KeepsPast self.old self.new }
        ensures keeps_elsewhere { Adds (disk_view self.new) (disk_view self.old) (λ other. other ≢ file) }
        ensures keeps { OnErr result (Adds (disk_view self.new) (disk_view self.old) (λ _. ⊤)) }
        ensures unnoted { is_unnoted self.new ≡ is_unnoted self.old }
    {
        self.change(file, Some(Change::Sync), None)
    }

    ghost honest = { honest };

    ghost counts_now = { λ d. since_now d.log.calls d.log.entries.items d.log.numbered };

    ghost only_now = { λ d. now_only d.log.calls d.log.entries.items d.log.numbered };

    ghost earlier = { λ d. since_earlier d.log.entries.items d.log.calls };
}
