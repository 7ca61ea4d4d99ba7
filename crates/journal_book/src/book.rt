ghost use Rattle.std.specs.Prelude.{min, suc, ◌≡◌, ◌≢◌, ◌↔◌, ◌⊎◌, ◌≤◌, ◌<◌, ◌+◌, ◌++◌, [], ◌∷◌, ℕ, Bool, List, true, false, length, take, drop, Option, Some, None, Err, IfOk, IfErr, OnOk, OnErr, IsErrOf};
ghost use Rattle.ack_steps.specs.Core.{HasNearFeeds, HasSoundHands};
ghost use Rattle.base_types.specs.Number.{last_u64};
ghost use Rattle.core_state.specs.Sealing.{sealed_whole, HaveSmallOutputs};
ghost use Rattle.disk_journal.specs.GateFile.{longest_journal};
ghost use Rattle.disk_journal.specs.Reads.{OnlyReads};
ghost use Rattle.edge_traits.specs.Count.{Rose};
ghost use Rattle.edge_traits.specs.Disk.{Image, Leaves};
ghost use Rattle.step_code.specs.declared.base.Base.{Base};
ghost use Rattle.step_code.specs.declared.step.Step.{Step};
ghost use Rattle.step_code.specs.After.{after};
ghost use Rattle.step_code.specs.Code.{code_of_base, first_format, IsWritableBase};
ghost use Rattle.step_code.specs.Content.{May};
ghost use Rattle.step_code.specs.Fits.{Fits};
ghost use Rattle.step_code.specs.Rules.{last_moment};
ghost use Rattle.step_code.specs.declared.rules.Facts.{Facts};
ghost use Rattle.step_code.specs.History.{first, replay};
ghost use Rattle.step_code.specs.Sound.{IsSound};
ghost use Rattle.step_code.specs.Spent.{last_given};
ghost use Rattle.store_image.specs.Files.{generation_file, root_file};
ghost use Rattle.store_image.specs.Stands.{origin_of, Origin, StandsFor};
ghost use Rattle.store_image.specs.Stored.{codes_of, IsStored};
ghost use Rattle.journal_book.specs.Alone.{IsApart, IsBeside, IsBesideNew, IsNoOut, LeavesAlone};
ghost use Rattle.journal_book.specs.Book.{created, durable_steps, root_entry, waiting_steps, IsKept};
ghost use Rattle.journal_book.specs.Faults.{IsCreateFault};
ghost use Rattle.journal_book.specs.NewStore.{HasOldRootOrFirst};
ghost use Rattle.journal_book.specs.Outputs.{AreCompleted, AreWritten, IsBringUpFault, IsNoDamage, LeavesOuts};
ghost use Rattle.store_image.specs.Opens.{AreLong, Opens};
ghost use Rattle.journal_book.specs.Opening.{opened, IsReopened, IsReopenFault, IsRootLength, StandsNow, TellsLong};
ghost use Rattle.journal_book.specs.Past.{IsPast, IsPastFault};
ghost use Rattle.journal_book.specs.Renewing.{renew_cause, renewed, IsBeginFault, IsBesideNext, IsRefused, IsRenewFault, IsUndamaged};
ghost use Rattle.journal_book.specs.Staged.{cause_of, greatest_limit, most_waiting, most_waiting_bytes, staged, stamp, step_cause, IsMove, IsStageRefusal};

use crate::create::{Opened, make_store};
use crate::entering::enter;
use crate::opening::{Reopened, open_store};
use crate::outputs::complete_all;
use crate::past::{Past, read_past};
use crate::renewing::{begin_generation, is_disk_fault, next_base, next_number, renew_fault};
use crate::staging::{Move, next_step};
use crate::{BookFault, PastFault, RenewFault, StageRefusal};
use ack_steps::Core;
use base_types::{Blob, OutOfMemory};
use disk_journal::Journal;
use edge_traits::Disk;
use generation_reading::History;
use std::alloc::Global;
use std::marker::Model;
use std::snapshot::Snapshot;
use step_code::{Base, Rules, Step};
use step_log::StepLog;
use store_image::WRITTEN_FORMAT;

/// Why staged steps could not be made durable.
#[derive(Clone, Copy, Debug, PartialEq, Eq)]
pub enum FlushFault {
    /// The disk failed. The book is broken from now on: open the store again.
    Disk,
    /// The disk failed in an earlier call of this book.
    Broken,
}

/// A durable history: the steps of a pipeline on a disk that it owns, and the state that they lead to.
#[derive(Drop)]
pub struct Book<D: Disk, R: Rules> {
    alloc: Global,
    disk: D,
    core: Core<R>,
    root: Journal,
    journal: Journal,
    format: u32,
    generation: u64,
    // The state that the generation begins with.
    base: Snapshot<Base>,
    steps: StepLog,
    durable: usize,
    // The codes of the steps that aren't durable are its first so many bytes.
    pending: Blob,
    used: usize,
    limit: u64,
    broken: bool,
}

impl<D: Disk, R: Rules> Model for Book<D, R> {
    ghost use Rattle.std.specs.Prelude.{◌≡◌, false, take, ℕ, Some};
    ghost use Rattle.edge_traits.specs.Disk.{Image};
    ghost use Rattle.journal_book.specs.Book.{BookView};
    ghost use Rattle.store_image.specs.Opens.{AreLong};
    ghost use Rattle.journal_book.specs.Keeping.{AreAtRest, AreShort, AreStoreFiles, IsPending, IsReplayed};

    ghost Value = { BookView D R };

    ghost view = { λ b. record { disk = b.disk; rules = b.core.rules; format = b.format; generation = b.generation; root = b.root.length; base = b.base.value; steps = b.steps; kept = b.durable; state = b.core.state; limit = b.limit; broken = b.broken } };

    ghost invariant = { λ b. AreStoreFiles b.root b.journal b.format b.generation
        × IsReplayed R.meaning b.base.value b.steps b.durable b.core.state
        × IsPending b.steps b.durable b.pending b.used b.limit b.journal
        × AreShort b.core.state.outs
        × (b.broken ≡ false → b.journal.broken ≡ false)
        × (b.broken ≡ false → (files : Image) → (D.disk b.disk).told ≡ Some files → AreAtRest b.root b.journal (D.disk b.disk).may_leave b.generation b.base.value (take b.durable b.steps) files)
        × (b.broken ≡ false → (files : Image) → (D.disk b.disk).told ≡ Some files → AreLong 0 b.core.state.outs files)
        × (b.broken ≡ false → b.root.broken ≡ false) };
}

impl<D: Disk, R: Rules> Book<D, R> {
    /// Makes a store of this bundle on a disk whose root is empty. The codes of a generation's steps may have so many bytes
    /// together.
    ///
    /// # Errors
    ///
    /// `Store` where the root isn't empty. `Refused` where the bundle doesn't load, or gives no state that a store may begin
    /// with. `Disk`. `OutOfMemory`. The disk comes back; its files may hold anything where it failed.
    pub fn create(
        alloc: Global,
        disk: D,
        rules: R,
        bundle: &Blob,
        limit: u64,
    ) -> Result<Book<D, R>, (BookFault, D)>
        requires { limit ≤ greatest_limit }
        ensures book { IfOk result (λ book. (bots : List Facts) × (R.meaning.facts bundle.now ≡ Some bots) × (book ≡ created rules (first bots bundle.now) limit book.disk)) }
        ensures sound { IfOk result (λ book. IsSound R.meaning book.base) }

        // Whatever a crash leaves now stands for no steps of the new store.
        ensures kept { (files : Image) (whole : Bool) → (D.disk disk).told ≡ Some files → IfOk result (λ book. IsKept D.disk R.meaning (origin_of book.base whole) [] book) }
        ensures empty { (files : Image) → (D.disk disk).told ≡ Some files → OnOk result (files root_file ≡ []) }
        ensures refused_empty { (files : Image) → (D.disk disk).told ≡ Some files → IfErr result (λ e. e.0 ≡ BookFault.Refused → files root_file ≡ []) }

        // A store that is there is left alone: it stands for its history behind the call and at any moment of it.
        ensures still_err { (origin : Origin) (steps more : List Step) → StandsNow R.meaning origin steps more (D.disk disk) → IfErr result (λ e. StandsNow R.meaning origin steps more (D.disk e.1)) }
        ensures any_moment_err { (origin : Origin) (steps more : List Step) → StandsNow R.meaning origin steps more (D.disk disk)
            → IfErr result (λ e. Leaves (D.disk disk) (D.disk e.1) (StandsFor R.meaning origin steps more)) }

        // The root is left as it was until the first generation is durable: where a crash leaves it empty before the call, one
        // at any moment leaves no store, or the new one.
        ensures generation_first { (files : Image) → (D.disk disk).told ≡ Some files
            → IfOk result (λ book. Leaves (D.disk disk) (D.disk book.disk) (HasOldRootOrFirst R.meaning bundle.now (D.disk disk))) }
        ensures generation_first_err { (files : Image) → (D.disk disk).told ≡ Some files
            → IfErr result (λ e. Leaves (D.disk disk) (D.disk e.1) (HasOldRootOrFirst R.meaning bundle.now (D.disk disk))) }

        // No other file is changed, and none where there is a store.
        ensures others { (files : Image) → (D.disk disk).told ≡ Some files → IfOk result (λ book. LeavesAlone (D.disk disk) (D.disk book.disk) (IsBesideNew files)) }
        ensures others_err { (files : Image) → (D.disk disk).told ≡ Some files → IfErr result (λ e. LeavesAlone (D.disk disk) (D.disk e.1) (IsBesideNew files)) }
        ensures fault { IfErr result (λ e. IsCreateFault R.meaning bundle.now (D.disk disk).told e.0) }
        ensures untold { (D.disk disk).told ≡ None → IfOk result (λ book. (D.disk book.disk).told ≡ None) }
        ensures failed { IfErr result (λ e. e.0 ≡ BookFault.Disk → Rose (D.disk disk).faults (D.disk e.1).faults) }
        ensures count { IfOk result (λ book. (D.disk disk).faults ≤ (D.disk book.disk).faults) }
        ensures count_err { IfErr result (λ e. (D.disk disk).faults ≤ (D.disk e.1).faults) }
    {
        let mut disk = disk;
        match make_store(alloc, &mut disk, rules, bundle) {
            Ok(
                Opened {
                    core,
                    root,
                    journal,
                    base,
                },
            ) => Ok(Book {
                alloc,
                disk,
                core,
                root,
                journal,
                format: WRITTEN_FORMAT,
                generation: 0,
                base,
                steps: StepLog::new(),
                durable: 0,
                pending: Blob::from(Vec::new(alloc)),
                used: 0,
                limit,
                broken: false,
            }),
            Err(fault) => Err((fault, disk)),
        }
    }

    /// Opens a store: the root, the generation that it names last, its state and its steps, each of which is replayed. All of
    /// them are durable then. The codes of the generation's steps may have so many bytes together.
    ///
    /// # Errors
    ///
    /// `Store` where the root is empty. `Damaged` where the first damage shows: in the root, in the generation's file, or in
    /// the length of an output. `Disk`. `OutOfMemory`. The disk comes back; whatever a crash leaves of it stands for what it
    /// stood for before.
    ///
    /// What opens isn't damaged, damage is at one place, and no files do neither: these are laws of `store_image`.
    pub fn reopen(
        alloc: Global,
        disk: D,
        rules: R,
        limit: u64,
    ) -> Result<Book<D, R>, (BookFault, D)>
        requires { limit ≤ greatest_limit }
        ensures book { IfOk result (λ book. book ≡ opened R.meaning rules book.format book.generation book.root book.base book.steps limit book.disk) }
        ensures opens { (files : Image) → (D.disk disk).told ≡ Some files → IfOk result (λ book. Opens R.meaning files book.generation book.base book.steps) }

        // Its format is the one that the header of the generation's file says.
        ensures format { (files : Image) → (D.disk disk).told ≡ Some files
            → IfOk result (λ book. (opens : Opens R.meaning files book.generation book.base book.steps) → opens.stored.holds.format ≡ book.format) }
        ensures sound { IfOk result (λ book. IsSound R.meaning book.base) }
        ensures long { (files : Image) → (D.disk disk).told ≡ Some files → IfOk result (λ book. TellsLong (D.disk book.disk).told book.state.outs) }
        ensures root { (files : Image) → (D.disk disk).told ≡ Some files → IfOk result (λ book. IsRootLength files book.generation book.root) }

        // What was read is there still.
        ensures stored { IfOk result (λ book. (after : Image) → (D.disk book.disk).told ≡ Some after → IsStored after book.generation book.base book.steps) }

        // The book goes on from all steps that whatever a crash left stood for.
        ensures kept { (origin : Origin) (steps more : List Step) → StandsNow R.meaning origin steps more (D.disk disk) → IfOk result (λ book. IsReopened D.disk R.meaning origin steps more book) }
        ensures still_err { (origin : Origin) (steps more : List Step) → StandsNow R.meaning origin steps more (D.disk disk) → IfErr result (λ e. StandsNow R.meaning origin steps more (D.disk e.1)) }

        // So does what a crash at any moment of the call leaves.
        ensures any_moment { (origin : Origin) (steps more : List Step) → StandsNow R.meaning origin steps more (D.disk disk)
            → IfOk result (λ book. Leaves (D.disk disk) (D.disk book.disk) (StandsFor R.meaning origin steps more)) }
        ensures any_moment_err { (origin : Origin) (steps more : List Step) → StandsNow R.meaning origin steps more (D.disk disk)
            → IfErr result (λ e. Leaves (D.disk disk) (D.disk e.1) (StandsFor R.meaning origin steps more)) }

        // No file is changed but the root and the generation in force.
        ensures others { (files : Image) → (D.disk disk).told ≡ Some files → IfOk result (λ book. LeavesAlone (D.disk disk) (D.disk book.disk) (IsBeside files)) }
        ensures others_err { (files : Image) → (D.disk disk).told ≡ Some files → IfErr result (λ e. LeavesAlone (D.disk disk) (D.disk e.1) (IsBeside files)) }
        ensures fault { IfErr result (λ e. IsReopenFault R.meaning (D.disk disk).told e.0) }
        ensures untold { (D.disk disk).told ≡ None → IfOk result (λ book. (D.disk book.disk).told ≡ None) }
        ensures failed { IfErr result (λ e. e.0 ≡ BookFault.Disk → Rose (D.disk disk).faults (D.disk e.1).faults) }
        ensures count { IfOk result (λ book. (D.disk disk).faults ≤ (D.disk book.disk).faults) }
        ensures count_err { IfErr result (λ e. (D.disk disk).faults ≤ (D.disk e.1).faults) }
    {
        let mut disk = disk;
        match open_store(alloc, &mut disk, rules) {
            Ok(
                Reopened {
                    root,
                    journal,
                    format,
                    generation,
                    history: History { core, base, steps },
                },
            ) => {
                let durable = steps.len();
                Ok(Book {
                    alloc,
                    disk,
                    core,
                    root,
                    journal,
                    format,
                    generation,
                    base,
                    steps,
                    durable,
                    pending: Blob::from(Vec::new(alloc)),
                    used: 0,
                    limit,
                    broken: false,
                })
            }
            Err(fault) => Err((fault, disk)),
        }
    }

    /// The state, ready to be read.
    pub fn state(&self) -> &Core<R>
        ensures core { result.now ≡ record { rules = self.now.rules; state = self.now.state } }
        ensures replay { self.now.state ≡ replay R.meaning self.now.base self.now.steps }

        // Whatever the disk held, each full hand is one of a live instance's, no feed was read past the last number, and the
        // latest moment is one that a step may have.
        ensures hands { HasSoundHands R.meaning self.now.state }
        ensures feeds { HasNearFeeds self.now.state }
        ensures latest { self.now.state.latest.0 ≤ last_moment }
    {
        // Both calls tell what holds of the state.
        let _ = self.core.plan();
        let _ = self.core.feeds();
        &self.core
    }

    /// The number of the last step that is durable.
    pub fn durable(&self) -> u64
        ensures { result ≡ self.now.base.steps + self.now.kept }
    {
        self.core.steps() - (self.steps.len() - self.durable) as u64
    }

    /// The number of the format of the generation in force.
    pub fn format(&self) -> u32
        ensures { result ≡ self.now.format }
    {
        self.format
    }

    /// The number of the generation in force, from 0.
    pub fn generation(&self) -> u64
        ensures { result ≡ self.now.generation }
    {
        self.generation
    }

    /// How many bytes the codes of the generation's steps have together. Where it passes the greatest number, that number stands
    /// for it.
    pub fn step_bytes(&self) -> u64
        ensures { result ≡ min (length (codes_of self.now.steps)) last_u64 }
    {
        self.steps.code_len()
    }

    /// How many bytes they may have.
    pub fn limit(&self) -> u64
        ensures { result ≡ self.now.limit }
    {
        self.limit
    }

    /// How many steps wait for a flush, and how many bytes their codes have together.
    pub fn unflushed(&self) -> (u64, u64)
        ensures steps { result.0 ≡ length (waiting_steps self.now) }
        ensures bytes { result.1 ≡ length (codes_of (waiting_steps self.now)) }
    {
        ((self.steps.len() - self.durable) as u64, self.used as u64)
    }

    /// The codes of the steps that wait for a flush, one behind the other.
    pub fn waiting(&self) -> &[u8]
        ensures { result.now ≡ codes_of (waiting_steps self.now) }
    {
        &self.pending.bytes()[..self.used]
    }

    pub fn disk(&self) -> &D
        ensures { result.now ≡ self.now.disk }
    {
        &self.disk
    }

    /// Gives the disk back.
    pub fn into_disk(self) -> D
        ensures { result ≡ self.disk }
    {
        let Book {
            alloc: _,
            disk,
            core: _,
            root: _,
            journal: _,
            format: _,
            generation: _,
            base: _,
            steps: _,
            durable: _,
            pending: _,
            used: _,
            limit: _,
            broken: _,
        } = self;
        disk
    }

    /// Commits the step that a move comes to when the clock shows this moment, in seconds since 1970. It is whole at once,
    /// and durable behind the next flush. Answers the number of the step.
    ///
    /// # Errors
    ///
    /// What refuses it, in the order of `StageRefusal`. The book is as it was then.
    pub fn stage(&mut self, now: u64, what: Move) -> Result<u64, StageRefusal>
        requires content { self.old.broken ≡ false → Fits R.meaning self.old.state (staged R.meaning self.old.state now what) → IsMove R.meaning self.old.format self.old.state (stamp self.old.state now).0 what }
        requires few { length (waiting_steps self.old) < most_waiting }
        requires short { length (codes_of (waiting_steps self.old)) < most_waiting_bytes }
        ensures ok { OnOk result (self.new ≡ record self.old { state = after R.meaning self.old.state (staged R.meaning self.old.state now what); steps = self.old.steps ++ staged R.meaning self.old.state now what ∷ [] }) }
        ensures number { IfOk result (λ number. number ≡ self.new.state.steps) }
        ensures may { OnOk result (May R.meaning self.old.state (staged R.meaning self.old.state now what)) }
        ensures causes { OnOk result (cause_of self.old.broken (step_cause R.meaning self.old.state self.old.steps self.old.limit (staged R.meaning self.old.state now what)) ≡ None) }
        ensures refused { IfErr result (IsStageRefusal (cause_of self.old.broken (step_cause R.meaning self.old.state self.old.steps self.old.limit (staged R.meaning self.old.state now what)))) }
        ensures err { OnErr result (self.new ≡ self.old) }

        // Whatever a crash leaves now stands for a front of what was committed before and of this step.
        ensures kept { (origin : Origin) (past : List Step) → IsKept D.disk R.meaning origin past self.old → IsKept D.disk R.meaning origin past self.new }
    {
        if self.broken {
            return Err(StageRefusal::Broken);
        }
        match next_step(
            self.alloc,
            &self.core,
            self.steps.code_len(),
            self.limit,
            now,
            what,
        ) {
            Ok(step) => self.commit(&step),
            Err(refusal) => Err(refusal),
        }
    }

    // Commits a step that nothing refuses.
    fn commit(&mut self, step: &Step) -> Result<u64, StageRefusal>
        requires whole { self.old.broken ≡ false }
        requires causes { step_cause R.meaning self.old.state self.old.steps self.old.limit step.now ≡ None }
        requires may { May R.meaning self.old.state step.now }
        ensures ok { OnOk result (self.new ≡ record self.old { state = after R.meaning self.old.state step.now; steps = self.old.steps ++ step.now ∷ [] }) }
        ensures number { IfOk result (λ number. number ≡ self.new.state.steps) }
        ensures memory { IfErr result (λ refusal. refusal ≡ StageRefusal.OutOfMemory) }
        ensures err { OnErr result (self.new ≡ self.old) }
    {
        let steps = self.steps.with(step)?;
        match enter(
            self.alloc,
            &mut self.pending,
            self.used,
            &mut self.journal,
            &mut self.core,
            step,
        ) {
            Ok(used) => {
                self.used = used;
                self.steps = steps;
                Ok(self.core.steps())
            }
            Err(OutOfMemory) => Err(StageRefusal::OutOfMemory),
        }
    }

    /// Makes all staged steps durable, as one record, and answers the number of the last one. It takes no memory. Where all
    /// are durable it makes no call of the disk.
    ///
    /// # Errors
    ///
    /// `Disk`, and the book is broken from then on. `Broken`.
    pub fn flush(&mut self) -> Result<u64, FlushFault>
        ensures ok { OnOk result (self.new ≡ record self.old { disk = self.new.disk; kept = length self.old.steps }) }
        ensures number { IfOk result (λ number. number ≡ self.old.state.steps) }
        ensures disk { IsErrOf result FlushFault.Disk → self.new ≡ record self.old { disk = self.new.disk; broken = true } }
        ensures broken { (result ≡ Err FlushFault.Broken) ↔ (self.old.broken ≡ true) }
        ensures still { IsErrOf result FlushFault.Broken → self.new ≡ self.old }
        ensures nothing { (self.old.broken ≡ true) ⊎ (waiting_steps self.old ≡ []) → self.new.disk ≡ self.old.disk }
        ensures untold { (D.disk self.old.disk).told ≡ None → (D.disk self.new.disk).told ≡ None }

        // No other file is changed.
        ensures others { (files : Image) → (D.disk self.old.disk).told ≡ Some files → LeavesAlone (D.disk self.old.disk) (D.disk self.new.disk) (λ file. file ≢ generation_file self.old.generation) }

        // Whatever a crash leaves now stands for all steps, if the answer is `Ok`, and else for a front of them that has each
        // one that was durable before.
        ensures kept { (origin : Origin) (past : List Step) → IsKept D.disk R.meaning origin past self.old → IsKept D.disk R.meaning origin past self.new }

        // So does what a crash at any moment of the call leaves.
        ensures any_moment { (origin : Origin) (past : List Step) → IsKept D.disk R.meaning origin past self.old
            → Leaves (D.disk self.old.disk) (D.disk self.new.disk) (StandsFor R.meaning origin (past ++ durable_steps self.old) (waiting_steps self.old)) }
        ensures failed { IsErrOf result FlushFault.Disk → Rose (D.disk self.old.disk).faults (D.disk self.new.disk).faults }
        ensures count { (D.disk self.old.disk).faults ≤ (D.disk self.new.disk).faults }
    {
        if self.broken {
            return Err(FlushFault::Broken);
        }
        if self.durable == self.steps.len() {
            return Ok(self.core.steps());
        }
        match self
            .journal
            .append(&mut self.disk, &self.pending.bytes()[..self.used])
        {
            Ok(()) => {
                self.durable = self.steps.len();
                self.used = 0;
                Ok(self.core.steps())
            }
            Err(_) => {
                self.broken = true;
                Err(FlushFault::Disk)
            }
        }
    }
    /// Completes the files of all outputs: the sealed front of each, then each line behind it, and nothing else. What waits
    /// is made durable first, so that no line of a step that isn't durable is written.
    ///
    /// # Errors
    ///
    /// `Disk`, and the book is broken from then on. `Damaged` where an output's file is shorter than what is sealed of it: the
    /// first such file, with its length; the files of the outputs before it are completed. `OutOfMemory`.
    pub fn bring_up(&mut self) -> Result<(), BookFault>
        requires whole { self.old.broken ≡ false }
        ensures ok { OnOk result (self.new ≡ record self.old { disk = self.new.disk; kept = length self.old.steps }) }
        ensures disk { IsErrOf result BookFault.Disk → self.new ≡ record self.old { disk = self.new.disk; kept = self.new.kept; broken = true } }
        ensures durable { IsErrOf result BookFault.Disk → (self.new.kept ≡ self.old.kept) ⊎ (self.new.kept ≡ length self.old.steps) }
        ensures still { IfErr result (λ fault. (fault ≢ BookFault.Disk) → self.new ≡ record self.old { disk = self.new.disk; kept = length self.old.steps }) }
        ensures fault { IfErr result (IsBringUpFault self.old.state.outs (D.disk self.old.disk).told) }

        // No file is too short where the disk tells what it holds.
        ensures undamaged { (files : Image) → (D.disk self.old.disk).told ≡ Some files → IfErr result IsNoDamage }
        ensures completed { (files after : Image) → (D.disk self.old.disk).told ≡ Some files → (D.disk self.new.disk).told ≡ Some after
            → OnOk result (AreCompleted (D.disk self.new.disk).may_leave self.old.state.outs files after) }

        // Each output's file is all lines of the history that the disk stands for, where that began with nothing sealed.
        ensures written { (origin : Origin) (history : List Step) → StandsNow R.meaning origin history [] (D.disk self.new.disk)
            → OnOk result (AreWritten R.meaning origin.first history (D.disk self.new.disk)) }
        ensures untold { (D.disk self.old.disk).told ≡ None → (D.disk self.new.disk).told ≡ None }

        // Whatever a crash leaves now stands for the same steps as before, and for all if the answer isn't `Disk`.
        ensures kept { (origin : Origin) (past : List Step) → IsKept D.disk R.meaning origin past self.old → IsKept D.disk R.meaning origin past self.new }

        // So does what a crash at any moment of the call leaves.
        ensures any_moment { (origin : Origin) (past : List Step) → IsKept D.disk R.meaning origin past self.old
            → Leaves (D.disk self.old.disk) (D.disk self.new.disk) (StandsFor R.meaning origin (past ++ durable_steps self.old) (waiting_steps self.old)) }

        // No line is written before its step is durable: where a crash leaves in an output's file what it might not have left
        // before, the files stand for all steps.
        ensures lines_last { (origin : Origin) (past : List Step) → IsKept D.disk R.meaning origin past self.old
            → Leaves (D.disk self.old.disk) (D.disk self.new.disk) (λ image. LeavesOuts (D.disk self.old.disk) image ⊎ StandsFor R.meaning origin (past ++ self.old.steps) [] image) }

        // No file is changed but the generation's and those of outputs.
        ensures others { (files : Image) → (D.disk self.old.disk).told ≡ Some files → LeavesAlone (D.disk self.old.disk) (D.disk self.new.disk) (IsApart self.old.generation) }
        ensures failed { IsErrOf result BookFault.Disk → Rose (D.disk self.old.disk).faults (D.disk self.new.disk).faults }
        ensures count { (D.disk self.old.disk).faults ≤ (D.disk self.new.disk).faults }
    {
        match self.flush() {
            Ok(_) => self.complete_outputs(),
            Err(FlushFault::Disk | FlushFault::Broken) => Err(BookFault::Disk),
        }
    }

    // Completes the files of all outputs of a book whose steps are durable.
    fn complete_outputs(&mut self) -> Result<(), BookFault>
        requires whole { self.old.broken ≡ false }
        ensures ok { OnOk result (self.new ≡ record self.old { disk = self.new.disk }) }
        ensures disk { IsErrOf result BookFault.Disk → self.new ≡ record self.old { disk = self.new.disk; broken = true } }
        ensures still { IfErr result (λ fault. (fault ≢ BookFault.Disk) → self.new ≡ record self.old { disk = self.new.disk }) }
        ensures fault { IfErr result (IsBringUpFault self.old.state.outs (D.disk self.old.disk).told) }
        ensures undamaged { (files : Image) → (D.disk self.old.disk).told ≡ Some files → IfErr result IsNoDamage }
        ensures others { LeavesAlone (D.disk self.old.disk) (D.disk self.new.disk) IsNoOut }
        ensures completed { (files after : Image) → (D.disk self.old.disk).told ≡ Some files → (D.disk self.new.disk).told ≡ Some after
            → OnOk result (AreCompleted (D.disk self.new.disk).may_leave self.old.state.outs files after) }
        ensures written { (origin : Origin) (history : List Step) → self.old.kept ≡ length self.old.steps → StandsNow R.meaning origin history [] (D.disk self.new.disk)
            → OnOk result (AreWritten R.meaning origin.first history (D.disk self.new.disk)) }
        ensures untold { (D.disk self.old.disk).told ≡ None → (D.disk self.new.disk).told ≡ None }
        ensures kept { (origin : Origin) (past : List Step) → IsKept D.disk R.meaning origin past self.old → IsKept D.disk R.meaning origin past self.new }
        ensures any_moment { (origin : Origin) (past : List Step) → IsKept D.disk R.meaning origin past self.old
            → Leaves (D.disk self.old.disk) (D.disk self.new.disk) (StandsFor R.meaning origin (past ++ durable_steps self.old) (waiting_steps self.old)) }
        ensures failed { IsErrOf result BookFault.Disk → Rose (D.disk self.old.disk).faults (D.disk self.new.disk).faults }
        ensures count { (D.disk self.old.disk).faults ≤ (D.disk self.new.disk).faults }
    {
        match complete_all(self.alloc, &mut self.disk, &self.core) {
            Ok(()) => Ok(()),
            Err(fault) => {
                self.broken = is_disk(fault);
                Err(fault)
            }
        }
    }

    /// Begins the next generation: completes the files of all outputs, makes the generation's file with a state in which all of their
    /// lines are sealed, and then names the generation in the root. Answers its number. The book has no steps then; its state is the
    /// sealed one.
    ///
    /// # Errors
    ///
    /// `Broken`. `Spent`. `Full`. The disk isn't touched then. `Damaged` where an output's file is shorter than what is sealed of it.
    /// `Disk`, and the book is broken from then on. `OutOfMemory`; also where no store may hold the sealed state, whose numbers are
    /// too large.
    pub fn renew(&mut self) -> Result<u64, RenewFault>
        requires durable { self.old.kept ≡ length self.old.steps }
        ensures ok { OnOk result (self.new ≡ record (renewed self.old) { disk = self.new.disk }) }
        ensures number { IfOk result (λ number. number ≡ self.new.generation) }
        ensures disk { IsErrOf result RenewFault.Disk → self.new ≡ record self.old { disk = self.new.disk; broken = true } }
        ensures still { IfErr result (λ fault. fault ≢ RenewFault.Disk → self.new ≡ record self.old { disk = self.new.disk }) }
        ensures untouched { IfErr result (λ fault. IsRefused fault → self.new ≡ self.old) }
        ensures causes { OnOk result (renew_cause self.old ≡ None) }
        ensures fault { IfErr result (IsRenewFault (renew_cause self.old) self.old.state.outs (D.disk self.old.disk).told) }

        // No file is too short where the disk tells what it holds.
        ensures undamaged { (files : Image) → (D.disk self.old.disk).told ≡ Some files → IfErr result IsUndamaged }

        // Each output's file is all lines of the history that the disk stands for.
        ensures written { (origin : Origin) (past : List Step) → IsKept D.disk R.meaning origin past self.old
            → OnOk result (AreWritten R.meaning origin.first (past ++ self.old.steps) (D.disk self.new.disk)) }
        ensures untold { (D.disk self.old.disk).told ≡ None → (D.disk self.new.disk).told ≡ None }

        // Whatever a crash leaves now stands for the same steps as before: those of the generation are behind the new one.
        ensures kept { (origin : Origin) (past : List Step) → IsKept D.disk R.meaning origin past self.old → OnOk result (IsKept D.disk R.meaning origin (past ++ self.old.steps) self.new) }
        ensures kept_err { (origin : Origin) (past : List Step) → IsKept D.disk R.meaning origin past self.old → OnErr result (IsKept D.disk R.meaning origin past self.new) }

        // So does what a crash at any moment of the call leaves.
        ensures any_moment { (origin : Origin) (past : List Step) → IsKept D.disk R.meaning origin past self.old
            → Leaves (D.disk self.old.disk) (D.disk self.new.disk) (StandsFor R.meaning origin (past ++ self.old.steps) []) }

        // No file is changed but the root, the next generation's, and those of outputs.
        ensures others { (files : Image) → (D.disk self.old.disk).told ≡ Some files → LeavesAlone (D.disk self.old.disk) (D.disk self.new.disk) (IsBesideNext (suc self.old.generation)) }
        ensures failed { IsErrOf result RenewFault.Disk → Rose (D.disk self.old.disk).faults (D.disk self.new.disk).faults }
        ensures count { (D.disk self.old.disk).faults ≤ (D.disk self.new.disk).faults }
    {
        if self.broken {
            return Err(RenewFault::Broken);
        }
        let number = match next_number(self.generation, self.root.len()) {
            Ok(number) => number,
            Err(fault) => return Err(fault),
        };
        let (base, code) = match next_base(self.alloc, &self.core) {
            Ok(next) => next,
            Err(fault) => return Err(fault),
        };
        match self.complete_outputs() {
            Ok(()) => self.begin_next(number, base, &code),
            Err(fault) => Err(renew_fault(fault)),
        }
    }

    // Makes the file of the next generation, which begins with this state of this code, and names it in the root.
    fn begin_next(
        &mut self,
        number: u64,
        base: Snapshot<Base>,
        code: &Blob,
    ) -> Result<u64, RenewFault>
        requires whole { self.old.broken ≡ false }
        requires durable { self.old.kept ≡ length self.old.steps }
        requires number { number ≡ suc self.old.generation }
        requires given { number ≤ last_given }
        requires short { self.old.root + root_entry ≤ longest_journal }
        requires base { base.value ≡ sealed_whole self.old.state }
        requires code { code.now ≡ code_of_base first_format (sealed_whole self.old.state) }
        requires small { HaveSmallOutputs self.old.state.outs }
        requires writable { IsWritableBase first_format (sealed_whole self.old.state) }
        requires sound { IsSound R.meaning (sealed_whole self.old.state) }
        requires long { (files : Image) → (D.disk self.old.disk).told ≡ Some files → AreLong 0 (sealed_whole self.old.state).outs files }
        ensures ok { OnOk result (self.new ≡ record (renewed self.old) { disk = self.new.disk }) }
        ensures answer { IfOk result (λ answer. answer ≡ number) }
        ensures disk { IsErrOf result RenewFault.Disk → self.new ≡ record self.old { disk = self.new.disk; broken = true } }
        ensures still { IfErr result (λ fault. fault ≢ RenewFault.Disk → self.new ≡ self.old) }
        ensures fault { IfErr result IsBeginFault }
        ensures untold { (D.disk self.old.disk).told ≡ None → (D.disk self.new.disk).told ≡ None }

        // Where the files of outputs are complete.
        ensures kept { (origin : Origin) (past : List Step) → IsKept D.disk R.meaning origin past self.old → AreWritten R.meaning origin.first (past ++ self.old.steps) (D.disk self.old.disk)
            → OnOk result (IsKept D.disk R.meaning origin (past ++ self.old.steps) self.new) }
        ensures kept_err { (origin : Origin) (past : List Step) → IsKept D.disk R.meaning origin past self.old → AreWritten R.meaning origin.first (past ++ self.old.steps) (D.disk self.old.disk)
            → OnErr result (IsKept D.disk R.meaning origin past self.new) }
        ensures any_moment { (origin : Origin) (past : List Step) → IsKept D.disk R.meaning origin past self.old → AreWritten R.meaning origin.first (past ++ self.old.steps) (D.disk self.old.disk)
            → Leaves (D.disk self.old.disk) (D.disk self.new.disk) (StandsFor R.meaning origin (past ++ self.old.steps) []) }
        ensures alone { (files : Image) → (D.disk self.old.disk).told ≡ Some files → LeavesAlone (D.disk self.old.disk) (D.disk self.new.disk) (λ file. (file ≢ root_file) × (file ≢ generation_file (suc self.old.generation))) }
        ensures failed { IsErrOf result RenewFault.Disk → Rose (D.disk self.old.disk).faults (D.disk self.new.disk).faults }
        ensures count { (D.disk self.old.disk).faults ≤ (D.disk self.new.disk).faults }
    {
        match begin_generation(
            self.alloc,
            &mut self.disk,
            &mut self.root,
            number,
            code.bytes(),
        ) {
            Ok(journal) => {
                self.core.seal();
                self.journal = journal;
                self.format = WRITTEN_FORMAT;
                self.generation = number;
                self.base = base;
                self.steps = StepLog::new();
                self.durable = 0;
                self.used = 0;
                Ok(number)
            }
            Err(fault) => {
                self.broken = is_disk_fault(fault);
                Err(fault)
            }
        }
    }

    /// What a generation of the store holds, up to the one in force: the state that it begins with, and the steps behind it. Nothing
    /// is written.
    ///
    /// # Errors
    ///
    /// `Damaged` where the first damage of the generation's file shows. `Disk`. `OutOfMemory`. The book goes on in each case.
    pub fn past(&mut self, generation: u64) -> Result<Past, PastFault>
        requires { generation ≤ self.old.generation }
        ensures past { (files : Image) → (D.disk self.old.disk).told ≡ Some files → IfOk result (λ past. IsPast R.meaning generation (files (generation_file generation)) past.base past.steps) }
        ensures fault { IfErr result (IsPastFault R.meaning generation (D.disk self.old.disk).told) }
        ensures book { self.new ≡ record self.old { disk = self.new.disk } }
        ensures reads { OnlyReads (D.disk self.old.disk) (D.disk self.new.disk) }

        // Whatever a crash leaves now stands for the same steps as before.
        ensures kept { (origin : Origin) (past : List Step) → IsKept D.disk R.meaning origin past self.old → IsKept D.disk R.meaning origin past self.new }
        ensures failed { IsErrOf result PastFault.Disk → Rose (D.disk self.old.disk).faults (D.disk self.new.disk).faults }
        ensures count { (D.disk self.old.disk).faults ≤ (D.disk self.new.disk).faults }
    {
        read_past(self.alloc, &mut self.disk, self.core.rules(), generation)
    }
}

fn is_disk(fault: BookFault) -> bool
    ensures { (result ≡ true) ↔ (fault ≡ BookFault.Disk) }
{
    matches!(fault, BookFault::Disk)
}
