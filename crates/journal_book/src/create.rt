//! A new store.
ghost use Rattle.std.specs.Prelude.{◌≡◌, ◌≢◌, ◌⊎◌, ◌≤◌, ◌<◌, ◌+◌, [], ◌∷◌, ℕ, List, false, length, Option, Some, None, IfOk, IfErr, OnOk, IsErrOf};
ghost use Rattle.edge_traits.specs.Count.{Rose};
ghost use Rattle.edge_traits.specs.Disk.{Adds, ChangesOnly, Image, Leaves, LeavesOthers};
ghost use Rattle.disk_journal.specs.GateFile.{frame_length, header_length, HasBodies};
ghost use Rattle.disk_journal.specs.Journal.{IsAtRest};
ghost use Rattle.stored_types.specs.Code.{number};
ghost use Rattle.step_code.specs.declared.rules.Facts.{Facts};
ghost use Rattle.step_code.specs.Code.{code_of_base, first_format, IsWritableBase};
ghost use Rattle.step_code.specs.History.{first};
ghost use Rattle.step_code.specs.Rules.{Meaning};
ghost use Rattle.step_code.specs.Sound.{longest_base, IsSound};
ghost use Rattle.store_image.specs.Files.{generation_file, heading_of, root_file, written_format};
ghost use Rattle.journal_book.specs.Alone.{IsBesideNew, LeavesAlone};
ghost use Rattle.journal_book.specs.Book.{first_root};
ghost use Rattle.journal_book.specs.Faults.{HasNoFirst, IsCreateFault, Tells};
ghost use Rattle.journal_book.specs.Keeping.{AreAtRest, AreStoreFiles, longest_waiting};
ghost use Rattle.journal_book.specs.NewStore.{HasOldRootOrFirst};
ghost use Rattle.journal_book.specs.Opening.{KeepsHistories};

use crate::BookFault;
use crate::files::generation_file;
use ack_steps::{Core, CoreFault};
use base_types::Blob;
use disk_journal::{Heading, Journal, JournalFault};
use edge_traits::Disk;
use generation_reading::first_state;
use std::alloc::Global;
use std::snapshot::Snapshot;
use step_code::{Base, PlanFault, Rules, encode_base};
use store_image::{ROOT, WRITTEN_FORMAT, heading_of, root_heading};

/// What a store is opened with: its state, the files of its root and of its generation, and the state with which the
/// generation begins.
#[derive(Drop)]
pub struct Opened<R: Rules> {
    pub core: Core<R>,
    pub root: Journal,
    pub journal: Journal,
    pub base: Snapshot<Base>,
}

// The state of a new store of this bundle.
fn first_of<R: Rules>(alloc: Global, rules: &R, bundle: &Blob) -> Result<Base, BookFault>
    ensures base { IfOk result (λ base. (bots : List Facts) × (R.meaning.facts bundle.now ≡ Some bots) × (base ≡ first bots bundle.now)) }
    ensures fault { (told : Option Image) → IfErr result (IsCreateFault R.meaning bundle.now told) }
    ensures whole { IsErrOf result BookFault.Disk → ⊥ }
{
    match rules.plan(alloc, bundle) {
        Ok(plan) => Ok(first_state(alloc, rules.facts(&plan).as_slice(), bundle)?),
        Err(PlanFault::Refused) => Err(BookFault::Refused),
        Err(PlanFault::OutOfMemory) => Err(BookFault::OutOfMemory),
    }
}

// The code of a first state, and the core that begins with it.
fn begin<R: Rules>(alloc: Global, rules: R, base: Base) -> Result<(Core<R>, Blob), BookFault>
    ensures core { IfOk result (λ begun. begun.0 ≡ record { rules = rules; state = base }) }
    ensures sound { OnOk result (IsSound R.meaning base) }
    ensures code { IfOk result (λ begun. begun.1 ≡ code_of_base first_format base) }
    ensures writable { OnOk result (IsWritableBase first_format base) }
    ensures refused { IsErrOf result BookFault.Refused → IsSound R.meaning base → ⊥ }
    ensures fault { IfErr result (λ e. (e ≡ BookFault.Refused) ⊎ (e ≡ BookFault.OutOfMemory)) }
{
    let code = encode_base(alloc, &base)?;
    match Core::new(alloc, rules, base) {
        Ok(core) => Ok((core, code)),
        Err(CoreFault::Refused) => Err(BookFault::Refused),
        Err(CoreFault::OutOfMemory) => Err(BookFault::OutOfMemory),
    }
}

// A journal that is made anew finds no damage.
fn create_journal<D: Disk>(
    alloc: Global,
    disk: &mut D,
    file: u64,
    heading: Heading,
    first: &[u8],
) -> Result<Journal, BookFault>
    requires small { length first.now ≤ longest_base }
    ensures journal { IfOk result (λ j. j ≡ record { file = file; heading = heading; length = header_length + 1 + frame_length + length first.now; room = 0; broken = false }) }
    ensures at_rest { (files after : Image) → (D.disk disk.old).told ≡ Some files → (D.disk disk.new).told ≡ Some after
        → IfOk result (λ j. IsAtRest j (D.disk disk.new).may_leave (first.now ∷ []) after) }
    ensures elsewhere { (files : Image) → (D.disk disk.old).told ≡ Some files → ChangesOnly files (D.disk disk.new).told file }
    ensures untold { (D.disk disk.old).told ≡ None → (D.disk disk.new).told ≡ None }
    ensures crash_elsewhere { Adds (D.disk disk.old) (D.disk disk.new) (λ other. other ≢ file) }
    ensures others_any_moment { Leaves (D.disk disk.old) (D.disk disk.new) (LeavesOthers (D.disk disk.old) file) }
    ensures fault { (m : Meaning) (bundle : List ℕ) (told : Option Image) → IfErr result (IsCreateFault m bundle told) }
    ensures failed { IsErrOf result BookFault.Disk → Rose (D.disk disk.old).faults (D.disk disk.new).faults }
    ensures count { (D.disk disk.old).faults ≤ (D.disk disk.new).faults }
{
    match Journal::create(alloc, disk, file, heading, first) {
        Ok(journal) => Ok(journal),
        Err(JournalFault::OutOfMemory) => Err(BookFault::OutOfMemory),
        Err(JournalFault::Disk | JournalFault::Damaged { .. }) => Err(BookFault::Disk),
    }
}

// Makes the first generation's file with the code of its state, and the root's file, which names it.
fn make_files<D: Disk>(
    alloc: Global,
    disk: &mut D,
    code: &[u8],
) -> Result<(Journal, Journal), BookFault>
    requires small { length code.now ≤ longest_base }
    ensures files { IfOk result (λ made. AreStoreFiles made.0 made.1 written_format 0) }
    ensures whole { IfOk result (λ made. (made.0.broken ≡ false) × (made.1.broken ≡ false)) }
    ensures root_length { IfOk result (λ made. made.0.length ≡ first_root) }
    ensures length { IfOk result (λ made. made.1.length ≤ longest_waiting) }
    ensures root { (files after : Image) → (D.disk disk.old).told ≡ Some files → (D.disk disk.new).told ≡ Some after
        → IfOk result (λ made. IsAtRest made.0 (D.disk disk.new).may_leave (number 0 ∷ []) after) }
    ensures journal { (files after : Image) → (D.disk disk.old).told ≡ Some files → (D.disk disk.new).told ≡ Some after
        → IfOk result (λ made. IsAtRest made.1 (D.disk disk.new).may_leave (code.now ∷ []) after) }
    ensures tells { (files : Image) → (D.disk disk.old).told ≡ Some files → Tells (D.disk disk.new).told }
    ensures others { LeavesAlone (D.disk disk.old) (D.disk disk.new) (λ file. (file ≢ root_file) × (file ≢ generation_file 0)) }

    // The root is left as it was until the generation is durable.
    ensures generation_first { (files : Image) → (D.disk disk.old).told ≡ Some files
        → Leaves (D.disk disk.old) (D.disk disk.new) (λ image. (D.disk disk.old).may_leave root_file (image root_file) ⊎ HasBodies (heading_of written_format 0) (code.now ∷ []) (image (generation_file 0))) }
    ensures untold { (D.disk disk.old).told ≡ None → (D.disk disk.new).told ≡ None }
    ensures fault { (m : Meaning) (bundle : List ℕ) (told : Option Image) → IfErr result (IsCreateFault m bundle told) }
    ensures failed { IsErrOf result BookFault.Disk → Rose (D.disk disk.old).faults (D.disk disk.new).faults }
    ensures count { (D.disk disk.old).faults ≤ (D.disk disk.new).faults }
{
    let heading = heading_of(WRITTEN_FORMAT, 0);
    let journal = match create_journal(alloc, disk, generation_file(0), heading, code) {
        Ok(journal) => journal,
        Err(fault) => return Err(fault),
    };
    match create_journal(alloc, disk, ROOT, root_heading(), &0u64.to_be_bytes()) {
        Ok(root) => Ok((root, journal)),
        Err(fault) => Err(fault),
    }
}

/// Makes a store of this bundle on a disk whose root is empty: the generation first, and then the root that names it.
///
/// # Errors
///
/// `Store` where the root isn't empty. `Refused` where the bundle doesn't load, or gives no state that a store may begin
/// with. `Disk`; the files may hold anything then. `OutOfMemory`.
pub fn make_store<D: Disk, R: Rules>(
    alloc: Global,
    disk: &mut D,
    rules: R,
    bundle: &Blob,
) -> Result<Opened<R>, BookFault>
    ensures base { IfOk result (λ made. (bots : List Facts) × (R.meaning.facts bundle.now ≡ Some bots) × (made.base.value ≡ first bots bundle.now)) }
    ensures core { IfOk result (λ made. made.core ≡ record { rules = rules; state = made.base.value }) }
    ensures sound { IfOk result (λ made. IsSound R.meaning made.base.value) }
    ensures writable { IfOk result (λ made. IsWritableBase first_format made.base.value) }
    ensures files { IfOk result (λ made. AreStoreFiles made.root made.journal written_format 0) }
    ensures whole { IfOk result (λ made. (made.root.broken ≡ false) × (made.journal.broken ≡ false)) }
    ensures root_length { IfOk result (λ made. made.root.length ≡ first_root) }
    ensures length { IfOk result (λ made. made.journal.length ≤ longest_waiting) }
    ensures at_rest { (files after : Image) → (D.disk disk.old).told ≡ Some files → (D.disk disk.new).told ≡ Some after
        → IfOk result (λ made. AreAtRest made.root made.journal (D.disk disk.new).may_leave 0 made.base.value [] after) }
    ensures tells { (files : Image) → (D.disk disk.old).told ≡ Some files → OnOk result (Tells (D.disk disk.new).told) }
    ensures empty { (files : Image) → (D.disk disk.old).told ≡ Some files → OnOk result (files root_file ≡ []) }
    ensures refused_empty { (files : Image) → (D.disk disk.old).told ≡ Some files → IsErrOf result BookFault.Refused → files root_file ≡ [] }
    ensures left_alone { (files : Image) → (D.disk disk.old).told ≡ Some files → 0 < length (files root_file) → KeepsHistories (D.disk disk.old) (D.disk disk.new) }
    ensures others { (files : Image) → (D.disk disk.old).told ≡ Some files → LeavesAlone (D.disk disk.old) (D.disk disk.new) (IsBesideNew files) }
    ensures generation_first { (files : Image) → (D.disk disk.old).told ≡ Some files
        → Leaves (D.disk disk.old) (D.disk disk.new) (HasOldRootOrFirst R.meaning bundle.now (D.disk disk.old)) }
    ensures fault { IfErr result (IsCreateFault R.meaning bundle.now (D.disk disk.old).told) }
    ensures untold { (D.disk disk.old).told ≡ None → (D.disk disk.new).told ≡ None }
    ensures failed { IsErrOf result BookFault.Disk → Rose (D.disk disk.old).faults (D.disk disk.new).faults }
    ensures count { (D.disk disk.old).faults ≤ (D.disk disk.new).faults }
{
    let have = disk.len(ROOT)?;
    if have != 0 {
        return Err(BookFault::Store { have });
    }
    // By `match`, since what an error's clauses say gets lost behind a `?`.
    let first = match first_of(alloc, &rules, bundle) {
        Ok(first) => first,
        Err(fault) => return Err(fault),
    };
    let base = Snapshot::of(&first);
    let (core, code) = match begin(alloc, rules, first) {
        Ok(begun) => begun,
        Err(fault) => return Err(fault),
    };
    match make_files(alloc, disk, code.bytes()) {
        Ok((root, journal)) => Ok(Opened {
            core,
            root,
            journal,
            base,
        }),
        Err(fault) => Err(fault),
    }
}
