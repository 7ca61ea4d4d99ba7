//! Opening a store: its root, the generation that the root names last, and what that has.
ghost use Rattle.std.specs.Prelude.{◌≡◌, ◌≤◌, ◌+◌, ◌*◌, ◌<◌, ◌^◌, ◌++◌, [], ◌∷◌, ℕ, List, false, length, map, Option, Some, None, IfOk, IfErr, OnOk, IsErrOf};
ghost use Rattle.std.specs.List.{AllByRecursion};
ghost use Rattle.edge_traits.specs.Count.{Rose};
ghost use Rattle.edge_traits.specs.Disk.{Image};
ghost use Rattle.disk_journal.specs.GateFile.{gate_file, HasBodies, IsDamagedAt};
ghost use Rattle.disk_journal.specs.Journal.{IsAtRest, IsFaultOf};
ghost use Rattle.disk_journal.specs.Reads.{OnlyReads};
ghost use Rattle.stored_types.specs.Code.{number};
ghost use Rattle.step_code.specs.History.{replay};
ghost use Rattle.step_code.specs.Spent.{last_given};
ghost use Rattle.store_image.specs.Damage.{behind_bodies, AreNoHistory, IsDamagedFile, NameNone};
ghost use Rattle.store_image.specs.Files.{generation_file, root_file, IsStoreFile, heading_of, root_heading};
ghost use Rattle.store_image.specs.Opens.{AreLong, Opens};
ghost use Rattle.store_image.specs.Stored.{codes_of, NamesLast};
ghost use Rattle.journal_book.specs.Alone.{IsBeside, LeavesAlone};
ghost use Rattle.journal_book.specs.Keeping.{longest_waiting, AreAtRest, AreStoreFiles};
ghost use Rattle.journal_book.specs.Opening.{in_file, IsFileFault, IsReopenFault, IsRootLength, IsShortFault, KeepsHistories, Recovers, TellsLong};
ghost use Rattle.generation_reading.specs.Reading.{AreGenerations, AreHistory, IsHistory};
ghost use Rattle.step_code.specs.Code.{first_format};

use crate::BookFault;
use crate::files::{generation_file, out_file};
use ack_steps::Core;
use base_types::BlobList;
use disk_journal::{Heading, Journal, JournalFault};
use edge_traits::Disk;
use generation_reading::{History, generation_named, history_of};
use std::alloc::Global;
use step_code::Rules;
use store_image::{FIRST_FORMAT, ROOT, heading_of, root_heading};

/// What a store was opened with: the files of its root and of its generation, and what that holds.
#[derive(Drop)]
pub struct Reopened<R: Rules> {
    pub root: Journal,
    pub journal: Journal,
    pub format: u32,
    pub generation: u64,
    pub history: History<R>,
}

// Opens a journal of a store.
fn open_journal<D: Disk>(
    alloc: Global,
    disk: &mut D,
    file: u64,
    heading: Heading,
) -> Result<(Journal, BlobList), JournalFault>
    requires { IsStoreFile file heading }
    ensures journal { IfOk result (λ found. (found.0.file ≡ file) × (found.0.heading ≡ heading) × (found.0.room ≡ 0) × (found.0.broken ≡ false)) }
    ensures length { IfOk result (λ found. found.0.length ≡ length (gate_file heading found.1 0)) }
    ensures short { IfOk result (λ found. behind_bodies found.1 < 2 ^ 64) }
    ensures bodies { (files : Image) → (D.disk disk.old).told ≡ Some files → IfOk result (λ found. HasBodies heading found.1 (files file)) }
    ensures at_rest { (files after : Image) → (D.disk disk.old).told ≡ Some files → (D.disk disk.new).told ≡ Some after
        → IfOk result (λ found. IsAtRest found.0 (D.disk disk.new).may_leave found.1 after) }
    ensures fault { (files : Image) → (D.disk disk.old).told ≡ Some files → IfErr result (IsFaultOf heading (files file)) }
    ensures recovers { Recovers file (D.disk disk.old) (D.disk disk.new) }
    ensures failed { IsErrOf result JournalFault.Disk → Rose (D.disk disk.old).faults (D.disk disk.new).faults }
{
    match Journal::reopen(alloc, disk, file, heading) {
        Ok((journal, bodies)) => {
            // The bodies are no longer than a number says.
            let _ = journal.len();
            Ok((journal, bodies))
        }
        Err(fault) => Err(fault),
    }
}

/// The root, and the generation that it names last.
fn open_root<D: Disk>(alloc: Global, disk: &mut D) -> Result<(Journal, u64), JournalFault>
    ensures journal { IfOk result (λ found. (found.0.file ≡ root_file) × (found.0.heading ≡ root_heading) × (found.0.broken ≡ false)) }
    ensures given { IfOk result (λ found. found.1 ≤ last_given) }
    ensures named { (files : Image) → (D.disk disk.old).told ≡ Some files → IfOk result (λ found. NamesLast (files root_file) found.1) }
    ensures root { (files : Image) → (D.disk disk.old).told ≡ Some files → IfOk result (λ found. IsRootLength files found.1 found.0.length) }
    ensures at_rest { (files after : Image) → (D.disk disk.old).told ≡ Some files → (D.disk disk.new).told ≡ Some after
        → IfOk result (λ found. (before : List ℕ) × AllByRecursion (λ n. n ≤ last_given) (before ++ found.1 ∷ []) × IsAtRest found.0 (D.disk disk.new).may_leave (map number (before ++ found.1 ∷ [])) after) }
    ensures fault { (files : Image) → (D.disk disk.old).told ≡ Some files → IfErr result (IsFileFault (IsDamagedFile root_heading NameNone (files root_file))) }
    ensures recovers { Recovers root_file (D.disk disk.old) (D.disk disk.new) }
    ensures failed { IsErrOf result JournalFault.Disk → Rose (D.disk disk.old).faults (D.disk disk.new).faults }
{
    let (journal, bodies) = match open_journal(alloc, disk, ROOT, root_heading()) {
        Ok(found) => found,
        Err(fault) => return Err(fault),
    };
    match generation_named(bodies.as_slice()) {
        Ok(generation) => Ok((journal, generation)),
        Err(fault) => Err(fault),
    }
}

/// A generation's file, and its history.
fn open_generation<D: Disk, R: Rules>(
    alloc: Global,
    disk: &mut D,
    rules: R,
    generation: u64,
) -> Result<(Journal, History<R>), JournalFault>
    requires { generation ≤ last_given }
    ensures journal { IfOk result (λ found. (found.0.file ≡ generation_file generation) × (found.0.heading ≡ heading_of first_format generation) × (found.0.broken ≡ false)) }
    ensures core { IfOk result (λ found. found.1.core ≡ record { rules = rules; state = replay R.meaning found.1.base.value found.1.steps }) }
    ensures history { IfOk result (λ found. (bodies : List (List ℕ)) × AreHistory R.meaning bodies found.1.base.value found.1.steps
        × (found.0.length ≡ length (gate_file (heading_of first_format generation) bodies 0))
        × ((files : Image) → (D.disk disk.old).told ≡ Some files → HasBodies (heading_of first_format generation) bodies (files (generation_file generation)))
        × ((files after : Image) → (D.disk disk.old).told ≡ Some files → (D.disk disk.new).told ≡ Some after → IsAtRest found.0 (D.disk disk.new).may_leave bodies after)) }
    ensures fault { (files : Image) → (D.disk disk.old).told ≡ Some files
        → IfErr result (IsFileFault (IsDamagedFile (heading_of first_format generation) (AreNoHistory R.meaning) (files (generation_file generation)))) }
    ensures recovers { Recovers (generation_file generation) (D.disk disk.old) (D.disk disk.new) }
    ensures failed { IsErrOf result JournalFault.Disk → Rose (D.disk disk.old).faults (D.disk disk.new).faults }
{
    let (journal, bodies) = match open_journal(
        alloc,
        disk,
        generation_file(generation),
        heading_of(FIRST_FORMAT, generation),
    ) {
        Ok(found) => found,
        Err(fault) => return Err(fault),
    };
    match history_of(alloc, rules, bodies.as_slice()) {
        Ok(history) => Ok((journal, history)),
        Err(fault) => Err(fault),
    }
}

/// Looks whether each output's file has what is sealed.
///
/// # Errors
///
/// `Damaged` where the first that is too short ends. `Disk`.
fn check_outs<D: Disk, R: Rules>(disk: &mut D, core: &Core<R>) -> Result<(), BookFault>
    requires { length core.now.state.outs ≤ last_given + 1 }
    ensures long { (files : Image) → (D.disk disk.old).told ≡ Some files → OnOk result (AreLong 0 core.now.state.outs files) }
    ensures short { IfErr result (IsShortFault core.now.state.outs (D.disk disk.old).told) }
    ensures reads { OnlyReads (D.disk disk.old) (D.disk disk.new) }
    ensures failed { IsErrOf result BookFault.Disk → Rose (D.disk disk.old).faults (D.disk disk.new).faults }
{
    let mut k = 0;
    'outs: while k < core.outs_len() {
        let file = out_file(k);
        let have = disk.len(file)?;
        if have < core.out_at(k).sealed_bytes {
            return Err(BookFault::Damaged { file, at: have });
        }
        k += 1;
    }
    Ok(())
}

fn in_file(file: u64, fault: JournalFault) -> BookFault
    ensures { result ≡ in_file file fault }
{
    match fault {
        JournalFault::Disk => BookFault::Disk,
        JournalFault::Damaged { at } => BookFault::Damaged { file, at },
        JournalFault::OutOfMemory => BookFault::OutOfMemory,
    }
}

/// Opens a store: the root, the generation that it names last, the state and the steps of that, and a look at the lengths
/// of the outputs.
///
/// # Errors
///
/// `Store` where the root is empty, else `Damaged` where the first damage shows. `Disk`. `OutOfMemory`. Whatever a crash
/// leaves stands for the history that it stood for before, in each case.
pub fn open_store<D: Disk, R: Rules>(
    alloc: Global,
    disk: &mut D,
    rules: R,
) -> Result<Reopened<R>, BookFault>
    ensures files { IfOk result (λ found. AreStoreFiles found.root found.journal found.format found.generation) }
    ensures whole { IfOk result (λ found. (found.root.broken ≡ false) × (found.journal.broken ≡ false)) }
    ensures core { IfOk result (λ found. found.history.core ≡ record { rules = rules; state = replay R.meaning found.history.base.value found.history.steps }) }
    ensures history { IfOk result (λ found. IsHistory R.meaning found.history.base.value found.history.steps) }
    ensures length { IfOk result (λ found. found.journal.length ≤ longest_waiting + 2 * length (codes_of found.history.steps)) }
    ensures opens { (files : Image) → (D.disk disk.old).told ≡ Some files → IfOk result (λ found. Opens R.meaning files found.generation found.history.base.value found.history.steps) }
    ensures root { (files : Image) → (D.disk disk.old).told ≡ Some files → IfOk result (λ found. IsRootLength files found.generation found.root.length) }
    ensures long { (files : Image) → (D.disk disk.old).told ≡ Some files → IfOk result (λ found. TellsLong (D.disk disk.new).told found.history.core.state.outs) }
    ensures at_rest { (files after : Image) → (D.disk disk.old).told ≡ Some files → (D.disk disk.new).told ≡ Some after
        → IfOk result (λ found. AreAtRest found.root found.journal (D.disk disk.new).may_leave found.generation found.history.base.value found.history.steps after) }
    ensures fault { IfErr result (IsReopenFault R.meaning (D.disk disk.old).told) }
    ensures histories { KeepsHistories (D.disk disk.old) (D.disk disk.new) }
    ensures others { (files : Image) → (D.disk disk.old).told ≡ Some files → LeavesAlone (D.disk disk.old) (D.disk disk.new) (IsBeside files) }
    ensures untold { (D.disk disk.old).told ≡ None → (D.disk disk.new).told ≡ None }
    ensures failed { IsErrOf result BookFault.Disk → Rose (D.disk disk.old).faults (D.disk disk.new).faults }
    ensures count { (D.disk disk.old).faults ≤ (D.disk disk.new).faults }
{
    let have = disk.len(ROOT)?;
    if have == 0 {
        return Err(BookFault::Store { have });
    }
    // By `match`, since what an error's clauses say gets lost behind a `?`.
    let (root, generation) = match open_root(alloc, disk) {
        Ok(found) => found,
        Err(fault) => return Err(in_file(ROOT, fault)),
    };
    let (journal, history) = match open_generation(alloc, disk, rules, generation) {
        Ok(found) => found,
        Err(fault) => return Err(in_file(generation_file(generation), fault)),
    };
    match check_outs(disk, &history.core) {
        Ok(()) => Ok(Reopened {
            root,
            journal,
            format: FIRST_FORMAT,
            generation,
            history,
        }),
        Err(fault) => Err(fault),
    }
}
