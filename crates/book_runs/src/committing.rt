ghost use Rattle.std.specs.Prelude.{◌≡◌, ◌≤◌, ◌<◌, ◌≢◌, [], ◌∷◌, ℕ, false, true, length, Some, None, Err, IfOk, IfErr, OnOk, OnErr, IsErrOf};
ghost use Rattle.edge_traits.specs.Count.{Rose};
ghost use Rattle.edge_traits.specs.Disk.{Image};
ghost use Rattle.step_code.specs.Fits.{Fits};
ghost use Rattle.store_image.specs.Stored.{codes_of};
ghost use Rattle.journal_book.specs.Book.{waiting_steps};
ghost use Rattle.journal_book.specs.Renewing.{renewal_cause, renewed};
ghost use Rattle.journal_book.specs.Staged.{most_waiting, most_waiting_bytes, staged, stamp, IsMove};
ghost use Rattle.book_runs.specs.Commit.{as_refusal, cause_within, commit_cause, commit_fault, is_to_renew, readied, way_cause, IsCommitFault, IsFaultWithin, IsRoomFault, IsUndamaged, IsWayFault};
ghost use Rattle.book_runs.specs.GoesOn.{longer, GoesOn, IsSameBook};

use edge_traits::Disk;
use journal_book::{Book, FlushFault, Move, RenewFault, StageRefusal};
use step_code::Rules;

// So many steps, or bytes of their codes, wait for a flush at the most.
const MOST_WAITING: u64 = 64;

const MOST_WAITING_BYTES: u64 = 1_048_576;

/// Why a step was not committed.
#[derive(Clone, Copy, Debug, PartialEq, Eq)]
pub enum CommitFault {
    /// The disk failed in the flush or in the renewal ahead of the step, and the book is broken.
    Disk,
    /// In the renewal ahead of the step the file of an output was found to have this length in bytes, less than what is sealed of it.
    Damaged { file: u64, at: u64 },
    Refused(StageRefusal),
}

/// Commits the step that a move comes to when the clock shows this moment, in seconds since 1970. Where as many steps
/// wait for a flush as may, they are made durable first; where the codes of the generation's steps have more than half of the bytes that
/// they may have, the next generation is begun first. Answers the number of the step.
///
/// # Errors
///
/// `Disk`, and the book is broken from then on. `Damaged`. `Refused` with what refuses the generation that is to be begun, or the step.
/// No step was made then.
pub fn commit<D: Disk, R: Rules>(
    book: &mut Book<D, R>,
    now: u64,
    what: Move,
) -> Result<u64, CommitFault>
    requires content { book.old.broken ≡ false → Fits R.meaning book.old.state (staged R.meaning book.old.state now what) → IsMove R.meaning (readied book.old).format book.old.state (stamp book.old.state now).0 what }
    ensures ok { OnOk result (GoesOn D.disk R.meaning book.old book.new (staged R.meaning book.old.state now what ∷ [])) }
    ensures book { OnOk result (book.new ≡ longer R.meaning (readied book.old) (staged R.meaning book.old.state now what ∷ []) book.new) }
    ensures number { IfOk result (λ number. number ≡ book.new.state.steps) }
    ensures causes { OnOk result (commit_cause R.meaning book.old (staged R.meaning book.old.state now what) ≡ None) }
    ensures err { OnErr result (GoesOn D.disk R.meaning book.old book.new []) }
    ensures refused { IfErr result (IsCommitFault (commit_cause R.meaning book.old (staged R.meaning book.old.state now what)) book.old.state.outs (D.disk book.old.disk).told) }
    ensures undamaged { (files : Image) → (D.disk book.old.disk).told ≡ Some files → IfErr result IsUndamaged }
    ensures broken { IsErrOf result CommitFault.Disk → book.new.broken ≡ true }
    ensures whole { (result ≢ Err CommitFault.Disk) → book.new.broken ≡ book.old.broken }
    ensures untold { (D.disk book.old.disk).told ≡ None → (D.disk book.new.disk).told ≡ None }
    ensures failed { IsErrOf result CommitFault.Disk → Rose (D.disk book.old.disk).faults (D.disk book.new.disk).faults }
    ensures count { (D.disk book.old.disk).faults ≤ (D.disk book.new.disk).faults }
{
    match make_way(book) {
        Ok(()) => match book.stage(now, what) {
            Ok(number) => Ok(number),
            Err(refusal) => Err(CommitFault::Refused(refusal)),
        },
        Err(fault) => Err(fault),
    }
}

/// Commits the step that a move comes to when the clock shows this moment, in seconds since 1970, in the generation in force: no other
/// is begun. Where as many steps wait for a flush as may, they are made durable first. Answers the number of the step.
///
/// # Errors
///
/// `Disk`, and the book is broken from then on. `Refused` with what refuses the step. No step was made then.
pub fn commit_within<D: Disk, R: Rules>(
    book: &mut Book<D, R>,
    now: u64,
    what: Move,
) -> Result<u64, CommitFault>
    requires content { book.old.broken ≡ false → Fits R.meaning book.old.state (staged R.meaning book.old.state now what) → IsMove R.meaning book.old.format book.old.state (stamp book.old.state now).0 what }
    ensures ok { OnOk result (GoesOn D.disk R.meaning book.old book.new (staged R.meaning book.old.state now what ∷ [])) }
    ensures book { OnOk result (book.new ≡ longer R.meaning book.old (staged R.meaning book.old.state now what ∷ []) book.new) }
    ensures number { IfOk result (λ number. number ≡ book.new.state.steps) }
    ensures causes { OnOk result (cause_within R.meaning book.old (staged R.meaning book.old.state now what) ≡ None) }
    ensures err { OnErr result (GoesOn D.disk R.meaning book.old book.new []) }
    ensures same { OnErr result (IsSameBook book.old book.new) }
    ensures refused { IfErr result (IsFaultWithin (cause_within R.meaning book.old (staged R.meaning book.old.state now what))) }
    ensures broken { IsErrOf result CommitFault.Disk → book.new.broken ≡ true }
    ensures whole { (result ≢ Err CommitFault.Disk) → book.new.broken ≡ book.old.broken }
    ensures untold { (D.disk book.old.disk).told ≡ None → (D.disk book.new.disk).told ≡ None }
    ensures failed { IsErrOf result CommitFault.Disk → Rose (D.disk book.old.disk).faults (D.disk book.new.disk).faults }
    ensures count { (D.disk book.old.disk).faults ≤ (D.disk book.new.disk).faults }
{
    match make_room(book) {
        Ok(()) => match book.stage(now, what) {
            Ok(number) => Ok(number),
            Err(refusal) => Err(CommitFault::Refused(refusal)),
        },
        Err(fault) => Err(fault),
    }
}

// Makes way for a step: begins the next generation where more than half of this one is taken, and else makes what waits durable where no
// further step may wait.
fn make_way<D: Disk, R: Rules>(book: &mut Book<D, R>) -> Result<(), CommitFault>
    ensures few { OnOk result (length (waiting_steps book.new) < most_waiting) }
    ensures short { OnOk result (length (codes_of (waiting_steps book.new)) < most_waiting_bytes) }
    ensures ready { OnOk result (IsSameBook (readied book.old) book.new) }
    ensures cause { OnOk result (book.old.broken ≡ false → way_cause book.old ≡ None) }
    ensures whole { OnOk result (book.new.broken ≡ book.old.broken) }
    ensures fault { IfErr result (IsWayFault book.old.broken (way_cause book.old) book.old.state.outs (D.disk book.old.disk).told) }
    ensures undamaged { (files : Image) → (D.disk book.old.disk).told ≡ Some files → IfErr result IsUndamaged }
    ensures broken { IsErrOf result CommitFault.Disk → book.new.broken ≡ true }
    ensures still_whole { (result ≢ Err CommitFault.Disk) → book.new.broken ≡ book.old.broken }
    ensures goes_on { GoesOn D.disk R.meaning book.old book.new [] }
    ensures untold { (D.disk book.old.disk).told ≡ None → (D.disk book.new.disk).told ≡ None }
    ensures failed { IsErrOf result CommitFault.Disk → Rose (D.disk book.old.disk).faults (D.disk book.new.disk).faults }
    ensures count { (D.disk book.old.disk).faults ≤ (D.disk book.new.disk).faults }
{
    if is_half_full(book) {
        begin_next(book)
    } else {
        make_room(book)
    }
}

/// Whether the codes of the generation's steps have more than half of the bytes that they may have.
pub fn is_half_full<D: Disk, R: Rules>(book: &Book<D, R>) -> bool
    ensures { result ≡ is_to_renew book.now }
{
    book.step_bytes() > book.limit() / 2
}

// Makes what waits durable, and begins the next generation.
fn begin_next<D: Disk, R: Rules>(book: &mut Book<D, R>) -> Result<(), CommitFault>
    ensures few { OnOk result (waiting_steps book.new ≡ []) }
    ensures ready { OnOk result (IsSameBook (renewed book.old) book.new) }
    ensures cause { OnOk result (as_refusal (renewal_cause book.old.generation book.old.root book.old.state) ≡ None) }
    ensures whole { OnOk result (book.new.broken ≡ book.old.broken) }
    ensures fault { IfErr result (IsWayFault book.old.broken (as_refusal (renewal_cause book.old.generation book.old.root book.old.state)) book.old.state.outs (D.disk book.old.disk).told) }
    ensures undamaged { (files : Image) → (D.disk book.old.disk).told ≡ Some files → IfErr result IsUndamaged }
    ensures broken { IsErrOf result CommitFault.Disk → book.new.broken ≡ true }
    ensures still_whole { (result ≢ Err CommitFault.Disk) → book.new.broken ≡ book.old.broken }
    ensures goes_on { GoesOn D.disk R.meaning book.old book.new [] }
    ensures untold { (D.disk book.old.disk).told ≡ None → (D.disk book.new.disk).told ≡ None }
    ensures failed { IsErrOf result CommitFault.Disk → Rose (D.disk book.old.disk).faults (D.disk book.new.disk).faults }
    ensures count { (D.disk book.old.disk).faults ≤ (D.disk book.new.disk).faults }
{
    match book.flush() {
        Ok(_) => match book.renew() {
            Ok(_) => Ok(()),
            Err(fault) => Err(commit_fault(fault)),
        },
        Err(FlushFault::Disk) => Err(CommitFault::Disk),
        Err(FlushFault::Broken) => Err(CommitFault::Refused(StageRefusal::Broken)),
    }
}

// What refuses a generation refuses the step that begins it.
fn commit_fault(fault: RenewFault) -> CommitFault
    ensures { result ≡ commit_fault fault }
{
    match fault {
        RenewFault::Broken => CommitFault::Refused(StageRefusal::Broken),
        RenewFault::Spent { next } => CommitFault::Refused(StageRefusal::Spent { next }),
        RenewFault::Full { bytes } => CommitFault::Refused(StageRefusal::Full { bytes }),
        RenewFault::Disk => CommitFault::Disk,
        RenewFault::Damaged { file, at } => CommitFault::Damaged { file, at },
        RenewFault::OutOfMemory => CommitFault::Refused(StageRefusal::OutOfMemory),
    }
}

// Makes what waits durable, where no further step may wait.
fn make_room<D: Disk, R: Rules>(book: &mut Book<D, R>) -> Result<(), CommitFault>
    ensures few { OnOk result (length (waiting_steps book.new) < most_waiting) }
    ensures short { OnOk result (length (codes_of (waiting_steps book.new)) < most_waiting_bytes) }
    ensures same { IsSameBook book.old book.new }
    ensures whole { OnOk result (book.new.broken ≡ book.old.broken) }
    ensures fault { IfErr result (IsRoomFault book.old.broken book.new.broken) }
    ensures goes_on { GoesOn D.disk R.meaning book.old book.new [] }
    ensures untold { (D.disk book.old.disk).told ≡ None → (D.disk book.new.disk).told ≡ None }
    ensures failed { IsErrOf result CommitFault.Disk → Rose (D.disk book.old.disk).faults (D.disk book.new.disk).faults }
    ensures count { (D.disk book.old.disk).faults ≤ (D.disk book.new.disk).faults }
{
    let (steps, bytes) = book.unflushed();
    if steps < MOST_WAITING && bytes < MOST_WAITING_BYTES {
        return Ok(());
    }
    match book.flush() {
        Ok(_) => Ok(()),
        Err(FlushFault::Disk) => Err(CommitFault::Disk),
        Err(FlushFault::Broken) => Err(CommitFault::Refused(StageRefusal::Broken)),
    }
}
