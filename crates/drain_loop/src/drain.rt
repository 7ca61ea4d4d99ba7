//! The loop over turns.
ghost use Rattle.std.specs.Prelude.{◌≡◌, ◌≢◌, ◌≤◌, ◌<◌, ◌-◌, ◌↔◌, ℕ, List, [], true, false, length, option_map, Some, None, OnOk, IfErr, OnErr, IsErrOf};
ghost use Rattle.std.specs.List.{AllByRecursion};
ghost use Rattle.edge_traits.specs.Count.{Rose};
ghost use Rattle.edge_traits.specs.Disk.{Image};
ghost use Rattle.edge_traits.specs.Shelf.{count_on, ShelfView};
ghost use Rattle.step_code.specs.Spent.{last_given};
ghost use Rattle.book_runs.specs.GoesOn.{GoesOn};
ghost use Rattle.collector_feeds.specs.Standing.{IsReady};
ghost use Rattle.turn_order.specs.Turn.{collectors};
ghost use Rattle.drain_turns.specs.Drained.{Ends};
ghost use Rattle.bot_works.specs.Works.{AreReady};
ghost use Rattle.drain_loop.specs.Calls.{outside, place_of, IsDrained, IsUndamaged};
ghost use Rattle.drain_loop.specs.Feeds.{AreLookedAt, AreOf, FailedBeyond, IsClosed, IsFailedByOne, IsNoFeed};
ghost use Rattle.drain_loop.specs.Turning.{end_of, IsLateFault, OneStep};

use crate::closing::close;
use crate::feeds::feeds_of;
use crate::next::next_move;
use base_types::OutOfMemory;
use book_runs::{CommitFault, commit};
use bot_works::Ready;
use collector_feeds::{CollectorFeed, give_all_back};
use drain_turns::TurnsEnd;
use edge_traits::{Clock, Disk, Shelf};
use journal_book::{Book, StageRefusal};
use std::alloc::Global;
use step_code::Rules;
use turn_order::is_idle;

/// Commits the steps of turns, one after the other, until one of the causes of `TurnsEnd` comes, the first in their order.
/// What waits is made durable by the limits on the way, and at the end. Each feed that is read is fetched once, unless
/// fetching it fails, and all are given back. At most so many steps are made as are left.
pub fn drain_book<D: Disk, R: Rules, H: Shelf, C: Clock>(
    alloc: Global,
    book: &mut Book<D, R>,
    shelf: &mut H,
    clock: &C,
    left: Option<u64>,
) -> TurnsEnd
    requires whole { book.old.broken ≡ false }

    // The steps that were made, one by one as they were due, and why there are no more.
    ensures drained { IsDrained D.disk (outside R.meaning (H.shelf shelf.old) (C.told clock.now) book.old.limit) left book.old book.new result }

    // All of them are durable, unless the disk failed.
    ensures durable { result ≢ TurnsEnd.Disk → book.new.kept ≡ length book.new.steps }
    ensures broken { (result ≡ TurnsEnd.Disk) ↔ (book.new.broken ≡ true) }
    ensures undamaged { (files : Image) → (D.disk book.old.disk).told ≡ Some files → IsUndamaged result }
    ensures disk { result ≡ TurnsEnd.Disk → Rose (D.disk book.old.disk).faults (D.disk book.new.disk).faults }
    ensures failed { (name : List ℕ) → result ≡ TurnsEnd.Failed name → FailedBeyond (collectors R.meaning book.new.state) (H.shelf shelf.old) (H.shelf shelf.new) name }
    ensures told { (H.shelf shelf.new).told ≡ (H.shelf shelf.old).told }
    ensures counts { (name : List ℕ) → count_on (H.shelf shelf.old) name ≤ count_on (H.shelf shelf.new) name }
    ensures other_counts { (name : List ℕ) → IsNoFeed (collectors R.meaning book.old.state) name → count_on (H.shelf shelf.new) name ≡ count_on (H.shelf shelf.old) name }
    ensures untold { (D.disk book.old.disk).told ≡ None → (D.disk book.new.disk).told ≡ None }
    ensures disk_count { (D.disk book.old.disk).faults ≤ (D.disk book.new.disk).faults }
{
    let (feeds, made) = feeds_of(alloc, book.state());
    let mut feeds = feeds;
    let end = drain_feeds(alloc, book, shelf, clock, &mut feeds, made, left);
    give_all_back(feeds, shelf);
    close(book, end)
}

// The turns, over these feeds; none where memory ran out for all of them.
fn drain_feeds<D: Disk, R: Rules, H: Shelf, C: Clock>(
    alloc: Global,
    book: &mut Book<D, R>,
    shelf: &mut H,
    clock: &C,
    feeds: &mut [CollectorFeed<H::Src>],
    made: Result<(), OutOfMemory>,
    left: Option<u64>,
) -> TurnsEnd
    requires whole { book.old.broken ≡ false }
    requires closed { AllByRecursion IsClosed feeds.old }
    requires of { OnOk made (AreOf (collectors R.meaning book.old.state) feeds.old) }
    ensures drained { IsDrained D.disk (outside R.meaning (H.shelf shelf.old) (C.told clock.now) book.old.limit) left book.old book.new result }
    ensures end { IsFailedByOne feeds.new result }
    ensures looked { AreLookedAt feeds.old feeds.new (H.shelf shelf.old) (H.shelf shelf.new) }
    ensures bundle { book.new.state.bundle ≡ book.old.state.bundle }
    ensures broken { (result ≡ TurnsEnd.Disk) ↔ (book.new.broken ≡ true) }
    ensures undamaged { (files : Image) → (D.disk book.old.disk).told ≡ Some files → IsUndamaged result }
    ensures disk { result ≡ TurnsEnd.Disk → Rose (D.disk book.old.disk).faults (D.disk book.new.disk).faults }
    ensures untold { (D.disk book.old.disk).told ≡ None → (D.disk book.new.disk).told ≡ None }
    ensures disk_count { (D.disk book.old.disk).faults ≤ (D.disk book.new.disk).faults }
{
    match made {
        Ok(()) => turns(alloc, book, shelf, clock, feeds, left),
        Err(OutOfMemory) => TurnsEnd::Memory,
    }
}

// The turns, over these feeds.
fn turns<D: Disk, R: Rules, H: Shelf, C: Clock>(
    alloc: Global,
    book: &mut Book<D, R>,
    shelf: &mut H,
    clock: &C,
    feeds: &mut [CollectorFeed<H::Src>],
    left: Option<u64>,
) -> TurnsEnd
    requires whole { book.old.broken ≡ false }
    requires ready { AllByRecursion (IsReady (H.shelf shelf.old)) feeds.old }
    requires of { AreOf (collectors R.meaning book.old.state) feeds.old }
    ensures drained { (first : ShelfView) → first.told ≡ (H.shelf shelf.old).told
        → IsDrained D.disk (outside R.meaning first (C.told clock.now) book.old.limit) left book.old book.new result }
    ensures end { IsFailedByOne feeds.new result }
    ensures looked { AreLookedAt feeds.old feeds.new (H.shelf shelf.old) (H.shelf shelf.new) }
    ensures bundle { book.new.state.bundle ≡ book.old.state.bundle }
    ensures broken { (result ≡ TurnsEnd.Disk) ↔ (book.new.broken ≡ true) }
    ensures undamaged { (files : Image) → (D.disk book.old.disk).told ≡ Some files → IsUndamaged result }
    ensures disk { result ≡ TurnsEnd.Disk → Rose (D.disk book.old.disk).faults (D.disk book.new.disk).faults }
    ensures untold { (D.disk book.old.disk).told ≡ None → (D.disk book.new.disk).told ≡ None }
    ensures disk_count { (D.disk book.old.disk).faults ≤ (D.disk book.new.disk).faults }
{
    let mut works = Vec::new(alloc);
    let mut left = left;
    'turns: loop {
        match turn(alloc, book, shelf, clock, feeds, &mut works, left) {
            Ok(()) => left = one_less(left),
            Err(end) => return end,
        }
    }
}

// One turn: its step is made; or why the turns end ahead of it.
fn turn<D: Disk, R: Rules, H: Shelf, C: Clock>(
    alloc: Global,
    book: &mut Book<D, R>,
    shelf: &mut H,
    clock: &C,
    feeds: &mut [CollectorFeed<H::Src>],
    works: &mut Vec<Ready<R::Work>>,
    left: Option<u64>,
) -> Result<(), TurnsEnd>
    requires whole { book.old.broken ≡ false }
    requires ready { AllByRecursion (IsReady (H.shelf shelf.old)) feeds.old }
    requires of { AreOf (collectors R.meaning book.old.state) feeds.old }
    requires works { AreReady R.task_of book.old.state.bundle works.old.items }
    ensures made { (first : ShelfView) → first.told ≡ (H.shelf shelf.old).told
        → OnOk result (OneStep D.disk (outside R.meaning first (C.told clock.now) book.old.limit) left book.old book.new) }
    ensures ends { (first : ShelfView) → first.told ≡ (H.shelf shelf.old).told
        → IfErr result (Ends (outside R.meaning first (C.told clock.now) book.old.limit) (place_of book.old left)) }
    ensures still { OnErr result (GoesOn D.disk R.meaning book.old book.new []) }
    ensures end { IfErr result (IsFailedByOne feeds.new) }
    ensures looked { AreLookedAt feeds.old feeds.new (H.shelf shelf.old) (H.shelf shelf.new) }
    ensures works { AreReady R.task_of book.old.state.bundle works.new.items }
    ensures bundle { book.new.state.bundle ≡ book.old.state.bundle }
    ensures fewer { OnOk result (last_given - book.new.state.steps < last_given - book.old.state.steps) }
    ensures whole { OnOk result (book.new.broken ≡ false) }
    ensures broken { IfErr result (λ end. (end ≡ TurnsEnd.Disk) ↔ (book.new.broken ≡ true)) }
    ensures undamaged { (files : Image) → (D.disk book.old.disk).told ≡ Some files → IfErr result IsUndamaged }
    ensures disk { IsErrOf result TurnsEnd.Disk → Rose (D.disk book.old.disk).faults (D.disk book.new.disk).faults }
    ensures untold { (D.disk book.old.disk).told ≡ None → (D.disk book.new.disk).told ≡ None }
    ensures disk_count { (D.disk book.old.disk).faults ≤ (D.disk book.new.disk).faults }
{
    let core = book.state();
    if is_idle(core) {
        return Err(TurnsEnd::Idle);
    }
    if is_none_left(left) {
        return Err(TurnsEnd::Left);
    }
    let what = match next_move(alloc, core, shelf, feeds, works) {
        Ok(what) => what,
        Err(end) => return Err(end),
    };
    match commit(book, clock.now(), what) {
        Ok(_) => Ok(()),
        Err(fault) => Err(end_of(fault)),
    }
}

// No step more may be made.
pub(crate) fn is_none_left(left: Option<u64>) -> bool
    ensures none { result ≡ true → left ≡ Some 0 }
    ensures some { result ≡ false → left ≢ Some 0 }
{
    left == Some(0)
}

pub(crate) fn one_less(left: Option<u64>) -> Option<u64>
    ensures { result ≡ option_map (λ n. n - 1) left }
{
    left.map(|n| n.saturating_sub(1))
}

// How the turns end where a step isn't committed for this.
pub(crate) fn end_of(fault: CommitFault) -> TurnsEnd
    requires { IsLateFault fault }
    ensures { result ≡ end_of fault }
{
    match fault {
        CommitFault::Disk => TurnsEnd::Disk,
        CommitFault::Damaged { file, at } => TurnsEnd::Damaged { file, at },
        CommitFault::Refused(StageRefusal::Spent { next }) => TurnsEnd::Spent { next },
        CommitFault::Refused(StageRefusal::Full { bytes }) => TurnsEnd::Full { bytes },
        CommitFault::Refused(StageRefusal::OutOfMemory) => TurnsEnd::Memory,
        CommitFault::Refused(StageRefusal::Broken | StageRefusal::Step(_)) => unreachable!(),
    }
}
