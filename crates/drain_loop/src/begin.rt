//! What a call opens with.
ghost use Rattle.std.specs.Prelude.{◌≡◌, ◌≤◌, ◌↔◌, ◌++◌, ◌∷◌, [], List, ℕ, Bool, true, false, None, Some, IsSome, map, filter, IfOk, OnOk, IfErr, IsErrOf};
ghost use Rattle.std.specs.List.{IsDistinct};
ghost use Rattle.std.specs.Str.{bytes_eq};
ghost use Rattle.edge_traits.specs.Count.{Rose};
ghost use Rattle.edge_traits.specs.Disk.{Image};
ghost use Rattle.edge_traits.specs.Shelf.{ShelfView};
ghost use Rattle.step_code.specs.declared.step.Step.{Step};
ghost use Rattle.step_code.specs.declared.step.StepKind.{StepKind as Kind};
ghost use Rattle.step_code.specs.After.{after};
ghost use Rattle.step_code.specs.Fits.{first_failing, parts};
ghost use Rattle.step_code.specs.Rules.{collects};
ghost use Rattle.step_code.specs.State.{has_finished};
ghost use Rattle.store_image.specs.Stands.{IsSealOf};
ghost use Rattle.turn_order.specs.Turn.{collectors};
ghost use Rattle.drain_loop.specs.Calls.{opening_of, outside, place_with, reload_of, round_of, rounds_of, with_bundle, IsEarlyEnd, IsOpened, IsUndamaged};
ghost use Rattle.drain_loop.specs.Opening.{HaveFinished, IsPlain};

use crate::drain::{end_of, is_none_left, one_less};
use crate::feeds::bots;
use ack_steps::Core;
use base_types::{Blob, BotName, OutOfMemory};
use book_runs::commit;
use drain_turns::TurnsEnd;
use edge_traits::{Clock, Disk};
use journal_book::{Book, Move};
use std::alloc::Global;
use step_code::{Facts, Rules, StepKind, collects};
use turn_order::has_finished;

/// What a call does ahead of its turns, once it has started: it puts a bundle in force where one is named, by its code, and
/// begins new rounds of the collectors that have read their feeds to the end, where that is asked.
#[derive(Debug, Drop)]
pub struct Opening {
    pub bundle: Option<Blob>,
    pub rounds: bool,
}

/// Commits the steps that a call opens with: a start, a reload and rounds. Answers how many more it may make, where that is
/// bounded.
///
/// # Errors
///
/// Why the call ends ahead of its turns: `Left`, `Spent`, `Full`, `Disk` or `Memory`.
pub fn open_turns<D: Disk, R: Rules, C: Clock>(
    alloc: Global,
    book: &mut Book<D, R>,
    clock: &C,
    opening: Opening,
    left: Option<u64>,
) -> Result<Option<u64>, TurnsEnd>
    requires whole { book.old.broken ≡ false }
    requires loads { (bundle : List ℕ) → opening.bundle ≡ Some bundle → IsSome (R.meaning.facts bundle) }

    // The steps that were made, one by one as they were due, and why there are no more of them.
    ensures opened { (first : ShelfView) → IsOpened D.disk (outside R.meaning first (C.told clock.now) book.old.limit)
        (place_with (opening_of R.meaning book.old.state opening.bundle opening.rounds) book.old left) [] book.old book.new result }
    ensures early { IfErr result IsEarlyEnd }
    ensures whole { OnOk result (book.new.broken ≡ false) }
    ensures broken { IsErrOf result TurnsEnd.Disk ↔ (book.new.broken ≡ true) }
    ensures undamaged { (files : Image) → (D.disk book.old.disk).told ≡ Some files → IfErr result IsUndamaged }
    ensures disk { IsErrOf result TurnsEnd.Disk → Rose (D.disk book.old.disk).faults (D.disk book.new.disk).faults }
    ensures untold { (D.disk book.old.disk).told ≡ None → (D.disk book.new.disk).told ≡ None }
    ensures disk_count { (D.disk book.old.disk).faults ≤ (D.disk book.new.disk).faults }
{
    let Opening { bundle, rounds } = opening;
    let left = match open_by(book, clock, StepKind::Start, left) {
        Ok(left) => left,
        Err(end) => return Err(end),
    };
    let left = match reload(book, clock, bundle, left) {
        Ok(left) => left,
        Err(end) => return Err(end),
    };
    if rounds {
        open_rounds(alloc, book, clock, left)
    } else {
        Ok(left)
    }
}

/// Commits the reload by which a bundle is put in force, where one is named by its code. Answers how many more steps may be made,
/// where that is bounded.
///
/// # Errors
///
/// Why the call ends ahead of its turns: `Left`, `Spent`, `Full`, `Disk` or `Memory`.
pub fn reload<D: Disk, R: Rules, C: Clock>(
    book: &mut Book<D, R>,
    clock: &C,
    bundle: Option<Blob>,
    left: Option<u64>,
) -> Result<Option<u64>, TurnsEnd>
    requires whole { book.old.broken ≡ false }
    requires loads { (code : List ℕ) → bundle ≡ Some code → IsSome (R.meaning.facts code) }
    ensures opened { (first : ShelfView) (later : List Kind) → IsOpened D.disk (outside R.meaning first (C.told clock.now) book.old.limit)
        (place_with (reload_of bundle ++ later) book.old left) later book.old book.new result }
    ensures rounds { (asked : Bool) → OnOk result (rounds_of R.meaning book.new.state asked ≡ rounds_of R.meaning (with_bundle R.meaning book.old.state bundle) asked) }
    ensures limit { book.new.limit ≡ book.old.limit }
    ensures early { IfErr result IsEarlyEnd }
    ensures whole { OnOk result (book.new.broken ≡ false) }
    ensures broken { IsErrOf result TurnsEnd.Disk ↔ (book.new.broken ≡ true) }
    ensures undamaged { (files : Image) → (D.disk book.old.disk).told ≡ Some files → IfErr result IsUndamaged }
    ensures disk { IsErrOf result TurnsEnd.Disk → Rose (D.disk book.old.disk).faults (D.disk book.new.disk).faults }
    ensures untold { (D.disk book.old.disk).told ≡ None → (D.disk book.new.disk).told ≡ None }
    ensures disk_count { (D.disk book.old.disk).faults ≤ (D.disk book.new.disk).faults }
{
    match bundle {
        Some(bundle) => open_by(book, clock, StepKind::Reload { bundle }, left),
        None => Ok(left),
    }
}

/// Commits the rounds by which each collector that has read its feed to the end begins anew, in byte order of their names. Answers how
/// many more steps may be made, where that is bounded.
///
/// # Errors
///
/// Why the call ends ahead of its turns: `Left`, `Spent`, `Full`, `Disk` or `Memory`.
pub fn open_rounds<D: Disk, R: Rules, C: Clock>(
    alloc: Global,
    book: &mut Book<D, R>,
    clock: &C,
    left: Option<u64>,
) -> Result<Option<u64>, TurnsEnd>
    requires whole { book.old.broken ≡ false }
    ensures opened { (first : ShelfView) → IsOpened D.disk (outside R.meaning first (C.told clock.now) book.old.limit)
        (place_with (rounds_of R.meaning book.old.state true) book.old left) [] book.old book.new result }
    ensures early { IfErr result IsEarlyEnd }
    ensures whole { OnOk result (book.new.broken ≡ false) }
    ensures broken { IsErrOf result TurnsEnd.Disk ↔ (book.new.broken ≡ true) }
    ensures undamaged { (files : Image) → (D.disk book.old.disk).told ≡ Some files → IfErr result IsUndamaged }
    ensures disk { IsErrOf result TurnsEnd.Disk → Rose (D.disk book.old.disk).faults (D.disk book.new.disk).faults }
    ensures untold { (D.disk book.old.disk).told ≡ None → (D.disk book.new.disk).told ≡ None }
    ensures disk_count { (D.disk book.old.disk).faults ≤ (D.disk book.new.disk).faults }
{
    let finished = match finished_collectors(alloc, book.state()) {
        Ok(finished) => finished,
        Err(OutOfMemory) => return Err(TurnsEnd::Memory),
    };
    open_each(book, clock, finished.as_slice(), left)
}

// The collectors that have read their feeds to the end, in byte order of their names.
fn finished_collectors<R: Rules>(alloc: Global, core: &Core<R>) -> Result<Vec<BotName>, OutOfMemory>
    ensures names { IfOk result (λ names. map round_of names.items ≡ rounds_of R.meaning core.now.state true) }
    ensures finished { IfOk result (λ names. HaveFinished R.meaning core.now.state names.items) }
    ensures distinct { IfOk result (λ names. IsDistinct bytes_eq names.items) }
{
    let mut names = Vec::new(alloc);
    add_finished(core, bots(core), &mut names)?;
    Ok(names)
}

// Adds the names of those of these bots that are collectors and have read their feeds to the end.
fn add_finished<R: Rules>(
    core: &Core<R>,
    bots: &[Facts],
    names: &mut Vec<BotName>,
) -> Result<(), OutOfMemory>
    ensures { OnOk result (names.new.items ≡ names.old.items ++ map (λ f. f.bot) (filter (λ f. has_finished f.bot core.now.state) (filter collects bots.now))) }
{
    match bots {
        [] => Ok(()),
        [facts, others @ ..] => {
            if collects(facts) && has_finished(core, &facts.bot) {
                names.push(facts.bot)?;
            }
            add_finished(core, others, names)
        }
    }
}

// Begins new rounds of these collectors, one after the other.
fn open_each<D: Disk, R: Rules, C: Clock>(
    book: &mut Book<D, R>,
    clock: &C,
    names: &[BotName],
    left: Option<u64>,
) -> Result<Option<u64>, TurnsEnd>
    requires whole { book.old.broken ≡ false }
    requires finished { HaveFinished R.meaning book.old.state names.now }
    requires distinct { IsDistinct bytes_eq names.now }
    ensures opened { (first : ShelfView) (limit : ℕ) → limit ≡ book.old.limit → IsOpened D.disk (outside R.meaning first (C.told clock.now) limit)
        (place_with (map round_of names.now) book.old left) [] book.old book.new result }
    ensures early { IfErr result IsEarlyEnd }
    ensures whole { OnOk result (book.new.broken ≡ false) }
    ensures broken { IsErrOf result TurnsEnd.Disk ↔ (book.new.broken ≡ true) }
    ensures undamaged { (files : Image) → (D.disk book.old.disk).told ≡ Some files → IfErr result IsUndamaged }
    ensures disk { IsErrOf result TurnsEnd.Disk → Rose (D.disk book.old.disk).faults (D.disk book.new.disk).faults }
    ensures untold { (D.disk book.old.disk).told ≡ None → (D.disk book.new.disk).told ≡ None }
    ensures disk_count { (D.disk book.old.disk).faults ≤ (D.disk book.new.disk).faults }
{
    match names.split_first() {
        None => Ok(left),
        Some((bot, others)) => {
            match open_by(book, clock, StepKind::Round { bot: *bot }, left) {
                Ok(left) => open_each(book, clock, others, left),
                Err(end) => Err(end),
            }
        }
    }
}

// Commits a step that a call opens with. Answers how many more it may make.
fn open_by<D: Disk, R: Rules, C: Clock>(
    book: &mut Book<D, R>,
    clock: &C,
    what: Move,
    left: Option<u64>,
) -> Result<Option<u64>, TurnsEnd>
    requires whole { book.old.broken ≡ false }
    requires plain { IsPlain what }
    requires fits { first_failing (parts R.meaning book.old.state what) ≡ None }
    ensures opened { (first : ShelfView) (later : List Kind) → IsOpened D.disk (outside R.meaning first (C.told clock.now) book.old.limit)
        (place_with (what ∷ later) book.old left) later book.old book.new result }
    ensures step { OnOk result ((step : Step) × (step.what ≡ what) × IsSealOf (after R.meaning book.old.state step) book.new.state) }
    ensures limit { book.new.limit ≡ book.old.limit }
    ensures early { IfErr result IsEarlyEnd }
    ensures whole { OnOk result (book.new.broken ≡ false) }
    ensures broken { IsErrOf result TurnsEnd.Disk ↔ (book.new.broken ≡ true) }
    ensures undamaged { (files : Image) → (D.disk book.old.disk).told ≡ Some files → IfErr result IsUndamaged }
    ensures disk { IsErrOf result TurnsEnd.Disk → Rose (D.disk book.old.disk).faults (D.disk book.new.disk).faults }
    ensures untold { (D.disk book.old.disk).told ≡ None → (D.disk book.new.disk).told ≡ None }
    ensures disk_count { (D.disk book.old.disk).faults ≤ (D.disk book.new.disk).faults }
{
    if is_none_left(left) {
        return Err(TurnsEnd::Left);
    }
    let _ = book.state();
    match commit(book, clock.now(), what) {
        Ok(_) => Ok(one_less(left)),
        Err(fault) => Err(end_of(fault)),
    }
}
