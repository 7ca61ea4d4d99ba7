//! The hold of a collector: it collects what it found in its feed, and is told where to look next.
ghost use Rattle.std.specs.Prelude.{◌≡◌, ◌≢◌, ◌⊎◌, ◌<◌, ◌≤◌, List, ℕ, true, false, length, Option, Some, None, IfOk, IfErr, IfSome, OnOk, OnErr, MatchOption, MatchResult};
ghost use Rattle.step_code.specs.Fits.{first_failing, parts};
ghost use Rattle.journal_book.specs.Staged.{IsMove};
ghost use Rattle.collector_feeds.specs.Found.{IsAhead};
ghost use Rattle.collector_feeds.specs.Open.{IsThere};
ghost use Rattle.turn_order.specs.Turn.{is_idle};
ghost use Rattle.drain_turns.specs.Turn.{IsFindOf};
ghost use Rattle.worker_turns.specs.Collecting.{HasEnded, IsCollectorStep, IsInSight, IsLooked, IsNextLook, IsSight, IsTrueOf, IsUnmoved, StaysOrAdds};
ghost use Rattle.worker_turns.specs.Holds.{Adds};

use crate::commits::commit_own;
use crate::{FeedFault, HoldEnd, Looked, Place, Sight};
use ack_steps::Core;
use base_types::{BotName, OutOfMemory, Text};
use collector_feeds::Found;
use drain_turns::{is_backed_up, position_of};
use edge_traits::{Clock, Disk};
use journal_book::Move;
use locked_book::Locked;
use report_cut::Cut;
use std::alloc::Global;
use step_code::{FeedFacts, Rules, StepKind, bot_named, is_collector};
use turn_order::{has_finished, is_idle};

/// A collector, as it is between its holds: the name under which its feed was fetched, and the numbers of the steps that it made.
#[derive(Drop)]
pub struct Collector {
    pub bot: BotName,
    pub file: Text,
    pub steps: Vec<u64>,
}

/// The hold of a collector. Where what it found stands at its position still, under the bundle in force, it is collected, or the feed is
/// ended; a piece waits while so much waits that nothing is collected. Then answers where the collector looks next.
pub fn collector_turn<D: Disk, R: Rules, C: Clock>(
    alloc: Global,
    locked: &mut Locked<D, R>,
    worker: &mut Collector,
    sight: Option<Sight>,
    clock: &C,
    left: Option<u64>,
) -> Looked
    requires sight { IfSome sight (IsSight R.meaning locked.old worker.old.bot worker.old.file) }

    // Nothing is done once the round has a mark.
    ensures still { locked.old.mark ≢ None → (locked.new ≡ locked.old) × (worker.new ≡ worker.old) }
    ensures adds { locked.old.mark ≡ None → (content : Option (List ℕ)) → IfSome sight (IsTrueOf content)
        → Adds R.meaning (IsCollectorStep R.meaning (C.told clock.now) content worker.old.bot worker.old.file) locked.old locked.new worker.old.steps.items worker.new.steps.items }
    ensures worker { worker.new ≡ record worker.old { steps = worker.new.steps } }
    ensures few { IfSome left (λ most. (locked.new.made ≡ locked.old.made) ⊎ (length locked.new.made ≤ most)) }
    ensures looked { IsLooked R.meaning left locked.old locked.new worker.old.bot worker.old.file sight result }

    // What was found where the collector looks now isn't dropped.
    ensures moves { locked.old.mark ≡ None → IfSome sight (λ seen. IsInSight R.meaning locked.old.book.state worker.old.bot seen.place → StaysOrAdds locked.old locked.new result) }
{
    if let Some(mark) = locked.mark() {
        return Looked::Ended(HoldEnd::Found(mark));
    }
    match use_sight(locked, worker, sight, clock, left) {
        Some(looked) => looked,
        None => next_look(alloc, locked.core(), worker),
    }
}

// Does what was found, if something was. Answers what the hold came to, if it ends with that.
fn use_sight<D: Disk, R: Rules, C: Clock>(
    locked: &mut Locked<D, R>,
    worker: &mut Collector,
    sight: Option<Sight>,
    clock: &C,
    left: Option<u64>,
) -> Option<Looked>
    requires unmarked { locked.old.mark ≡ None }
    requires sight { IfSome sight (IsSight R.meaning locked.old worker.old.bot worker.old.file) }
    ensures adds { (content : Option (List ℕ)) → IfSome sight (IsTrueOf content)
        → Adds R.meaning (IsCollectorStep R.meaning (C.told clock.now) content worker.old.bot worker.old.file) locked.old locked.new worker.old.steps.items worker.new.steps.items }
    ensures worker { worker.new ≡ record worker.old { steps = worker.new.steps } }
    ensures few { IfSome left (λ most. (locked.new.made ≡ locked.old.made) ⊎ (length locked.new.made ≤ most)) }
    ensures ends { MatchOption result (locked.new.mark ≡ None) (IsLooked R.meaning left locked.old locked.new worker.old.bot worker.old.file sight) }
    ensures moves { IfSome sight (λ seen. IsInSight R.meaning locked.old.book.state worker.old.bot seen.place → MatchOption result (length locked.old.made < length locked.new.made) (StaysOrAdds locked.old locked.new)) }
{
    match sight {
        Some(sight) => collect(locked, worker, sight, clock, left),
        None => None,
    }
}

// Collects what was found, or ends the feed, where that stands at the collector's position still. Answers what the hold came to, if it ends
// with that.
fn collect<D: Disk, R: Rules, C: Clock>(
    locked: &mut Locked<D, R>,
    worker: &mut Collector,
    sight: Sight,
    clock: &C,
    left: Option<u64>,
) -> Option<Looked>
    requires unmarked { locked.old.mark ≡ None }
    requires sight { IsSight R.meaning locked.old worker.old.bot worker.old.file sight }
    ensures adds { (content : Option (List ℕ)) → IsTrueOf content sight
        → Adds R.meaning (IsCollectorStep R.meaning (C.told clock.now) content worker.old.bot worker.old.file) locked.old locked.new worker.old.steps.items worker.new.steps.items }
    ensures worker { worker.new ≡ record worker.old { steps = worker.new.steps } }
    ensures few { IfSome left (λ most. (locked.new.made ≡ locked.old.made) ⊎ (length locked.new.made ≤ most)) }
    ensures ends { MatchOption result (locked.new.mark ≡ None) (HasEnded R.meaning left locked.old locked.new worker.old.bot sight) }
    ensures moves { IsInSight R.meaning locked.old.book.state worker.old.bot sight.place → MatchOption result (length locked.old.made < length locked.new.made) (StaysOrAdds locked.old locked.new) }
{
    if !is_in_sight(locked.core(), &worker.bot, &sight.place) {
        return None;
    }
    let what = match sight_move(locked.core(), worker.bot, sight) {
        Ok(what) => what,
        Err(looked) => return Some(looked),
    };
    match commit_own(locked, &mut worker.steps, clock, left, what) {
        Ok(()) => None,
        Err(end) => Some(Looked::Ended(end)),
    }
}

// Whether the place is where the collector looks now.
fn is_in_sight<R: Rules>(core: &Core<R>, bot: &BotName, place: &Place) -> bool
    ensures there { result ≡ true → IsInSight R.meaning core.now.state bot.now place.now }
    ensures other { result ≡ false → IsInSight R.meaning core.now.state bot.now place.now → ⊥ }
{
    is_collector(core.rules().facts(core.plan()).as_slice(), bot)
        && core.bundle_no() == place.bundle
        && !has_finished(core, bot)
        && position_of(core, bot) == place.at
}

// What a collector does that found this at its position, or what the hold comes to where it does nothing.
fn sight_move<R: Rules>(core: &Core<R>, bot: BotName, sight: Sight) -> Result<Move, Looked>
    requires in_sight { IsInSight R.meaning core.now.state bot sight.place }
    requires ahead { IsAhead sight.place.at sight.found }
    requires there { IsThere sight.found }
    ensures is { IfOk result (IsFindOf bot sight.place.at sight.found) }
    ensures fits { IfOk result (λ what. first_failing (parts R.meaning core.now.state what) ≡ None) }
    ensures carries { IfOk result (λ what. (format now : ℕ) → IsMove R.meaning format core.now.state now what) }
    ensures unmoved { IfErr result (IsUnmoved R.meaning core.now.state sight) }
{
    let Sight { place, found } = sight;
    let at = place.at;
    match found {
        Found::Piece { cut } => {
            if is_backed_up(core) {
                let found = Found::Piece { cut };
                return Err(Looked::Waits {
                    at: core.steps(),
                    sight: Sight { place, found },
                });
            }
            let Cut { piece, upto } = cut;
            Ok(StepKind::Collect {
                bot,
                from: at,
                upto,
                piece,
            })
        }
        Found::End => Ok(StepKind::FeedEnd { bot, position: at }),
        Found::Short { have } => Err(Looked::Unreadable(FeedFault::Short { have, need: at })),
        Found::LongLine { at } => Err(Looked::Unreadable(FeedFault::LongLine { at })),
        Found::LongFeed => Err(Looked::Unreadable(FeedFault::LongFeed)),
        Found::Absent => unreachable!(),
    }
}

// Where the collector looks next, if it does.
fn next_look<R: Rules>(alloc: Global, core: &Core<R>, worker: &Collector) -> Looked
    ensures { IsNextLook R.meaning core.now.state worker.now.bot worker.now.file result }
{
    let bots = core.rules().facts(core.plan()).as_slice();
    let Some(facts) = bot_named(bots, &worker.bot) else {
        return nothing(core);
    };
    let Some(feed) = &facts.feed else {
        return nothing(core);
    };
    if feed.file != worker.file || has_finished(core, &worker.bot) {
        return nothing(core);
    }
    match copy(alloc, feed) {
        Ok(feed) => Looked::Looks(Place {
            bundle: core.bundle_no(),
            at: position_of(core, &worker.bot),
            facts: feed,
            retries: facts.retries,
        }),
        Err(OutOfMemory) => Looked::Ended(HoldEnd::OutOfMemory),
    }
}

// There is nothing to look for.
fn nothing<R: Rules>(core: &Core<R>) -> Looked
    ensures { result ≡ Looked.Nothing core.now.state.steps (is_idle R.meaning core.now.state) }
{
    Looked::Nothing {
        at: core.steps(),
        idle: is_idle(core),
    }
}

fn copy(alloc: Global, facts: &FeedFacts) -> Result<FeedFacts, OutOfMemory>
    ensures { IfOk result (λ copy. copy ≡ facts.now) }
{
    Ok(FeedFacts {
        file: facts.file.copy(alloc)?,
        chunk_size: facts.chunk_size,
        replicate: facts.replicate,
    })
}
