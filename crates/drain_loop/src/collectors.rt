//! The collectors' turn.
ghost use Rattle.std.specs.Prelude.{◌≡◌, ◌<◌, ◌&&◌, [], ◌∷◌, List, ℕ, Option, not, filter, IfOk, IfErr};
ghost use Rattle.std.specs.List.{AllByRecursion};
ghost use Rattle.edge_traits.specs.Shelf.{ShelfView};
ghost use Rattle.step_code.specs.declared.rules.Facts.{Facts};
ghost use Rattle.step_code.specs.State.{has_finished};
ghost use Rattle.collector_feeds.specs.Found.{MayFind};
ghost use Rattle.collector_feeds.specs.Standing.{IsReady};
ghost use Rattle.turn_order.specs.Turn.{collectors};
ghost use Rattle.drain_turns.specs.Turn.{is_backed_up, is_piece, IsCollectorsTurn};
ghost use Rattle.drain_loop.specs.Calls.{outside};
ghost use Rattle.drain_loop.specs.Feeds.{key_of_bot, key_of_feed, AreLookedAt, AreOf, IsCounted, IsFailedAmong, IsFailedBy, ShelfGoesOn};
ghost use Rattle.drain_loop.specs.Looking.{GivesTurn, IsHeldOr};

use ack_steps::Core;
use base_types::OutOfMemory;
use collector_feeds::{CollectorFeed, Found, LookFault, look};
use drain_turns::{Turn, TurnsEnd, is_backed_up, position_of};
use edge_traits::{Shelf, Source};
use std::alloc::Global;
use step_code::Rules;
use turn_order::has_finished;

// The turn that these feeds give: the first collector's that finds something, unless only the backlog holds its piece back.
pub(crate) fn first_found<R: Rules, H: Shelf>(
    alloc: Global,
    core: &Core<R>,
    shelf: &mut H,
    feeds: &mut [CollectorFeed<H::Src>],
) -> Result<Turn, TurnsEnd>
    requires ready { AllByRecursion (IsReady (H.shelf shelf.old)) feeds.old }
    ensures turn { (first : ShelfView) (clock : Option ℕ) (limit : ℕ) (fs : List Facts) → first.told ≡ (H.shelf shelf.old).told → AreOf fs feeds.old
        → IfOk result (IsCollectorsTurn (outside R.meaning first clock limit) core.now.state (filter (λ f. not (has_finished f.bot core.now.state)) fs)) }
    ensures end { IfErr result (IsFailedAmong feeds.new) }
    ensures looked { AreLookedAt feeds.old feeds.new (H.shelf shelf.old) (H.shelf shelf.new) }
{
    match feeds.split_first_mut() {
        None => Ok(Turn::Nobody),
        Some((feed, others)) => match look_at(alloc, core, shelf, feed) {
            Ok(Some(turn)) => Ok(turn),
            Ok(None) => first_found(alloc, core, shelf, others),
            Err(end) => Err(end),
        },
    }
}

// The turn that a collector's feed gives: none where it is read to the end, or where only the backlog holds its piece back.
fn look_at<R: Rules, H: Shelf>(
    alloc: Global,
    core: &Core<R>,
    shelf: &mut H,
    feed: &mut CollectorFeed<H::Src>,
) -> Result<Option<Turn>, TurnsEnd>
    requires ready { IsReady (H.shelf shelf.old) feed.old }
    ensures turn { (first : ShelfView) (clock : Option ℕ) (limit : ℕ) (f : Facts) → first.told ≡ (H.shelf shelf.old).told → key_of_feed feed.old ≡ key_of_bot f
        → IfOk result (GivesTurn (outside R.meaning first clock limit) core.now.state f) }
    ensures end { IfErr result (IsFailedBy feed.new) }
    ensures same { key_of_feed feed.new ≡ key_of_feed feed.old }
    ensures ready { IsReady (H.shelf shelf.new) feed.new }
    ensures counted { (first : ShelfView) → IsCounted first (H.shelf shelf.old) feed.old → IsCounted first (H.shelf shelf.new) feed.new }
    ensures shelf { ShelfGoesOn (feed.old ∷ []) (H.shelf shelf.old) (H.shelf shelf.new) }
{
    let bot = *feed.bot();
    if has_finished(core, &bot) {
        return Ok(None);
    }
    let at = position_of(core, &bot);
    match look(alloc, feed, shelf, at) {
        Ok(what) => Ok(unless_held(core, feed, at, what)),
        Err(LookFault::Failed) => Err(failed(alloc, feed)),
        Err(LookFault::OutOfMemory) => Err(TurnsEnd::Memory),
    }
}

// What a collector finds is its turn, unless the backlog holds a piece back: that is put back.
fn unless_held<R: Rules, S: Source>(
    core: &Core<R>,
    feed: &mut CollectorFeed<S>,
    at: u64,
    what: Found,
) -> Option<Turn>
    ensures { IsHeldOr (is_piece what && is_backed_up R.meaning core.now.state) feed.old feed.new at what result }
{
    let bot = *feed.bot();
    match what {
        Found::Piece { cut } if is_backed_up(core) => {
            feed.put_back(at, cut);
            None
        }
        what => Some(Turn::Finds { bot, at, what }),
    }
}

// The turns end, since a feed failed too often.
fn failed<S: Source>(alloc: Global, feed: &CollectorFeed<S>) -> TurnsEnd
    requires { feed.now.retries < feed.now.failed }
    ensures { IsFailedBy feed.now result }
{
    match feed.file().copy(alloc) {
        Ok(name) => TurnsEnd::Failed { name },
        Err(OutOfMemory) => TurnsEnd::Memory,
    }
}
