//! What the turn that is next comes to.
ghost use Rattle.std.specs.Prelude.{◌≡◌, ◌≢◌, ◌≤◌, [], ℕ, Option, false, IfErr, MatchResult};
ghost use Rattle.std.specs.List.{AllByRecursion};
ghost use Rattle.edge_traits.specs.Shelf.{ShelfView};
ghost use Rattle.step_code.specs.Rules.{last_moment};
ghost use Rattle.ack_steps.specs.Core.{HasSoundHands};
ghost use Rattle.collector_feeds.specs.Standing.{IsReady};
ghost use Rattle.turn_order.specs.Turn.{collectors, is_idle};
ghost use Rattle.bot_works.specs.Works.{AreReady};
ghost use Rattle.drain_loop.specs.Calls.{outside};
ghost use Rattle.drain_loop.specs.Feeds.{AreLookedAt, AreOf, IsFailedByOne};
ghost use Rattle.drain_loop.specs.Turning.{EndsTurn, IsHalted, IsNextMove};

use crate::collectors::first_found;
use ack_steps::Core;
use base_types::OutOfMemory;
use bot_works::Ready;
use collector_feeds::CollectorFeed;
use drain_turns::{Turn, TurnsEnd, actor_move, found_move};
use edge_traits::Shelf;
use journal_book::Move;
use std::alloc::Global;
use step_code::Rules;
use turn_order::first_actor;

// The move of the turn that is next, where something is left to do; or why it has none.
pub(crate) fn next_move<R: Rules, H: Shelf>(
    alloc: Global,
    core: &Core<R>,
    shelf: &mut H,
    feeds: &mut [CollectorFeed<H::Src>],
    works: &mut Vec<Ready<R::Work>>,
) -> Result<Move, TurnsEnd>
    requires busy { is_idle R.meaning core.now.state ≡ false }
    requires hands { HasSoundHands R.meaning core.now.state }
    requires latest { core.now.state.latest.0 ≤ last_moment }
    requires ready { AllByRecursion (IsReady (H.shelf shelf.old)) feeds.old }
    requires of { AreOf (collectors R.meaning core.now.state) feeds.old }
    requires works { AreReady R.task_of core.now.state.bundle works.old.items }
    ensures next { (first : ShelfView) (clock : Option ℕ) (limit : ℕ) → first.told ≡ (H.shelf shelf.old).told
        → MatchResult result (IsNextMove (outside R.meaning first clock limit) core.now.state) (EndsTurn (outside R.meaning first clock limit) core.now.state) }
    ensures end { IfErr result (IsFailedByOne feeds.new) }
    ensures looked { AreLookedAt feeds.old feeds.new (H.shelf shelf.old) (H.shelf shelf.new) }
    ensures works { AreReady R.task_of core.now.state.bundle works.new.items }
{
    match first_actor(core) {
        Some(actor) => match actor_move(alloc, core, works, actor) {
            Ok(what) => Ok(what),
            Err(OutOfMemory) => Err(TurnsEnd::Memory),
        },
        None => {
            let turn = match first_found(alloc, core, shelf, feeds) {
                Ok(turn) => turn,
                Err(end) => return Err(end),
            };
            match turn {
                Turn::Finds { bot, at, what } => found_move(alloc, core, bot, at, what),
                Turn::Acts { actor: _ } => unreachable!(),
                Turn::Nobody => Err(halted(core)),
            }
        }
    }
}

// Nobody may step: the first bot that was halted.
fn halted<R: Rules>(core: &Core<R>) -> TurnsEnd
    requires { core.now.state.halted ≢ [] }
    ensures { IsHalted core.now.state.halted result }
{
    match core.halted() {
        [bot, ..] => TurnsEnd::Halted { bot: *bot },
        [] => unreachable!(),
    }
}
