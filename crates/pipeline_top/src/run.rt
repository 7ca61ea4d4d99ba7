//! `run`: the pipeline runs on threads, and control is followed.
ghost use Rattle.std.specs.Prelude.{◌≡◌, ◌≢◌, ◌≤◌, ◌⊎◌, ℕ, List, codes, Some, IsSome};
ghost use Rattle.edge_traits.specs.Count.{Rose};
ghost use Rattle.edge_traits.specs.Shelf.{ShelfView, count_on};
ghost use Rattle.bot_rules.specs.Intel.{intel};
ghost use Rattle.command_words.specs.Asked.{run_asked};
ghost use Rattle.status_texts.specs.declared.status.FeedWhy.TheVariants.{Failed as FailedWhy};
ghost use Rattle.pipeline_top.specs.Commands.{IsRun, IsRunBy};
ghost use Rattle.pipeline_top.specs.Outside.{seen_as, DiskCounts, ShelfStays, SinkCounts};

use crate::Status;
use crate::drain::undrained;
use crate::statuses::run_status;
use base_types::Blob;
use bot_rules::IntelRules;
use bundle_bringing::bring_code;
use command_words::Run;
use drain_command::Asked;
use drain_loop::Opening;
use edge_traits::{Clock, Disk, Gate, Shelf, Sink, Source};
use run_command::Ran;
use std::alloc::Global;
use std::sync::Wait;
use std::thread::Threads;

/// Runs the bots of a store, each on a thread of its own. The disk comes back.
pub fn run<T, K, H, D, S, C, G>(
    rt: &T,
    alloc: Global,
    ask: Run<'_>,
    control: &mut K,
    shelf: &mut H,
    disk: D,
    out: &mut S,
    clock: &C,
    gate: &G,
) -> (Status, D)
where
    T: Threads + Wait + Sync,
    K: Source,
    H: Shelf,
    H::Src: Send,
    D: Disk + Send,
    S: Sink,
    C: Clock + Sync,
    G: Gate + Sync,
    ensures ran { IsRun D.disk (K.source control.old).told (run_asked ask.entry) (seen_as (H.shelf shelf.old) (H.shelf shelf.new) (S.sink out.old) (S.sink out.new) (C.told clock.now)) (D.disk disk) (D.disk result.1) result.0 }
    ensures words { result.0 ≢ Status.Words }
    ensures disk { DiskCounts result.0 (D.disk disk) (D.disk result.1) }
    ensures sink { SinkCounts result.0 (S.sink out.old) (S.sink out.new) }
    ensures failed { (other : List ℕ) → result.0 ≡ Status.Feed other FailedWhy → Rose (count_on (H.shelf shelf.old) other) (count_on (H.shelf shelf.new) other)
        ⊎ ((other ≡ codes "control") × Rose (K.source control.old).faults (K.source control.new).faults) }
    ensures shelf { ShelfStays (H.shelf shelf.old) (H.shelf shelf.new) }
    ensures control_count { (K.source control.old).faults ≤ (K.source control.new).faults }
{
    match bring_code(alloc, shelf, ask.ask.reload) {
        Ok(bundle) => run_with(
            rt, alloc, ask, bundle, control, shelf, disk, out, clock, gate,
        ),
        Err(why) => undrained(alloc, disk, why, out),
    }
}

// Runs them, with the bundle of this code put in force, if there is one.
fn run_with<T, K, H, D, S, C, G>(
    rt: &T,
    alloc: Global,
    ask: Run<'_>,
    bundle: Option<Blob>,
    control: &mut K,
    shelf: &mut H,
    disk: D,
    out: &mut S,
    clock: &C,
    gate: &G,
) -> (Status, D)
where
    T: Threads + Wait + Sync,
    K: Source,
    H: Shelf,
    H::Src: Send,
    D: Disk + Send,
    S: Sink,
    C: Clock + Sync,
    G: Gate + Sync,
    requires loads { (code : List ℕ) → bundle ≡ Some code → IsSome (intel.facts code) }
    ensures ran { (before : ShelfView) → (H.shelf shelf.old).told ≡ before.told → ((other : List ℕ) → count_on before other ≤ count_on (H.shelf shelf.old) other)
        → IsRunBy D.disk (K.source control.old).told (run_asked ask.entry) (seen_as before (H.shelf shelf.new) (S.sink out.old) (S.sink out.new) (C.told clock.now)) result.0 (D.disk disk) (D.disk result.1) bundle }
    ensures words { result.0 ≢ Status.Words }
    ensures disk { DiskCounts result.0 (D.disk disk) (D.disk result.1) }
    ensures sink { SinkCounts result.0 (S.sink out.old) (S.sink out.new) }
    ensures failed { (other : List ℕ) → result.0 ≡ Status.Feed other FailedWhy → Rose (count_on (H.shelf shelf.old) other) (count_on (H.shelf shelf.new) other)
        ⊎ ((other ≡ codes "control") × Rose (K.source control.old).faults (K.source control.new).faults) }
    ensures shelf { ShelfStays (H.shelf shelf.old) (H.shelf shelf.new) }
    ensures control_count { (K.source control.old).faults ≤ (K.source control.new).faults }
{
    let Run { ask, stay } = ask;
    let asked = Asked {
        opening: Opening {
            bundle,
            rounds: ask.round,
        },
        left: ask.steps,
    };
    let rules = IntelRules::new();
    let workers_rules = IntelRules::new();
    let Ran {
        end,
        orders,
        steps,
        disk,
    } = run_command::run(
        rt,
        alloc,
        disk,
        rules,
        &workers_rules,
        control,
        shelf,
        clock,
        gate,
        stay,
        asked,
        out,
    );
    (run_status(alloc, steps, orders, end), disk)
}
