//! `drain`: the pipeline runs.
ghost use Rattle.std.specs.Prelude.{◌≡◌, ◌≢◌, ◌≤◌, ℕ, List, Some, IsSome};
ghost use Rattle.edge_traits.specs.Count.{Rose};
ghost use Rattle.edge_traits.specs.Shelf.{ShelfView, count_on};
ghost use Rattle.bot_rules.specs.Intel.{intel};
ghost use Rattle.command_words.specs.Asked.{ask_of};
ghost use Rattle.status_texts.specs.declared.status.FeedWhy.TheVariants.{Failed as FailedWhy};
ghost use Rattle.pipeline_top.specs.Commands.{IsDrained, IsDrainedBy, IsUndrained};
ghost use Rattle.pipeline_top.specs.Outside.{seen_as, DiskCounts, Seen, ShelfStays, SinkCounts};
ghost use Rattle.pipeline_top.specs.Statuses.{unbrought_status};

use crate::Status;
use crate::statuses::{behind_store, drain_status, is_said, unbrought_status};
use base_types::Blob;
use bot_rules::IntelRules;
use bundle_bringing::{Unbrought, bring_code};
use command_words::Ask;
use drain_command::Asked;
use drain_loop::Opening;
use edge_traits::{Clock, Disk, Shelf, Sink};
use std::alloc::Global;
use store_commands::complete;

/// Drains a store. The disk comes back.
pub fn drain<H: Shelf, D: Disk, S: Sink, C: Clock>(
    alloc: Global,
    ask: Ask<'_>,
    shelf: &mut H,
    disk: D,
    out: &mut S,
    clock: &C,
) -> (Status, D)
    ensures drained { IsDrained D.disk (ask_of ask.entry) (seen_as (H.shelf shelf.old) (H.shelf shelf.new) (S.sink out.old) (S.sink out.new) (C.told clock.now)) (D.disk disk) (D.disk result.1) result.0 }
    ensures words { result.0 ≢ Status.Words }
    ensures disk { DiskCounts result.0 (D.disk disk) (D.disk result.1) }
    ensures sink { SinkCounts result.0 (S.sink out.old) (S.sink out.new) }
    ensures failed { (other : List ℕ) → result.0 ≡ Status.Feed other FailedWhy → Rose (count_on (H.shelf shelf.old) other) (count_on (H.shelf shelf.new) other) }
    ensures shelf { ShelfStays (H.shelf shelf.old) (H.shelf shelf.new) }
{
    match bring_code(alloc, shelf, ask.reload) {
        Ok(bundle) => drain_with(alloc, ask, bundle, shelf, disk, out, clock),
        Err(why) => undrained(alloc, disk, why, out),
    }
}

/// Drains it, with the bundle of this code put in force, if there is one.
pub(crate) fn drain_with<H: Shelf, D: Disk, S: Sink, C: Clock>(
    alloc: Global,
    ask: Ask<'_>,
    bundle: Option<Blob>,
    shelf: &mut H,
    disk: D,
    out: &mut S,
    clock: &C,
) -> (Status, D)
    requires loads { (code : List ℕ) → bundle ≡ Some code → IsSome (intel.facts code) }
    ensures drained { (before : ShelfView) → (H.shelf shelf.old).told ≡ before.told → ((other : List ℕ) → count_on before other ≤ count_on (H.shelf shelf.old) other)
        → IsDrainedBy D.disk (ask_of ask.entry) (seen_as before (H.shelf shelf.new) (S.sink out.old) (S.sink out.new) (C.told clock.now)) result.0 (D.disk disk) (D.disk result.1) bundle }
    ensures words { result.0 ≢ Status.Words }
    ensures disk { DiskCounts result.0 (D.disk disk) (D.disk result.1) }
    ensures sink { SinkCounts result.0 (S.sink out.old) (S.sink out.new) }
    ensures failed { (other : List ℕ) → result.0 ≡ Status.Feed other FailedWhy → Rose (count_on (H.shelf shelf.old) other) (count_on (H.shelf shelf.new) other) }
    ensures shelf { ShelfStays (H.shelf shelf.old) (H.shelf shelf.new) }
{
    let asked = Asked {
        opening: Opening {
            bundle,
            rounds: ask.round,
        },
        left: ask.steps,
    };
    let (end, disk) = drain_command::drain(
        alloc,
        disk,
        IntelRules::new(),
        shelf,
        clock,
        asked,
        out,
    );
    (drain_status(ask.steps, end), disk)
}

/// A store that can't be opened is told before what is wrong with the bundle. No step is made.
pub(crate) fn undrained<D: Disk, S: Sink>(
    alloc: Global,
    disk: D,
    why: Unbrought,
    out: &mut S,
) -> (Status, D)
    ensures undrained { (seen : Seen) → seen.sink ≡ S.sink out.old → seen.sink_now ≡ S.sink out.new
        → IsUndrained seen result.0 (D.disk disk) (D.disk result.1) why }
    ensures words { result.0 ≢ Status.Words }
    ensures feed { (other : List ℕ) → result.0 ≡ Status.Feed other FailedWhy → unbrought_status why ≡ Status.Feed other FailedWhy }
    ensures disk { DiskCounts result.0 (D.disk disk) (D.disk result.1) }
    ensures sink { SinkCounts result.0 (S.sink out.old) (S.sink out.new) }
{
    let (end, disk) = complete(alloc, disk, IntelRules::new(), is_said(&why), out);
    (behind_store(end, unbrought_status(why)), disk)
}
