//! `drill`: a store is made, and a feed that is made in memory is drained into it.
ghost use Rattle.std.specs.Prelude.{◌≡◌, ◌≢◌, ◌↔◌, ℕ, List, false, IfOk};
ghost use Rattle.edge_traits.specs.Shelf.{ShelfView};
ghost use Rattle.config_bundle.specs.Bundle.{bundle_code};
ghost use Rattle.feed_maker.specs.Drill.{drill_bundle, drill_shelf};
ghost use Rattle.status_texts.specs.declared.status.FeedWhy.TheVariants.{Failed as FailedWhy};
ghost use Rattle.pipeline_top.specs.Commands.{IsDrilled};
ghost use Rattle.pipeline_top.specs.Outside.{seen_as, DiskCounts, SinkCounts};

use crate::Status;
use crate::drain::drain_with;
use crate::statuses::store_status;
use base_types::{Blob, OutOfMemory};
use bot_rules::IntelRules;
use command_words::Ask;
use config_bundle::bundle_code;
use edge_traits::{Clock, Disk, Shelf, Sink};
use feed_maker::{DrillShelf, drill_bundle, drills_never_fail};
use std::alloc::Global;
use store_commands::{StoreEnd, make_store};

// A drill is a drain of all turns.
const NO_ASK: Ask<'static> = Ask {
    steps: None,
    reload: None,
    round: false,
};

/// Makes a store of the drill's bundle, and drains the feed of so many lines that the number gives into it. The disk comes back.
pub fn drill<D: Disk, S: Sink, C: Clock>(
    alloc: Global,
    lines: u32,
    number: u64,
    disk: D,
    out: &mut S,
    clock: &C,
) -> (Status, D)
    ensures drilled { (shelf shelf_now : ShelfView) → IsDrilled D.disk lines number (seen_as shelf shelf_now (S.sink out.old) (S.sink out.new) (C.told clock.now)) disk result.1 result.0 }
    ensures words { result.0 ≢ Status.Words }
    ensures feed { (name : List ℕ) → result.0 ≢ Status.Feed name FailedWhy }
    ensures disk { DiskCounts result.0 (D.disk disk) (D.disk result.1) }
    ensures sink { SinkCounts result.0 (S.sink out.old) (S.sink out.new) }
{
    match prepare(alloc, lines, number) {
        Ok((bundle, shelf)) => drill_with(alloc, &bundle, shelf, disk, out, clock),
        Err(OutOfMemory) => (Status::Memory, disk),
    }
}

// The code of the drill's bundle, and the shelf with the feed.
fn prepare(alloc: Global, lines: u32, number: u64) -> Result<(Blob, DrillShelf), OutOfMemory>
    ensures bundle { IfOk result (λ made. made.0 ≡ bundle_code drill_bundle) }
    ensures shelf { IfOk result (λ made. ⟦<DrillShelf as Shelf>⟧.shelf made.1 ≡ drill_shelf lines number) }
{
    let bundle = drill_bundle(alloc)?;
    Ok((
        bundle_code(alloc, &bundle)?,
        DrillShelf::new(alloc, lines, number)?,
    ))
}

// Makes a store of the bundle with this code, and drains what is on the shelf into it.
fn drill_with<D: Disk, S: Sink, C: Clock>(
    alloc: Global,
    bundle: &Blob,
    shelf: DrillShelf,
    disk: D,
    out: &mut S,
    clock: &C,
) -> (Status, D)
    requires bundle { bundle.now ≡ bundle_code drill_bundle }
    ensures drilled { (other other_now : ShelfView) (lines number : ℕ) → ⟦<DrillShelf as Shelf>⟧.shelf shelf ≡ drill_shelf lines number
        → IsDrilled D.disk lines number (seen_as other other_now (S.sink out.old) (S.sink out.new) (C.told clock.now)) disk result.1 result.0 }
    ensures words { result.0 ≢ Status.Words }
    ensures feed { (name : List ℕ) → result.0 ≢ Status.Feed name FailedWhy }
    ensures disk { DiskCounts result.0 (D.disk disk) (D.disk result.1) }
    ensures sink { SinkCounts result.0 (S.sink out.old) (S.sink out.new) }
{
    let mut shelf = shelf;
    let (end, disk) = make_store(alloc, disk, IntelRules::new(), bundle);
    if lacks_store(end) {
        return (store_status(end), disk);
    }
    let drained = drain_with(alloc, NO_ASK, None, &mut shelf, disk, out, clock);
    // No feed of a drill has ever failed.
    drills_never_fail(&shelf);
    drained
}

// Whether no store was made.
fn lacks_store(end: StoreEnd) -> bool
    ensures { (result ≡ false) ↔ (end ≡ StoreEnd.Done) }
{
    !matches!(end, StoreEnd::Done)
}
