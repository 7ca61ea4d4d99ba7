//! `status`, `dumps` and `redo`.
ghost use Rattle.std.specs.Prelude.{◌≢◌, ℕ, List, Option};
ghost use Rattle.status_texts.specs.declared.status.FeedWhy.{FeedWhy};
ghost use Rattle.edge_traits.specs.Shelf.{ShelfView};
ghost use Rattle.pipeline_top.specs.Commands.{IsRedoneBy, IsShownBy};
ghost use Rattle.pipeline_top.specs.Outside.{seen_as, DiskCounts, SinkCounts};

use crate::Status;
use crate::statuses::store_status;
use bot_rules::IntelRules;
use edge_traits::{Clock, Disk, Sink};
use std::alloc::Global;
use store_commands::Shown;

/// Prints what is asked for of a store's state. The disk comes back.
pub fn show<D: Disk, S: Sink>(alloc: Global, what: Shown, disk: D, out: &mut S) -> (Status, D)
    ensures shown { (shelf shelf_now : ShelfView) (clock : Option ℕ) → IsShownBy what (seen_as shelf shelf_now (S.sink out.old) (S.sink out.new) clock) (D.disk disk) (D.disk result.1) result.0 }
    ensures words { result.0 ≢ Status.Words }
    ensures feed { (name : List ℕ) (why : FeedWhy) → result.0 ≢ Status.Feed name why }
    ensures disk { DiskCounts result.0 (D.disk disk) (D.disk result.1) }
    ensures sink { SinkCounts result.0 (S.sink out.old) (S.sink out.new) }
{
    let (end, disk) = store_commands::show(alloc, disk, IntelRules::new(), what, out);
    (store_status(end), disk)
}

/// Redoes the dump of this number. The disk comes back.
pub fn redo<D: Disk, S: Sink, C: Clock>(
    alloc: Global,
    dump: u64,
    disk: D,
    out: &mut S,
    clock: &C,
) -> (Status, D)
    ensures redone { (shelf shelf_now : ShelfView) → IsRedoneBy D.disk dump (seen_as shelf shelf_now (S.sink out.old) (S.sink out.new) (C.told clock.now)) (D.disk disk) (D.disk result.1) result.0 }
    ensures words { result.0 ≢ Status.Words }
    ensures feed { (name : List ℕ) (why : FeedWhy) → result.0 ≢ Status.Feed name why }
    ensures disk { DiskCounts result.0 (D.disk disk) (D.disk result.1) }
    ensures sink { SinkCounts result.0 (S.sink out.old) (S.sink out.new) }
{
    let now = clock.now();
    let (end, disk) = store_commands::redo(alloc, disk, IntelRules::new(), dump, now, out);
    (store_status(end), disk)
}
