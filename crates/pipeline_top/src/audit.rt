//! `audit`: what all generations of a store come to.
ghost use Rattle.std.specs.Prelude.{◌≢◌, ℕ, List, Option};
ghost use Rattle.edge_traits.specs.Shelf.{ShelfView};
ghost use Rattle.status_texts.specs.declared.status.FeedWhy.{FeedWhy};
ghost use Rattle.pipeline_top.specs.Commands.{IsAuditedBy};
ghost use Rattle.pipeline_top.specs.Outside.{seen_as, DiskCounts, SinkCounts};

use crate::Status;
use crate::statuses::audit_status;
use bot_rules::IntelRules;
use edge_traits::{Disk, Sink};
use std::alloc::Global;

/// Goes through all generations of a store, and tells what they come to. The disk comes back.
pub fn audit<D: Disk, S: Sink>(alloc: Global, disk: D, out: &mut S) -> (Status, D)
    ensures audited { (shelf shelf_now : ShelfView) (clock : Option ℕ) → IsAuditedBy (seen_as shelf shelf_now (S.sink out.old) (S.sink out.new) clock) (D.disk disk) (D.disk result.1) result.0 }
    ensures words { result.0 ≢ Status.Words }
    ensures feed { (name : List ℕ) (why : FeedWhy) → result.0 ≢ Status.Feed name why }
    ensures disk { DiskCounts result.0 (D.disk disk) (D.disk result.1) }
    ensures sink { SinkCounts result.0 (S.sink out.old) (S.sink out.new) }
{
    let rules = IntelRules::new();
    let (end, disk) = audit_command::audit(alloc, disk, &rules, out);
    (audit_status(end), disk)
}
