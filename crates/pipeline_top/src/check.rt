//! `check`: a bundle is looked at.
ghost use Rattle.std.specs.Prelude.{◌≡◌, ◌≢◌, ◌≤◌, ℕ, List, Option};
ghost use Rattle.edge_traits.specs.Count.{Rose};
ghost use Rattle.edge_traits.specs.Shelf.{count_on};
ghost use Rattle.status_texts.specs.declared.status.FeedWhy.TheVariants.{Failed as FailedWhy};
ghost use Rattle.store_commands.specs.Ends.{IsPrinted};
ghost use Rattle.pipeline_top.specs.Commands.{bots_text, IsChecked};
ghost use Rattle.pipeline_top.specs.Outside.{seen_as, ShelfStays, SinkCounts};

use crate::Status;
use crate::statuses::{store_status, unbrought_status};
use base_types::Text;
use bundle_bringing::bring;
use edge_traits::{Failed, Shelf, Sink, write_all};
use std::alloc::Global;
use store_commands::StoreEnd;

fn print_bots<S: Sink>(alloc: Global, bots: usize, out: &mut S) -> StoreEnd
    ensures printed { IsPrinted (bots_text bots) result (S.sink out.old) (S.sink out.new) }
    ensures count { (S.sink out.old).faults ≤ (S.sink out.new).faults }
{
    let text = match format!(in alloc; "ok {bots} bots\n") {
        Ok(text) => text,
        Err(_) => return StoreEnd::Memory,
    };
    match write_all(out, text.as_bytes()) {
        Ok(()) => StoreEnd::Done,
        Err(Failed) => StoreEnd::Sink,
    }
}

/// Loads the bundle of this name, and prints how many bots it has.
pub fn check<H: Shelf, S: Sink>(alloc: Global, name: &Text, shelf: &mut H, out: &mut S) -> Status
    ensures checked { (clock : Option ℕ) → IsChecked name.now (seen_as (H.shelf shelf.old) (H.shelf shelf.new) (S.sink out.old) (S.sink out.new) clock) result }
    ensures words { result ≢ Status.Words }
    ensures disk { result ≢ Status.Disk }
    ensures sink { SinkCounts result (S.sink out.old) (S.sink out.new) }
    ensures failed { (other : List ℕ) → result ≡ Status.Feed other FailedWhy → Rose (count_on (H.shelf shelf.old) other) (count_on (H.shelf shelf.new) other) }
    ensures shelf { ShelfStays (H.shelf shelf.old) (H.shelf shelf.new) }
{
    match bring(alloc, shelf, name) {
        Ok((_bundle, plan)) => store_status(print_bots(alloc, plan.bots.len(), out)),
        Err(why) => unbrought_status(why),
    }
}
