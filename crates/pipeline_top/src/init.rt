//! `init`: a store is made.
ghost use Rattle.std.specs.Prelude.{◌≡◌, ◌≢◌, ℕ, List, Option};
ghost use Rattle.edge_traits.specs.Count.{Rose};
ghost use Rattle.edge_traits.specs.Shelf.{count_on};
ghost use Rattle.edge_traits.specs.Sink.{SinkView};
ghost use Rattle.config_bundle.specs.Bundle.{IsBundle};
ghost use Rattle.runtime_config.specs.Load.{load as loaded};
ghost use Rattle.status_texts.specs.declared.status.FeedWhy.TheVariants.{Failed as FailedWhy};
ghost use Rattle.pipeline_top.specs.Commands.{IsInit, IsMadeOf, IsUnmade};
ghost use Rattle.pipeline_top.specs.Outside.{seen_as, DiskCounts, Seen, ShelfStays, SinkCounts};
ghost use Rattle.pipeline_top.specs.Statuses.{unbrought_status};

use crate::Status;
use crate::statuses::{store_status, unbrought_status};
use base_types::{OutOfMemory, Text};
use bot_rules::IntelRules;
use bundle_bringing::{Unbrought, bring, code_of};
use config_bundle::Bundle;
use edge_traits::{Disk, Failed, Shelf, Sink};
use runtime_config::Plan;
use std::alloc::Global;
use store_commands::find_store;

/// Makes a store for the bundle of this name, and prints the summary of its first state. The disk comes back.
pub fn init<H: Shelf, D: Disk, S: Sink>(
    alloc: Global,
    name: &Text,
    shelf: &mut H,
    disk: D,
    out: &mut S,
) -> (Status, D)
    ensures begun { (clock : Option ℕ) → IsInit name.now (seen_as (H.shelf shelf.old) (H.shelf shelf.new) (S.sink out.old) (S.sink out.new) clock) (D.disk disk) (D.disk result.1) result.0 }
    ensures words { result.0 ≢ Status.Words }
    ensures disk { DiskCounts result.0 (D.disk disk) (D.disk result.1) }
    ensures sink { SinkCounts result.0 (S.sink out.old) (S.sink out.new) }
    ensures failed { (other : List ℕ) → result.0 ≡ Status.Feed other FailedWhy → Rose (count_on (H.shelf shelf.old) other) (count_on (H.shelf shelf.new) other) }
    ensures shelf { ShelfStays (H.shelf shelf.old) (H.shelf shelf.new) }
{
    match bring(alloc, shelf, name) {
        Ok((bundle, plan)) => make(alloc, &bundle, &plan, disk, out),
        Err(why) => unmade(disk, why),
    }
}

// Makes the store for this bundle.
fn make<D: Disk, S: Sink>(
    alloc: Global,
    bundle: &Bundle,
    plan: &Plan,
    disk: D,
    out: &mut S,
) -> (Status, D)
    requires coded { IsBundle bundle.now }
    requires loads { loaded bundle.now ≡ Ok plan.now }
    ensures made { (seen : Seen) → seen.sink ≡ S.sink out.old → seen.sink_now ≡ S.sink out.new
        → IsMadeOf seen result.0 (D.disk disk) (D.disk result.1) (bundle.now, plan.now) }
    ensures words { result.0 ≢ Status.Words }
    ensures feed { (other : List ℕ) → result.0 ≡ Status.Feed other FailedWhy → ⊥ }
    ensures disk { DiskCounts result.0 (D.disk disk) (D.disk result.1) }
    ensures sink { SinkCounts result.0 (S.sink out.old) (S.sink out.new) }
{
    match code_of(alloc, bundle, plan) {
        Ok(code) => {
            let (end, disk) = store_commands::init(alloc, disk, IntelRules::new(), &code, out);
            (store_status(end), disk)
        }
        Err(OutOfMemory) => (Status::Memory, disk),
    }
}

// A store that is there is told before what is wrong with the bundle.
fn unmade<D: Disk>(disk: D, why: Unbrought) -> (Status, D)
    ensures unmade { (seen : Seen) → seen.sink_now ≡ seen.sink → IsUnmade seen result.0 (D.disk disk) (D.disk result.1) why }
    ensures words { result.0 ≢ Status.Words }
    ensures feed { (other : List ℕ) → result.0 ≡ Status.Feed other FailedWhy → unbrought_status why ≡ Status.Feed other FailedWhy }
    ensures disk { DiskCounts result.0 (D.disk disk) (D.disk result.1) }
    ensures sink { result.0 ≢ Status.Sink }
{
    let mut disk = disk;
    let have = match find_store(&mut disk) {
        Ok(have) => have,
        Err(Failed) => return (Status::Disk, disk),
    };
    if have > 0 {
        return (Status::Store { have }, disk);
    }
    (unbrought_status(why), disk)
}
