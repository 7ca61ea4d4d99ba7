//! `convert`: messages are read leniently and written in their canonical texts.
ghost use Rattle.std.specs.Prelude.{◌≡◌, ◌≢◌, ◌⊎◌, ◌≤◌, List, ℕ, [], Some, true};
ghost use Rattle.edge_traits.specs.Count.{Rose};
ghost use Rattle.edge_traits.specs.Shelf.{count_on, content_of, lacks};
ghost use Rattle.edge_traits.specs.Sink.{Took};
ghost use Rattle.status_texts.specs.declared.status.FeedWhy.{FeedWhy};
ghost use Rattle.status_texts.specs.declared.status.FeedWhy.TheVariants.{Absent, Failed};
ghost use Rattle.pipeline_top.specs.Convert.{conversion, convert_bot, end_of, IsOutside, Wrote};

use crate::Status;
use crate::halt::halt_status;
use crate::pieces::convert_feed;
use base_types::Text;
use edge_traits::{Shelf, Sink};
use std::alloc::Global;

/// Converts the feed of this name.
pub fn convert_named<H: Shelf, S: Sink>(
    alloc: Global,
    name: &Text,
    shelf: &mut H,
    out: &mut S,
) -> Status
    ensures words { result ≢ Status.Words }
    ensures disk { result ≢ Status.Disk }
    ensures named { (other : List ℕ) (why : FeedWhy) → result ≡ Status.Feed other why → other ≡ name.now }
    ensures absent { (other : List ℕ) → result ≡ Status.Feed other Absent → lacks (H.shelf shelf.old) other ≡ true }
    ensures lacking { lacks (H.shelf shelf.old) name.now ≡ true
        → ((result ≡ Status.Feed name.now Absent) ⊎ (result ≡ Status.Memory)) × Took (S.sink out.old) (S.sink out.new) [] }
    ensures failed { (other : List ℕ) → result ≡ Status.Feed other Failed
        → Rose (count_on (H.shelf shelf.old) other) (count_on (H.shelf shelf.new) other) }
    ensures sink { result ≡ Status.Sink → Rose (S.sink out.old).faults (S.sink out.new).faults }
    ensures long_line { (bot : List ℕ) (at : ℕ) → result ≡ Status.LongLine bot at → bot ≡ convert_bot }
    ensures long_feed { (bot : List ℕ) → result ≡ Status.LongFeed bot → bot ≡ convert_bot }

    ensures end { (content : List ℕ) → content_of (H.shelf shelf.old) name.now ≡ Some content
        → IsOutside result ⊎ (result ≡ end_of content) }
    ensures written { (content : List ℕ) → content_of (H.shelf shelf.old) name.now ≡ Some content
        → Wrote result (S.sink out.old) (S.sink out.new) (conversion content) }

    ensures told { (H.shelf shelf.new).told ≡ (H.shelf shelf.old).told }
    ensures count { count_on (H.shelf shelf.old) name.now ≤ count_on (H.shelf shelf.new) name.now }
    ensures other_counts { (other : List ℕ) → other ≢ name.now
        → count_on (H.shelf shelf.new) other ≡ count_on (H.shelf shelf.old) other }
    ensures sink_count { (S.sink out.old).faults ≤ (S.sink out.new).faults }
{
    match convert_feed(alloc, shelf, name, out) {
        Ok(status) => status,
        Err(halt) => halt_status(alloc, name, halt),
    }
}
