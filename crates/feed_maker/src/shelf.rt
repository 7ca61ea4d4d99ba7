ghost use Rattle.std.specs.Prelude.{◌≡◌, ◌-◌, length, take, drop, min, IfOk};
ghost use Rattle.feed_maker.specs.Drill.{drill_shelf};

use crate::making::made_feed;
use base_types::{Blob, OutOfMemory, Text};
use edge_traits::{Failed, Shelf, ShelfFault, Source};
use std::alloc::Global;
use std::rc::Rc;

// The feed's name, by which the drill's bundle names it.
const NAME: &str = "feed.csv";

/// A shelf that has the feed of a drill and nothing else. It tells it, and never fails. The feed is in memory once, however
/// often it is fetched.
#[derive(Drop)]
pub struct DrillShelf {
    feed: Rc<Blob, Global>,
}

/// The feed of a drill, fetched. It can't be dropped, so that it is given back.
pub struct DrillSource {
    feed: Rc<Blob, Global>,
}

impl DrillShelf {
    /// The shelf with the feed of so many lines that the number gives. Memory for the feed is asked for once.
    pub fn new(alloc: Global, lines: u32, number: u64) -> Result<DrillShelf, OutOfMemory>
        ensures { IfOk result (λ shelf. ⟦<DrillShelf as Shelf>⟧.shelf shelf ≡ drill_shelf lines number) }
    {
        let feed = made_feed(alloc, lines, number)?;
        Ok(DrillShelf {
            feed: Rc::new(alloc, feed)?,
        })
    }
}

impl Shelf for DrillShelf {
    ghost use Rattle.feed_maker.specs.Held.{shelf_view};

    type Src = DrillSource;

    ghost shelf = { shelf_view };

    fn fetch(&mut self, _alloc: Global, name: &Text) -> Result<DrillSource, ShelfFault> {
        if name.as_str() != NAME {
            return Err(ShelfFault::Absent);
        }
        match self.feed.clone() {
            Ok(feed) => Ok(DrillSource { feed }),
            Err(_) => Err(ShelfFault::OutOfMemory),
        }
    }

    fn take_back(&mut self, _name: &Text, source: DrillSource) {
        let DrillSource { feed: _ } = source;
    }
}

impl Source for DrillSource {
    ghost use Rattle.feed_maker.specs.Held.{source_view};

    ghost source = { source_view };

    fn read_at(&mut self, at: u64, buf: &mut [u8]) -> Result<usize, Failed> {
        Ok(copy_from(self.feed.bytes(), at, buf))
    }
}

// Fills the front of `buf` from the offset `at` on, and says how many bytes it has put there.
fn copy_from(content: &[u8], at: u64, buf: &mut [u8]) -> usize
    ensures count { result ≡ min (length buf.new) (length content.now - at) }
    ensures bytes { take result buf.new ≡ take result (drop at content.now) }
{
    let at = at as usize;
    if at >= content.len() {
        return 0;
    }
    let rest = &content[at..];
    let n = rest.len().min(buf.len());
    buf[..n].copy_from_slice(&rest[..n]);
    n
}
