//! The drill's shelf: the feed that is made, and nothing else.
use crate::same::same;
use base_types::{NumberList, Text};
use edge_memory::MemSink;
use edge_traits::{Shelf, ShelfFault, Source};
use feed_maker::{DrillShelf, make_feed};
use std::alloc::Global;
use std::process::Abort;
use std::test::Fail;

// The first bytes of a file of the shelf, as many as there is room for.
fn front<H: Shelf>(
    alloc: Global,
    shelf: &mut H,
    name: &Text,
    room: &mut [u8],
) -> Result<usize, Fail> {
    if room.is_empty() {
        return Err(Fail::from("no room"));
    }
    match shelf.fetch(alloc, name) {
        Ok(mut source) => {
            let read = source.read_at(0, room);
            shelf.take_back(name, source);
            Ok(read?)
        }
        Err(_) => Err(Fail::from("no file")),
    }
}

// The number of lines, and whether the shelf was made: for these many there is memory.
const LINES: [u32; 4] = [0, 1, 100, 20_000];

#[test]
fn the_shelf_has_the_feed_that_is_made(rt: HostRuntime) -> Result<(), Fail> {
    let alloc = rt.alloc();
    let name = Text::new(alloc, b"feed.csv")?;
    for lines in LINES {
        let mut out = MemSink::new(alloc, NumberList::new(alloc));
        make_feed(alloc, lines, 7, &mut out)?;
        let mut shelf = DrillShelf::new(alloc, lines, 7)?;
        let mut room = vec![in alloc; 0; 1_000_000]?;
        let have = front(alloc, &mut shelf, &name, &mut room)?;
        assert_eq!(rt; have, out.bytes().len(), "{lines} lines");
        assert!(rt; room.starts_with(out.bytes()), "{lines} lines");
    }
    Ok(())
}

// Why a file isn't fetched, if it isn't.
fn fault_of<H: Shelf>(alloc: Global, shelf: &mut H, name: &Text) -> Option<ShelfFault> {
    match shelf.fetch(alloc, name) {
        Ok(source) => {
            shelf.take_back(name, source);
            None
        }
        Err(fault) => Some(fault),
    }
}

#[test]
fn the_shelf_has_nothing_else(rt: HostRuntime) -> Result<(), Fail> {
    let alloc = rt.alloc();
    let mut shelf = DrillShelf::new(alloc, 1, 7)?;
    for other in ["", "feed", "feed.csv.old", "Feed.csv"] {
        let fault = fault_of(alloc, &mut shelf, &Text::new(alloc, other.as_bytes())?);
        assert_eq!(rt; fault, Some(ShelfFault::Absent), "{other}");
    }
    same(
        &rt,
        fault_of(alloc, &mut shelf, &Text::new(alloc, b"feed.csv")?),
        None,
    );
    Ok(())
}
