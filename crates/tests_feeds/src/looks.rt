//! What collectors find in their feeds.
ghost use Rattle.std.specs.Prelude.{◌≤◌, IfOk};
ghost use Rattle.edge_traits.specs.Shelf.{ShelfView};
ghost use Rattle.step_code.specs.Sound.{last_number};
ghost use Rattle.collector_feeds.specs.Standing.{IsReady};

use base_types::{Blob, BotName, NumberList, Text};
use collector_feeds::{CollectorFeed, Found, LookFault, give_back, look};
use edge_memory::MemShelf;
use edge_traits::{Shelf, Source};
use std::alloc::Global;
use std::test::Fail;
use step_code::FeedFacts;

/// What a look came to. A piece is told by the offset behind it.
#[derive(Clone, Copy, Debug, PartialEq, Eq)]
enum Seen {
    Piece(u64),
    End,
    Absent,
    Short(u64),
    LongLine(u64),
    LongFeed,
    Failed,
    Memory,
}

fn answer(found: &Result<Found, LookFault>) -> Seen {
    match found {
        Ok(Found::Piece { cut }) => Seen::Piece(cut.upto),
        Ok(Found::End) => Seen::End,
        Ok(Found::Absent) => Seen::Absent,
        Ok(Found::Short { have }) => Seen::Short(*have),
        Ok(Found::LongLine { at }) => Seen::LongLine(*at),
        Ok(Found::LongFeed) => Seen::LongFeed,
        Err(LookFault::Failed) => Seen::Failed,
        Err(LookFault::OutOfMemory) => Seen::Memory,
    }
}

fn text(alloc: Global, bytes: &[u8]) -> Result<Text, Fail> {
    match Text::new(alloc, bytes) {
        Ok(text) => Ok(text),
        Err(_) => Err(Fail::from("no text")),
    }
}

// `feed.csv`, in pieces of 8 bytes, with three tries more.
#[tactic(auto, using(crate::proofs::Closed::closed_ready))]
fn feed_of<S: Source>(alloc: Global, replicate: bool) -> Result<CollectorFeed<S>, Fail>
    ensures { (shelf : ShelfView) → IfOk result (IsReady shelf) }
{
    let facts = FeedFacts {
        file: text(alloc, b"feed.csv")?,
        chunk_size: 8,
        replicate,
    };
    match BotName::new(b"in") {
        Ok(bot) => Ok(CollectorFeed::new(alloc, bot, &facts, 3)?),
        Err(_) => Err(Fail::from("no name")),
    }
}

// One look at an offset.
fn look_once<H: Shelf>(alloc: Global, shelf: &mut H, at: u64, replicate: bool) -> Result<Seen, Fail>
    requires { at ≤ last_number }
{
    let mut feed = feed_of(alloc, replicate)?;
    let found = look(alloc, &mut feed, shelf, at);
    let seen = answer(&found);
    give_back(feed, shelf);
    Ok(seen)
}

// The content under `feed.csv`, an offset, whether a header is repeated, and what is found.
type Row = (&'static [u8], u64, bool, Seen);

const ROWS: [Row; 12] = [
    (b"", 0, false, Seen::End),
    (b"", 0, true, Seen::End),
    (b"a\nbb\n", 0, false, Seen::Piece(5)),
    (b"a\nbb\n", 2, false, Seen::Piece(5)),
    (b"a\nbb\n", 5, false, Seen::End),
    (b"a\nbb\n", 5, true, Seen::End),
    (b"a\nbb\n", 6, false, Seen::Short(5)),
    (b"a\nbb\n", 6, true, Seen::Short(5)),
    (b"head\nx\ny\n", 0, true, Seen::Piece(7)),
    (b"head\nx\ny\n", 7, true, Seen::Piece(9)),
    (b"head\nlonger than it may be\n", 0, true, Seen::Piece(27)),
    (b"head\n", 0, true, Seen::Piece(5)),
];

#[test]
fn what_a_collector_finds(rt: HostRuntime) -> Result<(), Fail> {
    let alloc = rt.alloc();
    for (content, at, replicate, want) in &ROWS {
        if *at > 100 {
            return Err(Fail::from("a row"));
        }
        let mut shelf = MemShelf::new(alloc, NumberList::new(alloc));
        let content = Blob::new(alloc, *content)?;
        shelf.put(
            alloc,
            &text(alloc, b"feed.csv")?,
            &content,
            NumberList::new(alloc),
        )?;
        let found = look_once(alloc, &mut shelf, *at, *replicate)?;
        assert_eq!(rt; found, *want, "at {at}");
    }
    Ok(())
}

#[test]
fn a_feed_that_is_not_there(rt: HostRuntime) -> Result<(), Fail> {
    let alloc = rt.alloc();
    let mut shelf = MemShelf::new(alloc, NumberList::new(alloc));
    assert_eq!(rt; look_once(alloc, &mut shelf, 0, false)?, Seen::Absent);
    Ok(())
}

// The first so many numbers, from 1.
fn numbers(alloc: Global, many: u64) -> Result<NumberList, Fail> {
    let mut list = NumberList::new(alloc);
    for k in 0..many {
        if k > 100 || list.push(k + 1).is_err() {
            return Err(Fail::from("memory"));
        }
    }
    Ok(list)
}

// How many fetches and how many reads fail first, and what is found. Three may be tried again, both together.
const FAILURES: [(u64, u64, Seen); 6] = [
    (0, 3, Seen::Piece(5)),
    (0, 4, Seen::Failed),
    (3, 0, Seen::Piece(5)),
    (4, 0, Seen::Failed),
    (2, 1, Seen::Piece(5)),
    (2, 2, Seen::Failed),
];

#[test]
fn failures_are_tried_again(rt: HostRuntime) -> Result<(), Fail> {
    let alloc = rt.alloc();
    for (fetches, reads, want) in &FAILURES {
        let mut shelf = MemShelf::new(alloc, numbers(alloc, *fetches)?);
        let content = Blob::new(alloc, b"a\nbb\n")?;
        shelf.put(
            alloc,
            &text(alloc, b"feed.csv")?,
            &content,
            numbers(alloc, *reads)?,
        )?;
        let found = look_once(alloc, &mut shelf, 0, false)?;
        assert_eq!(rt; found, *want, "{fetches} fetches and {reads} reads fail");
    }
    Ok(())
}

// A look at an offset of a feed.
fn look_at<H: Shelf>(
    alloc: Global,
    feed: &mut CollectorFeed<H::Src>,
    shelf: &mut H,
    at: u64,
) -> Seen
    requires ready { IsReady (H.shelf shelf.old) feed.old }
    requires near { at ≤ last_number }
    ensures { IsReady (H.shelf shelf.new) feed.new }
{
    let found = look(alloc, feed, shelf, at);
    answer(&found)
}

// Looks one after the other at one feed.
#[test]
fn a_feed_is_looked_at_anywhere(rt: HostRuntime) -> Result<(), Fail> {
    let alloc = rt.alloc();
    let mut shelf = MemShelf::new(alloc, NumberList::new(alloc));
    let content = Blob::new(alloc, b"line one\nline two\n")?;
    shelf.put(
        alloc,
        &text(alloc, b"feed.csv")?,
        &content,
        NumberList::new(alloc),
    )?;
    let mut feed = feed_of(alloc, false)?;
    let first = look_at(alloc, &mut feed, &mut shelf, 0);
    let second = look_at(alloc, &mut feed, &mut shelf, 9);
    let again = look_at(alloc, &mut feed, &mut shelf, 9);
    let end = look_at(alloc, &mut feed, &mut shelf, 18);
    let short = look_at(alloc, &mut feed, &mut shelf, 30);
    let anew = look_at(alloc, &mut feed, &mut shelf, 0);
    give_back(feed, &mut shelf);
    assert_eq!(rt; first, Seen::Piece(9));
    assert_eq!(rt; second, Seen::Piece(18));
    assert_eq!(rt; again, Seen::Piece(18));
    assert_eq!(rt; end, Seen::End);
    assert_eq!(rt; short, Seen::Short(18));
    assert_eq!(rt; anew, Seen::Piece(9));
    Ok(())
}
