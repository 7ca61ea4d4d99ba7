ghost use Rattle.std.specs.Prelude.{◌≡◌};

use crate::same::{same, same_in};
use base_types::{Blob, NumberList, Text};
use edge_memory::{Choice, MemClock, MemDisk, MemShelf, MemSink, MemSource, NoGate};
use edge_traits::{Clock, Disk, Failed, Shelf, ShelfFault, Sink, Source};
use std::alloc::Global;
use std::process::Abort;
use std::test::Fail;

const FILE: u64 = 7;

const KEPT: Choice = Choice {
    keep: true,
    filler: 0,
    longest: false,
};

const LONGEST: Choice = Choice {
    keep: false,
    filler: b'?',
    longest: true,
};

const SHORTEST: Choice = Choice {
    keep: false,
    filler: b'?',
    longest: false,
};

#[derive(Clone, Copy, Debug)]
enum Call {
    Write(u64, &'static str),
    Cut(u64),
    Sync,
}

// Four calls on one file, and what a crash after so many of them leaves: where all is kept, and where pending bytes are
// `?` and the file is as long as it may be, or as short.
struct Row {
    calls: [Call; 4],
    after: u64,
    kept: &'static str,
    longest: &'static str,
    shortest: &'static str,
}

const WRITTEN_OVER: [Call; 4] = [
    Call::Write(0, "abc"),
    Call::Sync,
    Call::Write(1, "XY"),
    Call::Sync,
];

const CUT_AND_WRITTEN: [Call; 4] = [
    Call::Write(0, "abcdef"),
    Call::Sync,
    Call::Cut(2),
    Call::Write(2, "X"),
];

const APPENDED: [Call; 4] = [
    Call::Write(0, "ab"),
    Call::Sync,
    Call::Write(2, "cd"),
    Call::Write(4, "ef"),
];

const CUT_AND_SYNCED: [Call; 4] = [
    Call::Write(0, "abcd"),
    Call::Cut(1),
    Call::Sync,
    Call::Write(0, "Z"),
];

const ROWS: [Row; 14] = [
    Row {
        calls: WRITTEN_OVER,
        after: 0,
        kept: "",
        longest: "",
        shortest: "",
    },
    Row {
        calls: WRITTEN_OVER,
        after: 1,
        kept: "abc",
        longest: "???",
        shortest: "",
    },
    Row {
        calls: WRITTEN_OVER,
        after: 2,
        kept: "abc",
        longest: "abc",
        shortest: "abc",
    },
    Row {
        calls: WRITTEN_OVER,
        after: 3,
        kept: "aXY",
        longest: "a??",
        shortest: "a??",
    },
    Row {
        calls: WRITTEN_OVER,
        after: 4,
        kept: "aXY",
        longest: "aXY",
        shortest: "aXY",
    },
    Row {
        calls: CUT_AND_WRITTEN,
        after: 3,
        kept: "ab",
        longest: "abcdef",
        shortest: "ab",
    },
    Row {
        calls: CUT_AND_WRITTEN,
        after: 4,
        kept: "abX",
        longest: "ab?def",
        shortest: "ab",
    },
    Row {
        calls: APPENDED,
        after: 2,
        kept: "ab",
        longest: "ab",
        shortest: "ab",
    },
    Row {
        calls: APPENDED,
        after: 3,
        kept: "abcd",
        longest: "ab??",
        shortest: "ab",
    },
    Row {
        calls: APPENDED,
        after: 4,
        kept: "abcdef",
        longest: "ab????",
        shortest: "ab",
    },
    Row {
        calls: CUT_AND_SYNCED,
        after: 1,
        kept: "abcd",
        longest: "????",
        shortest: "",
    },
    Row {
        calls: CUT_AND_SYNCED,
        after: 2,
        kept: "a",
        longest: "????",
        shortest: "",
    },
    Row {
        calls: CUT_AND_SYNCED,
        after: 3,
        kept: "a",
        longest: "a",
        shortest: "a",
    },
    Row {
        calls: CUT_AND_SYNCED,
        after: 4,
        kept: "Z",
        longest: "?",
        shortest: "?",
    },
];

fn numbers(alloc: Global, numbers: &[u64]) -> Result<NumberList, Fail> {
    let mut list = NumberList::new(alloc);
    for number in numbers {
        if list.push(*number).is_err() {
            return Err(Fail::from("memory"));
        }
    }
    Ok(list)
}

fn text(alloc: Global, text: &str) -> Result<Text, Fail> {
    Ok(Text::new(alloc, text.as_bytes())?)
}

fn blob(alloc: Global, text: &str) -> Result<Blob, Fail> {
    Ok(Blob::new(alloc, text.as_bytes())?)
}

// Makes the call. A write or a cut behind the end is a mistake of the table.
fn make(alloc: Global, disk: &mut MemDisk, call: Call) -> Result<Result<(), Failed>, Fail> {
    let len = disk.file(alloc, FILE)?.len() as u64;
    match call {
        Call::Write(at, text) => {
            if at > len || at > 1000 || text.len() > 1000 {
                return Err(Fail::from("a write behind the end"));
            }
            Ok(disk.write_at(FILE, at, text.as_bytes()))
        }
        Call::Cut(to) => {
            if to > len {
                return Err(Fail::from("a cut behind the end"));
            }
            Ok(disk.cut(FILE, to))
        }
        Call::Sync => Ok(disk.sync(FILE)),
    }
}

fn check_image(
    rt: &impl Abort,
    alloc: Global,
    disk: &MemDisk,
    after: u64,
    choice: &Choice,
    want: &str,
) -> Result<(), Fail> {
    if after > disk.calls() {
        return Err(Fail::from("an image of a call that wasn't made"));
    }
    check_file(rt, alloc, &disk.image(alloc, after, choice)?, after, want)
}

// An image has this file, has made no call, and nothing of it is pending.
fn check_file(
    rt: &impl Abort,
    alloc: Global,
    image: &MemDisk,
    after: u64,
    want: &str,
) -> Result<(), Fail> {
    let found = image.file(alloc, FILE)?;
    same_in(rt, after, found.as_slice(), want.as_bytes());
    same(rt, image.calls(), 0);
    let again = image.image(alloc, 0, &LONGEST)?.file(alloc, FILE)?;
    same_in(rt, after, again.as_slice(), want.as_bytes());
    Ok(())
}

fn check_row(rt: &impl Abort, alloc: Global, disk: &mut MemDisk, row: &Row) -> Result<(), Fail> {
    for call in &row.calls {
        make(alloc, disk, *call)??;
    }
    check_image(rt, alloc, disk, row.after, &KEPT, row.kept)?;
    check_image(rt, alloc, disk, row.after, &LONGEST, row.longest)?;
    check_image(rt, alloc, disk, row.after, &SHORTEST, row.shortest)
}

#[test]
fn images(rt: HostRuntime) -> Result<(), Fail> {
    let alloc = rt.alloc();
    for row in &ROWS {
        check_row(&rt, alloc, &mut MemDisk::new(alloc), row)?;
    }
    Ok(())
}

// A disk whose call with this number fails.
fn failing(alloc: Global, number: u64) -> Result<MemDisk, Fail> {
    let fail = numbers(alloc, &[number])?;
    let mut disk = MemDisk::new(alloc);
    disk.plan(fail, None);
    Ok(disk)
}

// What the call with this number answers on a disk with a plan.
fn answers(alloc: Global, fail: &[u64], stop: Option<u64>, number: u64) -> Result<bool, Fail> {
    let fail = numbers(alloc, fail)?;
    let mut disk = MemDisk::new(alloc);
    disk.plan(fail, stop);
    answer_of(alloc, &mut disk, number)
}

fn answer_of(alloc: Global, disk: &mut MemDisk, number: u64) -> Result<bool, Fail> {
    for call in &[Call::Sync, Call::Write(0, "ab"), Call::Cut(0), Call::Sync] {
        let answer = make(alloc, disk, *call)?;
        if disk.calls() == number {
            return Ok(answer.is_ok());
        }
    }
    Err(Fail::from("a number behind the last call"))
}

#[test]
fn calls_fail_at_each_number(rt: HostRuntime) -> Result<(), Fail> {
    for failing in 1..5u64 {
        for number in 1..5u64 {
            let ok = answers(rt.alloc(), &[failing], None, number)?;
            same_in(&rt, number, ok, number != failing);
        }
    }
    Ok(())
}

#[test]
fn stops_at_each_number(rt: HostRuntime) -> Result<(), Fail> {
    for stop in 0..5u64 {
        for number in 1..5u64 {
            let ok = answers(rt.alloc(), &[], Some(stop), number)?;
            same_in(&rt, number, ok, number <= stop);
        }
    }
    Ok(())
}

// Makes a durable file of this text, and has the next call fail.
fn fail_behind(
    rt: &impl Abort,
    alloc: Global,
    disk: &mut MemDisk,
    text: &'static str,
    call: Call,
) -> Result<(), Fail> {
    make(alloc, disk, Call::Write(0, text))??;
    make(alloc, disk, Call::Sync)??;
    assert!(rt; make(alloc, disk, call)?.is_err());
    assert!(rt; !disk.starved());
    assert!(rt; !disk.unnoted());
    Ok(())
}

// What a crash behind the call that failed leaves.
fn check_left(
    rt: &impl Abort,
    alloc: Global,
    disk: &MemDisk,
    kept: &str,
    longest: &str,
    shortest: &str,
) -> Result<(), Fail> {
    check_image(rt, alloc, disk, 3, &KEPT, kept)?;
    check_image(rt, alloc, disk, 3, &LONGEST, longest)?;
    check_image(rt, alloc, disk, 3, &SHORTEST, shortest)
}

#[test]
fn a_failed_write_is_pending(rt: HostRuntime) -> Result<(), Fail> {
    let alloc = rt.alloc();
    let mut disk = failing(alloc, 3)?;
    fail_behind(&rt, alloc, &mut disk, "abc", Call::Write(2, "XYZ"))?;
    check_left(&rt, alloc, &disk, "abc", "ab???", "ab?")
}

#[test]
fn a_failed_cut_is_pending(rt: HostRuntime) -> Result<(), Fail> {
    let alloc = rt.alloc();
    let mut disk = failing(alloc, 3)?;
    fail_behind(&rt, alloc, &mut disk, "abcd", Call::Cut(1))?;
    check_left(&rt, alloc, &disk, "abcd", "abcd", "a")
}

// A write of one letter at the end of a file, or a cut to half.
fn grow(alloc: Global, disk: &mut MemDisk, file: u64, letter: u8) -> Result<(), Fail> {
    let len = disk.file(alloc, file)?.len() as u64;
    if len > 1000 {
        return Err(Fail::from("a long file"));
    }
    disk.write_at(file, len, &[letter])?;
    Ok(())
}

fn halve(alloc: Global, disk: &mut MemDisk, file: u64) -> Result<(), Fail> {
    let len = disk.file(alloc, file)?.len() as u64;
    disk.cut(file, len / 2)?;
    Ok(())
}

// Files that are written in turn, and what a read gives of each: now, and on an image.
const FILES: [(u64, &str); 4] = [(3, "ab"), (900, "cde"), (4, ""), (u64::MAX, "f")];

// The letters of all files in turn.
fn grow_all(alloc: Global, disk: &mut MemDisk) -> Result<(), Fail> {
    for i in 0..6usize {
        for (file, text) in &FILES {
            if let Some(letter) = text.as_bytes().get(i) {
                grow(alloc, disk, *file, *letter)?;
            }
        }
    }
    grow(alloc, disk, 4, b'x')?;
    halve(alloc, disk, 4)
}

fn check_apart(rt: &impl Abort, alloc: Global, disk: &mut MemDisk) -> Result<(), Fail> {
    grow_all(alloc, disk)?;
    check_all(rt, alloc, disk)?;
    check_all(rt, alloc, &mut disk.image(alloc, disk.calls(), &KEPT)?)
}

fn check_all(rt: &impl Abort, alloc: Global, disk: &mut MemDisk) -> Result<(), Fail> {
    for (file, text) in &FILES {
        let found = disk.file(alloc, *file)?;
        same_in(rt, *file, found.as_slice(), text.as_bytes());
        same_in(rt, *file, disk.len(*file)?, text.len() as u64);
    }
    assert!(rt; disk.file(alloc, 5)?.is_empty());
    assert!(rt; !disk.starved());
    Ok(())
}

#[test]
fn files_stand_apart(rt: HostRuntime) -> Result<(), Fail> {
    check_apart(&rt, rt.alloc(), &mut MemDisk::new(rt.alloc()))
}

// The sync with the number 2 fails.
fn check_unsynced(rt: &impl Abort, alloc: Global, disk: &mut MemDisk) -> Result<(), Fail> {
    make(alloc, disk, Call::Write(0, "abc"))??;
    assert!(rt; make(alloc, disk, Call::Sync)?.is_err());
    check_image(rt, alloc, disk, 2, &LONGEST, "???")
}

#[test]
fn a_failed_sync_leaves_all_pending(rt: HostRuntime) -> Result<(), Fail> {
    let alloc = rt.alloc();
    let mut disk = failing(alloc, 2)?;
    check_unsynced(&rt, alloc, &mut disk)
}

#[test]
fn reads_fall_short(rt: HostRuntime) -> Result<(), Fail> {
    check_reads(&rt, rt.alloc(), &mut MemDisk::new(rt.alloc()))
}

fn check_reads(rt: &impl Abort, alloc: Global, disk: &mut MemDisk) -> Result<(), Fail> {
    make(alloc, disk, Call::Write(0, "abcde"))??;
    same(rt, disk.len(FILE)?, 5);
    same(rt, disk.len(FILE + 1)?, 0);
    for at in 0..8u64 {
        let mut buf = [0u8; 3];
        let n = disk.read_at(FILE, at, &mut buf)?;
        let want = &b"abcde"[(at as usize).min(5)..];
        same(rt, n, want.len().min(3));
        if n <= 3 && n <= want.len() {
            same(rt, &buf[..n], &want[..n]);
        }
    }
    same(rt, disk.calls(), 11);
    Ok(())
}

#[test]
fn a_sink_takes_what_is_not_to_fail(rt: HostRuntime) -> Result<(), Fail> {
    let fail = numbers(rt.alloc(), &[2])?;
    check_writes(&rt, &mut MemSink::new(rt.alloc(), fail))
}

fn check_writes(rt: &impl Abort, sink: &mut MemSink) -> Result<(), Fail> {
    same(rt, sink.write(b"abc")?, 3);
    assert!(rt; sink.write(b"def").is_err());
    same(rt, sink.write(b"")?, 0);
    same(rt, sink.write(b"gh")?, 2);
    same(rt, sink.bytes(), b"abcgh".as_slice());
    assert!(rt; !sink.starved());
    Ok(())
}

// The bytes that a source gives from the offset 1 on, or none where the read fails.
fn read_from_one(source: &mut MemSource) -> Option<[u8; 3]>
    ensures { (⟦<MemSource as Source>⟧.source source.new).name ≡ (⟦<MemSource as Source>⟧.source source.old).name }
{
    let mut buf = [b'-'; 3];
    match source.read_at(1, &mut buf) {
        Ok(_) => Some(buf),
        Err(Failed) => None,
    }
}

#[test]
fn a_source_fails_where_it_is_told_to(rt: HostRuntime) -> Result<(), Fail> {
    let alloc = rt.alloc();
    let content = blob(alloc, "abc")?;
    let fail = numbers(alloc, &[2])?;
    let mut source = MemSource::new(content, fail);
    let first = read_from_one(&mut source);
    let second = read_from_one(&mut source);
    let third = read_from_one(&mut source);
    let content = source.into_content();
    same(&rt, first, Some(*b"bc-"));
    same(&rt, second, None);
    same(&rt, third, Some(*b"bc-"));
    same(&rt, content.bytes(), b"abc".as_slice());
    Ok(())
}

// Fetches a file, reads it once and gives it back.
fn fetch_and_read(
    alloc: Global,
    shelf: &mut MemShelf,
    name: &Text,
) -> Result<Option<[u8; 3]>, ShelfFault> {
    match shelf.fetch(alloc, name) {
        Ok(source) => {
            let mut source = source;
            let bytes = read_from_one(&mut source);
            shelf.take_back(name, source);
            Ok(bytes)
        }
        Err(fault) => Err(fault),
    }
}

// A shelf whose first and third fetch fail, with a file whose first read fails.
fn failing_shelf(alloc: Global, name: &Text) -> Result<MemShelf, Fail> {
    let content = blob(alloc, "abc")?;
    let reads = numbers(alloc, &[1])?;
    let fetches = numbers(alloc, &[1, 3])?;
    let mut shelf = MemShelf::new(alloc, fetches);
    shelf.put(alloc, name, &content, reads)?;
    Ok(shelf)
}

#[test]
fn a_shelf_counts_by_name(rt: HostRuntime) -> Result<(), Fail> {
    let alloc = rt.alloc();
    let name = text(alloc, "feed.csv")?;
    let other = text(alloc, "other")?;
    let mut shelf = failing_shelf(alloc, &name)?;
    check_counts(&rt, alloc, &mut shelf, &name, &other);
    Ok(())
}

fn check_counts(rt: &impl Abort, alloc: Global, shelf: &mut MemShelf, name: &Text, other: &Text) {
    // An absent name comes before the list: this is the first fetch.
    let absent = fetch_and_read(alloc, shelf, other);
    same(rt, absent, Err(ShelfFault::Absent));
    let unread = fetch_and_read(alloc, shelf, name);
    same(rt, unread, Ok(None));
    same(rt, shelf.faults(name), 1);
    let failed = fetch_and_read(alloc, shelf, name);
    same(rt, failed, Err(ShelfFault::Failed));
    same(rt, shelf.faults(name), 2);

    // Only the first source fails.
    let read = fetch_and_read(alloc, shelf, name);
    same(rt, read, Ok(Some(*b"bc-")));
    same(rt, shelf.faults(name), 2);
    same(rt, shelf.faults(other), 0);
}

#[test]
fn a_file_is_put_in_place_of_another(rt: HostRuntime) -> Result<(), Fail> {
    let alloc = rt.alloc();
    let none = numbers(alloc, &[])?;
    let mut shelf = MemShelf::new(alloc, none);
    let name = text(alloc, "feed.csv")?;
    for content in &["abc", "xyz"] {
        let content = blob(alloc, content)?;
        let none = numbers(alloc, &[])?;
        shelf.put(alloc, &name, &content, none)?;
    }
    same(
        &rt,
        fetch_and_read(alloc, &mut shelf, &name),
        Ok(Some(*b"yz-")),
    );
    Ok(())
}

#[test]
fn a_clock_stands_still(rt: HostRuntime) {
    let clock = MemClock::new(1_700_000_000);
    same(&rt, clock.now(), 1_700_000_000);
    same(&rt, clock.now(), 1_700_000_000);
}

fn send<T: Send>(value: T) -> T
    ensures { result ≡ value }
{
    value
}

fn share<T: Sync>(_: &T) {}

#[test]
fn threads_may_have_them(rt: HostRuntime) -> Result<(), Fail> {
    let alloc = rt.alloc();
    let content = blob(alloc, "abc")?;
    let none = numbers(alloc, &[])?;
    let disk = send(MemDisk::new(alloc));
    let source = send(MemSource::new(content, none));
    let content = source.into_content();
    share(&MemClock::new(0));
    share(&NoGate);
    same(&rt, content.bytes(), b"abc".as_slice());
    same(&rt, disk.calls(), 0);
    Ok(())
}
