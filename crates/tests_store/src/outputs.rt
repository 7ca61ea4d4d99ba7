ghost use Rattle.std.specs.Prelude.{◌≡◌, IfOk};
ghost use Rattle.out_files.specs.Output.{lines_text};

use crate::disks::{CHOICES, FILE, crashed, disk_with, file_after, only};
use crate::same::{holds_in, same};
use crate::untold::UntoldDisk;
use base_types::{Blob, LineList};
use edge_memory::MemDisk;
use out_files::{OutFault, bring_up};
use std::alloc::Global;
use std::process::Abort;
use std::test::Fail;

fn push(alloc: Global, lines: &mut LineList, line: &[u8]) -> Result<(), Fail> {
    let line = Blob::new(alloc, line)?;
    if lines.push(line).is_err() {
        return Err(Fail::from("memory"));
    }
    Ok(())
}

// The lines, each with a newline behind it.
fn text_of(alloc: Global, lines: &LineList) -> Result<Vec<u8>, Fail>
    ensures { IfOk result (λ text. text.items ≡ lines_text lines.now) }
{
    let mut text = Vec::new(alloc);
    'lines: for line in lines.as_slice() {
        text.extend_from_slice(line.bytes())?;
        text.push(b'\n')?;
    }
    Ok(text)
}

fn complete(
    alloc: Global,
    disk: &mut MemDisk,
    sealed: u64,
    lines: &LineList,
) -> Result<Result<u64, OutFault>, Fail> {
    if sealed > 1_000_000 || text_of(alloc, lines)?.len() > 1_000_000 {
        return Err(Fail::from("a file of more than a million bytes"));
    }
    Ok(bring_up(alloc, disk, FILE, sealed, lines.as_slice()))
}

// A file, how much of it is sealed, and the lines with which it is completed.
struct Row {
    file: &'static str,
    sealed: u64,
    lines: &'static [&'static str],
    completed: &'static str,
}

const ROWS: [Row; 8] = [
    Row {
        file: "",
        sealed: 0,
        lines: &["ab", "c"],
        completed: "ab\nc\n",
    },
    Row {
        file: "",
        sealed: 0,
        lines: &[],
        completed: "",
    },
    // A tail that is longer than the lines, one that is shorter, and one that is as long.
    Row {
        file: "head\na long torn tail",
        sealed: 5,
        lines: &["x"],
        completed: "head\nx\n",
    },
    Row {
        file: "head\nt",
        sealed: 5,
        lines: &["one", "two"],
        completed: "head\none\ntwo\n",
    },
    Row {
        file: "head\none\n",
        sealed: 5,
        lines: &["two"],
        completed: "head\ntwo\n",
    },
    Row {
        file: "head\n",
        sealed: 5,
        lines: &["x"],
        completed: "head\nx\n",
    },
    Row {
        file: "head\ntail",
        sealed: 5,
        lines: &[],
        completed: "head\n",
    },
    Row {
        file: "head\n",
        sealed: 5,
        lines: &["", ""],
        completed: "head\n\n\n",
    },
];

fn lines_of(alloc: Global, row: &Row) -> Result<LineList, Fail> {
    let mut lines = LineList::new(alloc);
    for line in row.lines {
        push(alloc, &mut lines, line.as_bytes())?;
    }
    Ok(lines)
}

// Completes the file, and looks at its length and its bytes.
fn check_completed(
    rt: &impl Abort,
    alloc: Global,
    disk: &mut MemDisk,
    row: &Row,
    lines: &LineList,
) -> Result<(), Fail> {
    same(
        rt,
        complete(alloc, disk, row.sealed, lines)?,
        Ok(row.completed.len() as u64),
    );
    same(
        rt,
        disk.file(alloc, FILE)?.as_slice(),
        row.completed.as_bytes(),
    );
    assert!(rt; !disk.starved());
    Ok(())
}

// Crashes after each call that the disk made: what is sealed stands, and the file can be completed again.
fn check_crashes(
    rt: &impl Abort,
    alloc: Global,
    disk: &MemDisk,
    row: &Row,
    lines: &LineList,
) -> Result<(), Fail> {
    let sealed = row
        .file
        .as_bytes()
        .get(..row.sealed as usize)
        .unwrap_or(b"");
    for after in 0..=disk.calls() {
        for choice in &CHOICES {
            let left = file_after(alloc, disk, after, choice)?;
            holds_in(rt, after, left.starts_with(sealed));
            check_completed(
                rt,
                alloc,
                &mut crashed(alloc, disk, after, choice)?,
                row,
                lines,
            )?;
        }
    }
    Ok(())
}

fn check_row(
    rt: &impl Abort,
    alloc: Global,
    disk: &mut MemDisk,
    row: &Row,
    lines: &LineList,
) -> Result<(), Fail> {
    check_completed(rt, alloc, disk, row, lines)?;
    check_crashes(rt, alloc, disk, row, lines)
}

#[test]
fn a_file_is_completed(rt: HostRuntime) -> Result<(), Fail> {
    let alloc = rt.alloc();
    for row in &ROWS {
        let lines = lines_of(alloc, row)?;
        let mut disk = disk_with(alloc, row.file.as_bytes())?;
        check_row(&rt, alloc, &mut disk, row, &lines)?;
    }
    Ok(())
}

// How many calls it takes to complete the file.
fn calls_of(alloc: Global, row: &Row, lines: &LineList) -> Result<u64, Fail> {
    let mut disk = disk_with(alloc, row.file.as_bytes())?;
    let _ = complete(alloc, &mut disk, row.sealed, lines)?;
    Ok(disk.calls())
}

// Completes the file on a disk whose call with this number fails.
fn check_failing(
    rt: &impl Abort,
    alloc: Global,
    disk: &mut MemDisk,
    row: &Row,
    lines: &LineList,
) -> Result<(), Fail> {
    let failed = complete(alloc, disk, row.sealed, lines)?;
    same(rt, failed, Err(OutFault::Disk));
    check_crashes(rt, alloc, disk, row, lines)?;
    check_completed(rt, alloc, disk, row, lines)
}

// Each call fails in its turn.
fn check_calls(rt: &impl Abort, alloc: Global, row: &Row, lines: &LineList) -> Result<(), Fail> {
    for number in 1..=calls_of(alloc, row, lines)? {
        let fail = only(alloc, number)?;
        let mut disk = disk_with(alloc, row.file.as_bytes())?;
        disk.plan(fail, None);
        check_failing(rt, alloc, &mut disk, row, lines)?;
    }
    Ok(())
}

#[test]
fn each_call_may_fail(rt: HostRuntime) -> Result<(), Fail> {
    let alloc = rt.alloc();
    for row in &ROWS {
        check_calls(&rt, alloc, row, &lines_of(alloc, row)?)?;
    }
    Ok(())
}

#[test]
fn a_short_file_stays(rt: HostRuntime) -> Result<(), Fail> {
    let alloc = rt.alloc();
    let mut lines = LineList::new(alloc);
    push(alloc, &mut lines, b"x")?;
    for sealed in 4..7u64 {
        check_short(&rt, alloc, &mut disk_with(alloc, b"abc")?, sealed, &lines)?;
    }
    Ok(())
}

fn check_short(
    rt: &impl Abort,
    alloc: Global,
    disk: &mut MemDisk,
    sealed: u64,
    lines: &LineList,
) -> Result<(), Fail> {
    let refused = complete(alloc, disk, sealed, lines)?;
    same(rt, refused, Err(OutFault::Short { have: 3 }));
    same(rt, disk.file(alloc, FILE)?.as_slice(), b"abc".as_slice());
    Ok(())
}

// How many lines of how many bytes, and the calls that they take: a look at the length, the writes, a cut and a sync.
struct Large {
    lines: usize,
    bytes: usize,
    calls: u64,
}

const LARGES: [Large; 6] = [
    Large {
        lines: 1,
        bytes: 65_534,
        calls: 4,
    },
    Large {
        lines: 1,
        bytes: 65_535,
        calls: 4,
    },
    Large {
        lines: 2,
        bytes: 65_534,
        calls: 4,
    },
    Large {
        lines: 2,
        bytes: 65_535,
        calls: 5,
    },
    Large {
        lines: 70,
        bytes: 1_000,
        calls: 5,
    },
    Large {
        lines: 3,
        bytes: 100_000,
        calls: 6,
    },
];

fn lines_like(alloc: Global, large: &Large) -> Result<LineList, Fail> {
    let line = vec![in alloc; b'x'; large.bytes]?;
    let mut lines = LineList::new(alloc);
    for _ in 0..large.lines {
        push(alloc, &mut lines, &line)?;
    }
    Ok(lines)
}

// The file with all lines behind what was sealed of it.
fn whole_text(alloc: Global, lines: &LineList) -> Result<Vec<u8>, Fail> {
    let mut text = b"head\n".as_slice().to_vec(alloc)?;
    text.extend_from_slice(&text_of(alloc, lines)?)?;
    Ok(text)
}

fn check_large(
    rt: &impl Abort,
    alloc: Global,
    disk: &mut MemDisk,
    large: &Large,
) -> Result<(), Fail> {
    let lines = lines_like(alloc, large)?;
    let want = whole_text(alloc, &lines)?;
    let end = complete(alloc, disk, 5, &lines)?;
    same(rt, end, Ok(want.len() as u64));
    assert!(rt; disk.file(alloc, FILE)? == want);
    same(rt, disk.calls(), large.calls);
    assert!(rt; !disk.starved());
    Ok(())
}

// A crash after any call leaves what is sealed.
fn check_sealed(rt: &impl Abort, alloc: Global, disk: &MemDisk) -> Result<(), Fail> {
    for after in 0..=disk.calls() {
        for choice in &CHOICES {
            let left = file_after(alloc, disk, after, choice)?;
            holds_in(rt, after, left.starts_with(b"head\n"));
        }
    }
    Ok(())
}

fn check_large_file(
    rt: &impl Abort,
    alloc: Global,
    disk: &mut MemDisk,
    large: &Large,
) -> Result<(), Fail> {
    check_large(rt, alloc, disk, large)?;
    check_sealed(rt, alloc, disk)
}

#[test]
fn long_texts_take_several_writes(rt: HostRuntime) -> Result<(), Fail> {
    let alloc = rt.alloc();
    for large in &LARGES {
        check_large_file(&rt, alloc, &mut disk_with(alloc, b"head\ntail")?, large)?;
    }
    Ok(())
}

#[test]
fn a_failed_sync_is_not_tried_again(rt: HostRuntime) -> Result<(), Fail> {
    let alloc = rt.alloc();
    let mut lines = LineList::new(alloc);
    push(alloc, &mut lines, b"x")?;
    if text_of(alloc, &lines)?.len() > 1_000_000 {
        return Err(Fail::from("a file of more than a million bytes"));
    }
    let mut disk = UntoldDisk::new(alloc, b"head\n");
    disk.fail_sync(1);
    same(
        &rt,
        bring_up(alloc, &mut disk, FILE, 5, lines.as_slice()),
        Err(OutFault::Disk),
    );
    same(&rt, disk.trace(), b"lwcs".as_slice());
    Ok(())
}
