ghost use Rattle.std.specs.Prelude.{IfOk, OnOk};
ghost use Rattle.tests_store.specs.Usable.{IsUsable};

use crate::disks::{
    CHOICES, FILE, KEPT, LONGEST, SHORTEST, check_durable, crashed, disk_with, failing, file_after,
    filled, only, stop_after,
};
use crate::same::{holds_in, same, same_in};
use crate::untold::{ShortRead, UntoldDisk};
use base_types::BlobList;
use disk_journal::{AppendFault, Heading, Journal, JournalFault};
use edge_memory::{Choice, MemDisk};
use std::alloc::Global;
use std::process::Abort;
use std::test::Fail;

const HEADING: Heading = Heading {
    format: 1,
    generation: 0,
};

// A journal of generation 0 with the body `z`.
const CREATED: &[u8] = b"IMQJ\0\0\0\x01\0\0\0\0\0\0\0\0\x01\0\0\0\0\0\0\0\x01z\0";

// The same with the body `ab` behind it, before its gate is opened and after that.
const STAGED: &[u8] =
    b"IMQJ\0\0\0\x01\0\0\0\0\0\0\0\0\x01\0\0\0\0\0\0\0\x01z\0\0\0\0\0\0\0\0\x02ab\0";

const APPENDED: &[u8] =
    b"IMQJ\0\0\0\x01\0\0\0\0\0\0\0\0\x01\0\0\0\0\0\0\0\x01z\x01\0\0\0\0\0\0\0\x02ab\0";

// The offset of the gate behind the first record.
const GATE: usize = 26;

// Creates a journal with the body `z`.
fn create(alloc: Global, disk: &mut MemDisk) -> Result<Journal, JournalFault>
    ensures { IfOk result (λ journal. IsUsable journal disk.new) }
{
    let journal = Journal::create(alloc, disk, FILE, HEADING, b"z")?;
    Ok(journal)
}

// Appends a body, with the memory for it.
fn append(
    alloc: Global,
    disk: &mut MemDisk,
    journal: &mut Journal,
    body: &[u8],
) -> Result<Result<(), AppendFault>, Fail>
    requires { IsUsable journal.old disk.old }
    ensures { OnOk result (IsUsable journal.new disk.new) }
{
    if disk.file(alloc, FILE)?.len() > 1_000_000 || body.len() > 1_000_000 {
        return Err(Fail::from("a journal of more than a million bytes"));
    }
    journal.reserve(body.len() as u64)?;
    Ok(journal.append(disk, body))
}

// Creates a journal with the body `z`, and appends `ab`.
fn create_and_append(alloc: Global, disk: &mut MemDisk) -> Result<Result<(), AppendFault>, Fail> {
    let mut journal = create(alloc, disk)?;
    append(alloc, disk, &mut journal, b"ab")
}

// The bodies, each with a comma behind it.
fn list_text(alloc: Global, bodies: &BlobList) -> Result<Vec<u8>, Fail> {
    let mut text = Vec::new(alloc);
    for body in bodies.as_slice() {
        text.extend_from_slice(body.bytes())?;
        text.push(b',')?;
    }
    Ok(text)
}

// Opens the journal and gives its bodies.
fn reopened(alloc: Global, disk: &mut MemDisk) -> Result<Vec<u8>, Fail> {
    let (_, bodies) = Journal::reopen(alloc, disk, FILE, HEADING)?;
    list_text(alloc, &bodies)
}

// Where the journal is damaged, if it is.
fn damage(alloc: Global, disk: &mut MemDisk) -> Result<Option<u64>, Fail> {
    match Journal::reopen(alloc, disk, FILE, HEADING) {
        Ok(_) => Ok(None),
        Err(JournalFault::Damaged { at }) => Ok(Some(at)),
        Err(_) => Err(Fail::from("neither opened nor damaged")),
    }
}

#[test]
fn a_new_journal_has_a_header_and_a_record(rt: HostRuntime) -> Result<(), Fail> {
    let alloc = rt.alloc();
    let mut disk = MemDisk::new(alloc);
    let _journal = create(alloc, &mut disk)?;
    same(&rt, CREATED.len(), 27);
    same(&rt, disk.calls(), 3);
    check_durable(&rt, alloc, &disk, CREATED)
}

#[test]
fn a_journal_is_made_anew(rt: HostRuntime) -> Result<(), Fail> {
    let alloc = rt.alloc();
    let mut disk = disk_with(alloc, APPENDED)?;
    let heading = Heading {
        format: 0x0A0B_0C0D,
        generation: 0x0102_0304_0506_0708,
    };
    let _journal = Journal::create(alloc, &mut disk, FILE, heading, b"")?;
    let want = b"IMQJ\x0a\x0b\x0c\x0d\x01\x02\x03\x04\x05\x06\x07\x08\x01\0\0\0\0\0\0\0\0\0";
    same(&rt, disk.file(alloc, FILE)?.as_slice(), want.as_slice());
    assert!(rt; !disk.starved());
    Ok(())
}

// A crash after so many calls of `create_and_append`, and the file that it leaves.
struct Crash {
    after: u64,
    choice: Choice,
    file: &'static [u8],
}

const CRASHES: [Crash; 7] = [
    Crash {
        after: 4,
        choice: KEPT,
        file: STAGED,
    },
    Crash {
        after: 4,
        choice: SHORTEST,
        file: CREATED,
    },
    Crash {
        after: 4,
        choice: LONGEST,
        file: b"IMQJ\0\0\0\x01\0\0\0\0\0\0\0\0\x01\0\0\0\0\0\0\0\x01z\0\x01\x01\x01\x01\x01\x01\x01\x01\x01\x01\x01",
    },
    Crash {
        after: 5,
        choice: LONGEST,
        file: STAGED,
    },
    Crash {
        after: 6,
        choice: KEPT,
        file: APPENDED,
    },
    Crash {
        after: 6,
        choice: SHORTEST,
        file: STAGED,
    },
    Crash {
        after: 6,
        choice: LONGEST,
        file: APPENDED,
    },
];

// Crashes the disk, and looks at the file.
fn check_files(
    rt: &impl Abort,
    alloc: Global,
    disk: &MemDisk,
    crashes: &[Crash],
) -> Result<(), Fail> {
    for crash in crashes {
        let left = file_after(alloc, disk, crash.after, &crash.choice)?;
        same_in(rt, crash.after, left.as_slice(), crash.file);
    }
    assert!(rt; !disk.starved());
    Ok(())
}

#[test]
fn an_append_makes_four_calls(rt: HostRuntime) -> Result<(), Fail> {
    let alloc = rt.alloc();
    let mut disk = MemDisk::new(alloc);
    same(&rt, create_and_append(alloc, &mut disk)?, Ok(()));
    same(&rt, APPENDED.len(), 38);
    same(&rt, disk.calls(), 7);
    check_durable(&rt, alloc, &disk, APPENDED)?;
    check_files(&rt, alloc, &disk, &CRASHES)
}

// The same of the calls of a `create` over an old file: a cut, a write and a sync.
const CRASHES_OF_CREATE: [Crash; 6] = [
    Crash {
        after: 1,
        choice: KEPT,
        file: b"",
    },
    Crash {
        after: 1,
        choice: LONGEST,
        file: b"old",
    },
    Crash {
        after: 2,
        choice: KEPT,
        file: CREATED,
    },
    Crash {
        after: 2,
        choice: SHORTEST,
        file: b"",
    },
    Crash {
        after: 3,
        choice: SHORTEST,
        file: CREATED,
    },
    Crash {
        after: 3,
        choice: LONGEST,
        file: CREATED,
    },
];

#[test]
fn a_create_makes_three_calls(rt: HostRuntime) -> Result<(), Fail> {
    let alloc = rt.alloc();
    let mut disk = disk_with(alloc, b"old")?;
    let journal = create(alloc, &mut disk)?;
    same(&rt, journal.len(), CREATED.len() as u64);
    same(&rt, disk.calls(), 3);
    check_files(&rt, alloc, &disk, &CRASHES_OF_CREATE)
}

// What the write of a gate may leave in its place, and the bodies and the file that `reopen` makes of it.
struct Gate {
    byte: u8,
    bodies: &'static str,
    file: &'static [u8],
}

const GATES: [Gate; 4] = [
    Gate {
        byte: 0,
        bodies: "z,",
        file: CREATED,
    },
    Gate {
        byte: 1,
        bodies: "z,ab,",
        file: APPENDED,
    },
    Gate {
        byte: 7,
        bodies: "z,",
        file: b"IMQJ\0\0\0\x01\0\0\0\0\0\0\0\0\x01\0\0\0\0\0\0\0\x01z\x07",
    },
    Gate {
        byte: 255,
        bodies: "z,",
        file: b"IMQJ\0\0\0\x01\0\0\0\0\0\0\0\0\x01\0\0\0\0\0\0\0\x01z\xff",
    },
];

// A disk on which the write of the gate, the third call of an append, was the last.
fn disk_with_gate(alloc: Global, byte: u8) -> Result<MemDisk, Fail> {
    let mut disk = MemDisk::new(alloc);
    stop_after(alloc, &mut disk, 6);
    match create_and_append(alloc, &mut disk)? {
        Ok(()) => Err(Fail::from("an append on a disk that stopped")),
        Err(_) => crashed(alloc, &disk, 6, &filled(byte)),
    }
}

#[test]
fn a_gate_counts_where_it_is_open(rt: HostRuntime) -> Result<(), Fail> {
    let alloc = rt.alloc();
    for gate in &GATES {
        check_gate(&rt, alloc, &mut disk_with_gate(alloc, gate.byte)?, gate)?;
    }
    Ok(())
}

fn check_gate(rt: &impl Abort, alloc: Global, disk: &mut MemDisk, gate: &Gate) -> Result<(), Fail> {
    let file = disk.file(alloc, FILE)?;
    same(rt, file.len(), APPENDED.len());
    same(rt, file.get(GATE), Some(&gate.byte));
    let bodies = reopened(alloc, disk)?;
    same(rt, bodies.as_slice(), gate.bodies.as_bytes());
    assert!(rt; !disk.starved());
    check_durable(rt, alloc, disk, gate.file)
}

// Crashes after each call that the disk made, and opens the journal.
fn check_crashes(rt: &impl Abort, alloc: Global, disk: &MemDisk, bodies: &str) -> Result<(), Fail> {
    for after in 0..=disk.calls() {
        for choice in &CHOICES {
            let found = reopened(alloc, &mut crashed(alloc, disk, after, choice)?)?;
            same_in(rt, after, found.as_slice(), bodies.as_bytes());
        }
    }
    Ok(())
}

#[test]
fn a_crash_while_it_opens_changes_no_body(rt: HostRuntime) -> Result<(), Fail> {
    let alloc = rt.alloc();
    for gate in &GATES {
        check_opening(
            &rt,
            alloc,
            &mut disk_with_gate(alloc, gate.byte)?,
            gate.bodies,
        )?;
    }
    Ok(())
}

// Opens the journal, crashes after each call that this made, and opens it again.
fn check_opening(
    rt: &impl Abort,
    alloc: Global,
    disk: &mut MemDisk,
    bodies: &str,
) -> Result<(), Fail> {
    let found = reopened(alloc, disk)?;
    same(rt, found.as_slice(), bodies.as_bytes());
    check_crashes(rt, alloc, disk, bodies)
}

// A file, and the bodies in it or where it is damaged.
struct Case {
    file: &'static [u8],
    bodies: &'static str,
    damaged: Option<u64>,
}

const CASES: [Case; 17] = [
    // No header.
    Case {
        file: b"",
        bodies: "",
        damaged: Some(0),
    },
    Case {
        file: b"IMQJ\0\0\0\x01\0\0\0\0\0\0\0",
        bodies: "",
        damaged: Some(0),
    },
    Case {
        file: b"JMQJ\0\0\0\x01\0\0\0\0\0\0\0\0\x01\0\0\0\0\0\0\0\x01z\0",
        bodies: "",
        damaged: Some(0),
    },
    // Another format, and another generation.
    Case {
        file: b"IMQJ\0\0\0\x02\0\0\0\0\0\0\0\0\x01\0\0\0\0\0\0\0\x01z\0",
        bodies: "",
        damaged: Some(0),
    },
    Case {
        file: b"IMQJ\0\0\0\x01\0\0\0\0\0\0\0\x01\x01\0\0\0\0\0\0\0\x01z\0",
        bodies: "",
        damaged: Some(0),
    },
    // No gate.
    Case {
        file: b"IMQJ\0\0\0\x01\0\0\0\0\0\0\0\0",
        bodies: "",
        damaged: Some(16),
    },
    // A closed gate, and what doesn't count behind it.
    Case {
        file: b"IMQJ\0\0\0\x01\0\0\0\0\0\0\0\0\0",
        bodies: "",
        damaged: None,
    },
    Case {
        file: b"IMQJ\0\0\0\x01\0\0\0\0\0\0\0\0\x02\0\0\0\0\0\0\0\x01z\x01",
        bodies: "",
        damaged: None,
    },
    // An open gate, and a length, a body or a gate that is cut off.
    Case {
        file: b"IMQJ\0\0\0\x01\0\0\0\0\0\0\0\0\x01",
        bodies: "",
        damaged: Some(16),
    },
    Case {
        file: b"IMQJ\0\0\0\x01\0\0\0\0\0\0\0\0\x01\0\0\0\0\0\0\0",
        bodies: "",
        damaged: Some(16),
    },
    Case {
        file: b"IMQJ\0\0\0\x01\0\0\0\0\0\0\0\0\x01\0\0\0\0\0\0\0\x02z",
        bodies: "",
        damaged: Some(16),
    },
    Case {
        file: b"IMQJ\0\0\0\x01\0\0\0\0\0\0\0\0\x01\0\0\0\0\0\0\0\x01z",
        bodies: "",
        damaged: Some(16),
    },
    Case {
        file: b"IMQJ\0\0\0\x01\0\0\0\0\0\0\0\0\x01\xff\xff\xff\xff\xff\xff\xff\xffz\0",
        bodies: "",
        damaged: Some(16),
    },
    // A second record that is cut off.
    Case {
        file: b"IMQJ\0\0\0\x01\0\0\0\0\0\0\0\0\x01\0\0\0\0\0\0\0\x01z\x01\0\0\0\0\0\0\0\x02ab",
        bodies: "",
        damaged: Some(26),
    },
    // Whole records.
    Case {
        file: CREATED,
        bodies: "z,",
        damaged: None,
    },
    Case {
        file: APPENDED,
        bodies: "z,ab,",
        damaged: None,
    },
    Case {
        file: b"IMQJ\0\0\0\x01\0\0\0\0\0\0\0\0\x01\0\0\0\0\0\0\0\0\x01\0\0\0\0\0\0\0\0\xff",
        bodies: ",,",
        damaged: None,
    },
];

// Nothing is cut of a file with damage.
fn check_case(rt: &impl Abort, alloc: Global, disk: &mut MemDisk, case: &Case) -> Result<(), Fail> {
    same(rt, damage(alloc, disk)?, case.damaged);
    if case.damaged.is_none() {
        check_opening(rt, alloc, disk, case.bodies)?;
    } else {
        same(rt, disk.file(alloc, FILE)?.as_slice(), case.file);
    }
    assert!(rt; !disk.starved());
    Ok(())
}

#[test]
fn damage_is_told_where_it_is(rt: HostRuntime) -> Result<(), Fail> {
    let alloc = rt.alloc();
    for case in &CASES {
        check_case(&rt, alloc, &mut disk_with(alloc, case.file)?, case)?;
    }
    Ok(())
}

#[test]
fn each_byte_of_the_header_counts(rt: HostRuntime) -> Result<(), Fail> {
    let alloc = rt.alloc();
    for i in 0..16usize {
        let mut bytes = CREATED.to_vec(alloc)?;
        if let Some(byte) = bytes.get_mut(i) {
            *byte ^= 1;
        }
        let found = damage(alloc, &mut disk_with(alloc, &bytes)?)?;
        same_in(&rt, i, found, Some(0));
    }
    Ok(())
}

// An append on a disk whose call with this number fails, and another. The second makes no call.
fn check_broken(
    rt: &impl Abort,
    alloc: Global,
    disk: &mut MemDisk,
    journal: &mut Journal,
    number: u64,
) -> Result<(), Fail>
    requires { IsUsable journal.old disk.old }
{
    let failed = append(alloc, disk, journal, b"ab")?;
    same(rt, failed, Err(AppendFault::Disk));
    same(rt, disk.calls(), number);
    let refused = append(alloc, disk, journal, b"ab")?;
    same(rt, refused, Err(AppendFault::Broken));
    same(rt, disk.calls(), number);
    Ok(())
}

// Creates a journal on such a disk, where this is a call of the append.
fn append_twice(
    rt: &impl Abort,
    alloc: Global,
    disk: &mut MemDisk,
    number: u64,
) -> Result<(), Fail> {
    let mut journal = create(alloc, disk)?;
    check_broken(rt, alloc, disk, &mut journal, number)
}

fn is_old_or_new(bodies: &[u8]) -> bool {
    bodies == b"z,".as_slice() || bodies == b"z,ab,".as_slice()
}

fn check_failed_append(
    rt: &impl Abort,
    alloc: Global,
    disk: &mut MemDisk,
    number: u64,
) -> Result<(), Fail> {
    append_twice(rt, alloc, disk, number)?;
    for choice in &CHOICES {
        let bodies = reopened(alloc, &mut crashed(alloc, disk, number, choice)?)?;
        holds_in(rt, number, is_old_or_new(&bodies));
    }
    holds_in(rt, number, is_old_or_new(&reopened(alloc, disk)?));
    Ok(())
}

#[test]
fn a_failed_append_breaks_the_journal(rt: HostRuntime) -> Result<(), Fail> {
    let alloc = rt.alloc();
    for number in 4..8u64 {
        check_failed_append(&rt, alloc, &mut failing(alloc, number)?, number)?;
    }
    Ok(())
}

fn is_disk<T: Drop>(answer: Result<T, JournalFault>) -> bool {
    matches!(answer, Err(JournalFault::Disk))
}

#[test]
fn a_failed_create_answers_disk(rt: HostRuntime) -> Result<(), Fail> {
    let alloc = rt.alloc();
    for number in 1..4u64 {
        let mut disk = failing(alloc, number)?;
        assert!(rt; is_disk(create(alloc, &mut disk)));
        same(&rt, disk.calls(), number);
    }
    Ok(())
}

// How many calls it takes to open a journal with two records.
fn calls_of_opening(alloc: Global) -> Result<u64, Fail> {
    let mut disk = disk_with(alloc, APPENDED)?;
    reopened(alloc, &mut disk)?;
    Ok(disk.calls())
}

fn check_failed_opening(
    rt: &impl Abort,
    alloc: Global,
    disk: &mut MemDisk,
    number: u64,
) -> Result<(), Fail> {
    assert!(rt; is_disk(Journal::reopen(alloc, disk, FILE, HEADING)));
    same(rt, disk.calls(), number);
    let bodies = reopened(alloc, disk)?;
    same(rt, bodies.as_slice(), b"z,ab,".as_slice());
    Ok(())
}

#[test]
fn a_failed_reopen_answers_disk(rt: HostRuntime) -> Result<(), Fail> {
    let alloc = rt.alloc();
    for number in 1..=calls_of_opening(alloc)? {
        let fail = only(alloc, number)?;
        let mut disk = disk_with(alloc, APPENDED)?;
        disk.plan(fail, None);
        check_failed_opening(&rt, alloc, &mut disk, number)?;
    }
    Ok(())
}

const BODIES: [&str; 3] = ["a", "", "ccc"];

// The bodies that stand after so many acknowledged records.
const LISTS: [&str; 5] = ["", "z,", "z,a,", "z,a,,", "z,a,,ccc,"];

// Creates a journal, appends three bodies and opens it again, until the disk fails. Answers how many records were
// acknowledged.
fn run(alloc: Global, disk: &mut MemDisk) -> Result<usize, Fail> {
    let Ok(mut journal) = create(alloc, disk) else {
        return Ok(0);
    };
    let mut acknowledged = 1;
    'bodies: for body in &BODIES {
        if append(alloc, disk, &mut journal, body.as_bytes())?.is_err() {
            return Ok(acknowledged);
        }
        acknowledged += 1;
    }
    let _ = Journal::reopen(alloc, disk, FILE, HEADING);
    Ok(acknowledged)
}

// Opens the journal after a crash: the acknowledged records stand in it, and at most one more.
fn check_opened(
    rt: &impl Abort,
    alloc: Global,
    disk: &mut MemDisk,
    acknowledged: usize,
) -> Result<(), Fail> {
    if acknowledged == 0 {
        // Any answer may come.
        let _ = Journal::reopen(alloc, disk, FILE, HEADING);
        return Ok(());
    }
    let bodies = reopened(alloc, disk)?;
    let lists = LISTS.get(acknowledged..).unwrap_or(&[]);
    let stands = lists
        .iter()
        .take(2)
        .any(|list| list.as_bytes() == bodies.as_slice());
    assert!(rt; stands);
    Ok(())
}

// Crashes a disk that stopped after so many calls, there and after the call that failed.
fn check_run(
    rt: &impl Abort,
    alloc: Global,
    disk: &MemDisk,
    stop: u64,
    acknowledged: usize,
) -> Result<(), Fail> {
    for after in stop..=disk.calls() {
        for choice in &CHOICES {
            let mut crashed = crashed(alloc, disk, after, choice)?;
            check_opened(rt, alloc, &mut crashed, acknowledged)?;
        }
    }
    Ok(())
}

#[test]
fn crashes_keep_what_was_acknowledged(rt: HostRuntime) -> Result<(), Fail> {
    let alloc = rt.alloc();
    for stop in 0..=calls_of_run(&rt, alloc)? {
        let mut disk = MemDisk::new(alloc);
        stop_after(alloc, &mut disk, stop);
        let acknowledged = run(alloc, &mut disk)?;
        check_run(&rt, alloc, &disk, stop, acknowledged)?;
    }
    Ok(())
}

// How many calls the run takes on a disk that doesn't fail.
fn calls_of_run(rt: &impl Abort, alloc: Global) -> Result<u64, Fail> {
    let mut disk = MemDisk::new(alloc);
    same(rt, run(alloc, &mut disk)?, 4);
    assert!(rt; !disk.starved());
    Ok(disk.calls())
}

// A read of `reopen` over APPENDED that falls short, where the file is damaged then, and the calls that were made: none
// cuts what wasn't read.
struct Short {
    read: ShortRead,
    damaged: u64,
    trace: &'static str,
}

const SHORTS: [Short; 9] = [
    // The header, and no gate and body of it.
    Short {
        read: ShortRead {
            number: 1,
            gives: 15,
        },
        damaged: 0,
        trace: "slr",
    },
    // A gate, and a length behind it.
    Short {
        read: ShortRead {
            number: 2,
            gives: 0,
        },
        damaged: 16,
        trace: "slrr",
    },
    Short {
        read: ShortRead {
            number: 2,
            gives: 1,
        },
        damaged: 16,
        trace: "slrr",
    },
    Short {
        read: ShortRead {
            number: 2,
            gives: 8,
        },
        damaged: 16,
        trace: "slrr",
    },
    // A body.
    Short {
        read: ShortRead {
            number: 3,
            gives: 0,
        },
        damaged: 16,
        trace: "slrrr",
    },
    // The second record, and the last gate.
    Short {
        read: ShortRead {
            number: 4,
            gives: 0,
        },
        damaged: 26,
        trace: "slrrrr",
    },
    Short {
        read: ShortRead {
            number: 4,
            gives: 8,
        },
        damaged: 26,
        trace: "slrrrr",
    },
    Short {
        read: ShortRead {
            number: 5,
            gives: 1,
        },
        damaged: 26,
        trace: "slrrrrr",
    },
    Short {
        read: ShortRead {
            number: 6,
            gives: 0,
        },
        damaged: 37,
        trace: "slrrrrrr",
    },
];

#[test]
fn what_is_read_short_is_damaged(rt: HostRuntime) -> Result<(), Fail> {
    let alloc = rt.alloc();
    for row in &SHORTS {
        let mut disk = UntoldDisk::new(alloc, APPENDED);
        disk.read_short(row.read);
        same_in(
            &rt,
            row.trace,
            damaged_at(alloc, &mut disk),
            Some(row.damaged),
        );
        same_in(&rt, row.damaged, disk.trace(), row.trace.as_bytes());
    }
    Ok(())
}

fn damaged_at(alloc: Global, disk: &mut UntoldDisk) -> Option<u64> {
    match Journal::reopen(alloc, disk, FILE, HEADING) {
        Err(JournalFault::Damaged { at }) => Some(at),
        _ => None,
    }
}

#[test]
fn a_journal_opens_on_a_disk_that_tells_nothing(rt: HostRuntime) -> Result<(), Fail> {
    let alloc = rt.alloc();
    let mut disk = UntoldDisk::new(alloc, APPENDED);
    let (mut journal, bodies) = Journal::reopen(alloc, &mut disk, FILE, HEADING)?;
    check_bodies(&rt, alloc, &bodies)?;
    same(&rt, journal.len(), APPENDED.len() as u64);
    same(&rt, disk.trace(), b"slrrrrrrcs".as_slice());
    journal.reserve(2)?;
    if journal.len() > 1_000_000 {
        return Err(Fail::from("a journal of more than a million bytes"));
    }
    same(&rt, journal.append(&mut disk, b"xy"), Ok(()));
    same(&rt, disk.trace(), b"slrrrrrrcswsws".as_slice());
    Ok(())
}

fn check_bodies(rt: &impl Abort, alloc: Global, bodies: &BlobList) -> Result<(), Fail> {
    let text = list_text(alloc, bodies)?;
    same(rt, text.as_slice(), b"z,ab,".as_slice());
    Ok(())
}

// A sync that fails, counted over a `create` and an append, and the calls that were made: it isn't tried again, and
// nothing is made that stands on it.
struct FailedSync {
    number: u64,
    trace: &'static str,
}

const FAILED_SYNCS: [FailedSync; 3] = [
    FailedSync {
        number: 1,
        trace: "cws",
    },
    FailedSync {
        number: 2,
        trace: "cwsws",
    },
    FailedSync {
        number: 3,
        trace: "cwswsws",
    },
];

// Creates a journal, and appends twice.
fn create_and_append_untold(
    rt: &impl Abort,
    alloc: Global,
    disk: &mut UntoldDisk,
) -> Result<(), Fail> {
    let Ok(mut journal) = Journal::create(alloc, disk, FILE, HEADING, b"z") else {
        return Ok(());
    };
    journal.reserve(2)?;
    same(rt, journal.append(disk, b"ab"), Err(AppendFault::Disk));
    same(rt, journal.append(disk, b"ab"), Err(AppendFault::Broken));
    Ok(())
}

#[test]
fn a_failed_sync_is_not_tried_again(rt: HostRuntime) -> Result<(), Fail> {
    let alloc = rt.alloc();
    for row in &FAILED_SYNCS {
        let mut disk = UntoldDisk::new(alloc, b"");
        disk.fail_sync(row.number);
        create_and_append_untold(&rt, alloc, &mut disk)?;
        same_in(&rt, row.number, disk.trace(), row.trace.as_bytes());
    }
    Ok(())
}

// What wasn't synced isn't read.
#[test]
fn a_failed_sync_ends_an_opening(rt: HostRuntime) {
    for (number, trace) in [(1, "s"), (2, "slrrrrrrcs")] {
        let mut disk = UntoldDisk::new(rt.alloc(), APPENDED);
        disk.fail_sync(number);
        assert!(rt; is_disk(Journal::reopen(rt.alloc(), &mut disk, FILE, HEADING)));
        same(&rt, disk.trace(), trace.as_bytes());
    }
}
