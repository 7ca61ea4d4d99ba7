//! Stores whose first state has sealed lines, with an output's file of every length.

use crate::same::same_in;
use base_types::Blob;
use disk_journal::{Heading, Journal};
use edge_memory::MemDisk;
use edge_traits::Disk;
use journal_book::BookFault;
use std::alloc::Global;
use std::process::Abort;
use std::test::Fail;
use step_code::encode_base;
use tests_book_fixtures::{Found, GENERATION, OUT, ROOT, complete, put_file, reopen};
use tests_rules::TinyRules;
use tests_tables::read_state;

// Two lines of the output are sealed, of seven bytes together, and two stand behind them.
const STATE: &str =
    "9 steps, next 5 1, at 100, 1 tiny; out write 7 2: cc dd; feed collect 1 4 finished";

const SEALED: &[u8] = b"aaa\nbb\n";

const WHOLE: &[u8] = b"aaa\nbb\ncc\ndd\n";

pub fn make_file<D: Disk>(alloc: Global, disk: &mut D, file: u64, body: &[u8]) -> Result<(), Fail> {
    if body.len() > 1_000_000 {
        return Err(Fail::from("a long state"));
    }
    let heading = Heading {
        format: 1,
        generation: 0,
    };
    match Journal::create(alloc, disk, file, heading, body) {
        Ok(_) => Ok(()),
        Err(_) => Err(Fail::from("the disk")),
    }
}

fn state(alloc: Global) -> Result<Blob, Fail> {
    Ok(encode_base(alloc, &read_state(alloc, STATE)?)?)
}

// A store whose output's file has these bytes.
fn store_with(alloc: Global, output: &[u8]) -> Result<MemDisk, Fail> {
    let mut disk = MemDisk::new(alloc);
    make_file(alloc, &mut disk, GENERATION, state(alloc)?.bytes())?;
    make_file(alloc, &mut disk, ROOT, &[0; 8])?;
    put_file(&mut disk, OUT, output)?;
    Ok(disk)
}

// Opening finds an output of this length to be damaged, and its file is not completed.
fn check_short(rt: &(impl Abort + Alloc<A = Global>), len: usize) -> Result<(), Fail> {
    let alloc = rt.alloc();
    let output = SEALED.get(..len).unwrap_or(SEALED);
    let at = len as u64;
    let (seen, disk) = reopen(alloc, store_with(alloc, output)?, TinyRules);
    let seen = seen?;
    let (end, disk) = complete(alloc, disk, TinyRules);
    same_in(rt, len, end, Err(BookFault::Damaged { file: OUT, at }));
    let left = disk.file(alloc, OUT)?;
    same_in(rt, len, left.as_slice(), output);
    same_in(rt, len, seen.found, Found::Damaged { file: OUT, at });
    Ok(())
}

#[test]
fn an_output_shorter_than_what_is_sealed_is_damage(rt: HostRuntime) -> Result<(), Fail> {
    'lengths: for len in 0..SEALED.len() {
        check_short(&rt, len)?;
    }
    Ok(())
}

// The sealed lines, more of what is written, all of it, and other bytes behind them.
const OUTPUTS: [&str; 4] = [
    "aaa\nbb\n",
    "aaa\nbb\nc",
    "aaa\nbb\ncc\ndd\n",
    "aaa\nbb\nxxxxxxxxxxxxxxxxxxxxxxxx",
];

#[test]
fn an_output_is_completed_behind_what_is_sealed(rt: HostRuntime) -> Result<(), Fail> {
    'outputs: for output in &OUTPUTS {
        check_completed(&rt, *output)?;
    }
    Ok(())
}

fn check_completed(rt: &(impl Abort + Alloc<A = Global>), output: &str) -> Result<(), Fail> {
    let alloc = rt.alloc();
    let (seen, disk) = reopen(alloc, store_with(alloc, output.as_bytes())?, TinyRules);
    let seen = seen?;
    let (end, disk) = complete(alloc, disk, TinyRules);
    same_in(rt, output, end, Ok(()));
    let left = disk.file(alloc, OUT)?;
    same_in(rt, output, left.as_slice(), WHOLE);
    same_in(rt, output, seen.found, Found::Steps(9));
    Ok(())
}
