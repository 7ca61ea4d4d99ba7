//! Crashes of the run after each call of its disk, and crashes while what they left is opened.

use crate::runs::{Ran, bounds, calls_of_making, forty_steps};
use crate::same::same_in;
use crate::stores::{check_store, files_of};
use edge_memory::{Choice, MemDisk};
use std::alloc::Global;
use std::process::Abort;
use std::test::Fail;
use tests_book_fixtures::{
    CHOICES, Found, KEPT, LONGEST, SHORTEST, copy_of, crashed, reopen, row_text,
};
use tests_rules::TinyRules;

// A crash after so many calls leaves the steps that were durable before the part under way, or also those that it makes durable.
// Answers how many of the crashes leave these.
fn check_crashes(
    rt: &(impl Abort + Alloc<A = Global>),
    ran: &Ran,
    calls: u64,
) -> Result<u64, Fail> {
    let alloc = rt.alloc();
    let (least, most) = bounds(&ran.marks, calls);
    let mut more = 0u64;
    'choices: for (name, choice) in &CHOICES {
        let row = row_text(alloc, "a crash after so many calls,", calls, *name)?;
        let found = check_store(rt, &row, ran, crashed(alloc, &ran.disk, calls, choice)?)?;
        if found != Found::Steps(least) {
            same_in(rt, row.as_str(), found, Found::Steps(most));
            more = more.saturating_add(1);
        }
    }
    Ok(more)
}

#[test]
fn a_crash_after_each_call_leaves_a_front_of_the_steps(rt: HostRuntime) -> Result<(), Fail> {
    let ran = forty_steps(rt.alloc())?;
    check_each_crash(&rt, &ran)
}

fn check_each_crash(rt: &(impl Abort + Alloc<A = Global>), ran: &Ran) -> Result<(), Fail> {
    let mut more = 0u64;
    'calls: for calls in calls_of_making(&ran.marks)..=ran.disk.calls() {
        more = more.saturating_add(check_crashes(rt, ran, calls)?);
    }

    // Each of ten flushes has a crash that leaves its record before it has ended.
    assert!(rt; more >= 10);
    Ok(())
}

// Whether opening changed a file of the store.
fn is_changed(alloc: Global, left: &MemDisk, opened: &MemDisk) -> Result<bool, Fail> {
    let left = files_of(alloc, left)?;
    let opened = files_of(alloc, opened)?;
    Ok(left.root != opened.root || left.generation != opened.generation)
}

// The crashes of an opening that are tried.
const AGAIN: [(&str, Choice); 3] = [
    ("kept", KEPT),
    ("short, closed gates", SHORTEST),
    ("long, open gates", LONGEST),
];

// A crash after so many calls of an opening leaves a store in which the same is found.
fn check_again(
    rt: &(impl Abort + Alloc<A = Global>),
    outer: &str,
    ran: &Ran,
    opened: &MemDisk,
    calls: u64,
    want: Found,
) -> Result<(), Fail> {
    let alloc = rt.alloc();
    'choices: for (name, choice) in &AGAIN {
        let row = row_text(alloc, outer, calls, *name)?;
        let found = check_store(rt, &row, ran, crashed(alloc, opened, calls, choice)?)?;
        same_in(rt, row.as_str(), found, want);
    }
    Ok(())
}

// Opening what a crash has left crashes after each of its calls. Where it changes no file there is nothing to be seen. Answers
// whether it did.
fn check_opening(
    rt: &(impl Abort + Alloc<A = Global>),
    row: &str,
    ran: &Ran,
    left: &MemDisk,
) -> Result<bool, Fail> {
    let alloc = rt.alloc();
    let (seen, opened) = reopen(alloc, copy_of(alloc, left)?, TinyRules);
    let want = seen?.found;
    check_opened(rt, row, ran, left, &opened, want)
}

fn check_opened(
    rt: &(impl Abort + Alloc<A = Global>),
    row: &str,
    ran: &Ran,
    left: &MemDisk,
    opened: &MemDisk,
    want: Found,
) -> Result<bool, Fail> {
    if !is_changed(rt.alloc(), left, opened)? {
        return Ok(false);
    }
    'calls: for calls in 0..=opened.calls() {
        check_again(rt, row, ran, opened, calls, want)?;
    }
    Ok(true)
}

// Opens what crashes after so many calls have left. Answers how many of the openings changed a file.
fn check_openings(
    rt: &(impl Abort + Alloc<A = Global>),
    ran: &Ran,
    calls: u64,
) -> Result<u64, Fail> {
    let alloc = rt.alloc();
    let mut changed = 0u64;
    'choices: for (name, choice) in &CHOICES {
        let row = row_text(alloc, "a crash after so many calls,", calls, *name)?;
        if check_opening(rt, &row, ran, &crashed(alloc, &ran.disk, calls, choice)?)? {
            changed = changed.saturating_add(1);
        }
    }
    Ok(changed)
}

#[test]
fn a_crash_while_a_store_is_opened_changes_no_step(rt: HostRuntime) -> Result<(), Fail> {
    let ran = forty_steps(rt.alloc())?;
    check_each_opening(&rt, &ran)
}

fn check_each_opening(rt: &(impl Abort + Alloc<A = Global>), ran: &Ran) -> Result<(), Fail> {
    let mut changed = 0u64;
    'calls: for calls in calls_of_making(&ran.marks)..=ran.disk.calls() {
        changed = changed.saturating_add(check_openings(rt, ran, calls)?);
    }

    // Each of ten flushes has a crash that leaves bytes behind a closed gate, which opening cuts.
    assert!(rt; changed >= 10);
    Ok(())
}
