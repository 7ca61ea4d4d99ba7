//! The run on disks of which a call fails.

use crate::forty::Mark;
use crate::runs::{Ran, calls_of_making, failed_run, forty_steps};
use crate::same::{holds_in, same};
use crate::stores::check_store;
use edge_memory::MemDisk;
use std::alloc::Global;
use std::process::Abort;
use std::test::Fail;
use tests_book_fixtures::{CHOICES, Found, crashed, row_text};

// What a crash has left of a disk that had failed: no durable step is lost, and none is there that wasn't committed.
fn check_left(
    rt: &(impl Abort + Alloc<A = Global>),
    row: &str,
    ran: &Ran,
    mark: &Mark,
    left: MemDisk,
) -> Result<(), Fail> {
    let Found::Steps(steps) = check_store(rt, row, ran, left)? else {
        return Err(Fail::from("damage that no crash leaves"));
    };
    holds_in(rt, row, mark.durable <= steps);
    holds_in(rt, row, steps <= mark.committed);
    Ok(())
}

// Crashes of a disk that had failed, after so many calls.
fn check_crashes(
    rt: &(impl Abort + Alloc<A = Global>),
    ran: &Ran,
    mark: &Mark,
    disk: &MemDisk,
    calls: u64,
) -> Result<(), Fail> {
    let alloc = rt.alloc();
    'choices: for (name, choice) in &CHOICES {
        let row = row_text(alloc, "the call that fails,", disk.calls(), *name)?;
        let left = crashed(alloc, disk, calls, choice)?;
        check_left(rt, &row, ran, mark, left)?;
    }
    Ok(())
}

#[test]
fn each_call_fails_in_its_turn(rt: HostRuntime) -> Result<(), Fail> {
    let ran = forty_steps(rt.alloc())?;
    check_each_call(&rt, &ran)
}

fn check_each_call(rt: &(impl Abort + Alloc<A = Global>), ran: &Ran) -> Result<(), Fail> {
    'calls: for before in calls_of_making(&ran.marks)..ran.disk.calls() {
        let call = before.saturating_add(1);
        let (mark, disk) = failed_run(rt.alloc(), call)?;
        check_failed(rt, ran, &mark, &disk, call)?;
    }
    Ok(())
}

// The book makes no further call behind the one that failed.
fn check_failed(
    rt: &(impl Abort + Alloc<A = Global>),
    ran: &Ran,
    mark: &Mark,
    disk: &MemDisk,
    call: u64,
) -> Result<(), Fail> {
    holds_in(rt, call, mark.failed);
    same(rt, disk.calls(), call);
    check_crashes(rt, ran, mark, disk, call.saturating_sub(1))?;
    check_crashes(rt, ran, mark, disk, call)
}
