//! A disk that fails within a run.
use crate::lines::are_same_lines;
use crate::pipelines::ONE_BAD_LINE;
use crate::playing::{command, empty_disk, output, shelf_of};
use base_types::NumberList;
use edge_memory::NoGate;
use std::alloc::Global;
use std::sync::Wait;
use std::test::Fail;
use std::thread::Threads;

// No run of the pipeline makes more calls of its disk.
const MOST_CALLS: u64 = 30;

// So many of its first calls are made in every run.
const LEAST_CALLS: u64 = 8;

// What came of a run of which a call of the disk failed, of the run behind it, and of an audit; and the lines.
#[derive(Drop)]
struct Two {
    first: String,
    second: String,
    audit: String,
    lines: Vec<u8>,
}

// The call of this number of a run fails, from 1; 0 is none.
fn two_runs<T: Threads + Wait + Sync>(rt: &T, alloc: Global, call: u64) -> Result<Two, Fail> {
    let mut shelf = shelf_of(alloc, ONE_BAD_LINE)?;
    let mut disk = empty_disk(alloc);
    let init = "init --bundle bundle.json";
    command(rt, alloc, init, &mut shelf, &mut disk, &NoGate)?;
    let mut fail = NumberList::new(alloc);
    if call > 0 && fail.push(disk.calls().saturating_add(call)).is_err() {
        return Err(Fail::from("memory"));
    }
    disk.plan(fail, None);
    let first = command(rt, alloc, "run", &mut shelf, &mut disk, &NoGate)?;
    disk.plan(NumberList::new(alloc), None);
    let second = command(rt, alloc, "run", &mut shelf, &mut disk, &NoGate)?;
    let audit = command(rt, alloc, "audit", &mut shelf, &mut disk, &NoGate)?;
    let lines = output(alloc, &disk)?;
    Ok(Two {
        first,
        second,
        audit,
        lines,
    })
}

// Whichever call of the disk fails, the run says so, and the next one goes on: no event is lost or doubled.
#[test]
fn no_failed_call_loses_an_event(rt: HostRuntime) -> Result<(), Fail> {
    let alloc = rt.alloc();
    let whole = two_runs(&rt, alloc, 0)?;
    for call in 1..=MOST_CALLS {
        let two = two_runs(&rt, alloc, call)?;
        let failed = two.first.as_str() == "disk\n";
        assert!(rt;
            failed || two.first.as_str() == whole.first.as_str(),
            "call {call}: {}",
            two.first.as_str()
        );
        assert!(rt; failed || call > LEAST_CALLS, "call {call} was not told");
        assert!(rt;
            two.second.as_str().ends_with(
                "messages 6\nwaiting 0\nin hand 0\ndumped 1\nprocessed 5\nlines 4\n"
            ),
            "call {call}: {}",
            two.second.as_str()
        );
        assert!(rt;
            two.audit.as_str().starts_with("done\nlegal "),
            "call {call}: {}",
            two.audit.as_str()
        );
        assert!(rt;
            are_same_lines(two.lines.as_slice(), whole.lines.as_slice()),
            "call {call}: other lines"
        );
    }
    Ok(())
}
