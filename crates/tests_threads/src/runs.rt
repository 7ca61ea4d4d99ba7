//! What `run` comes to.
use crate::lines::are_same_lines;
use crate::meeting::MeetGate;
use crate::pipelines::{Files, ONE_BAD_LINE, TWO_FEEDS};
use crate::playing::{command, empty_disk, output, shelf_of};
use edge_memory::NoGate;
use edge_traits::Gate;
use std::alloc::Global;
use std::sync::Wait;
use std::test::Fail;
use std::thread::Threads;

// What a store of these files comes to by a command, and its audit; and the lines of its first output.
fn made_by<T: Threads + Wait + Sync, G: Gate + Sync>(
    rt: &T,
    alloc: Global,
    files: Files,
    line: &str,
    gate: &G,
) -> Result<(String, Vec<u8>), Fail> {
    let mut shelf = shelf_of(alloc, files)?;
    let mut disk = empty_disk(alloc);
    let init = "init --bundle bundle.json";
    command(rt, alloc, init, &mut shelf, &mut disk, gate)?;
    let made = command(rt, alloc, line, &mut shelf, &mut disk, gate)?;
    let audit = command(rt, alloc, "audit", &mut shelf, &mut disk, gate)?;
    let all = format!(in alloc; "{}{}", made.as_str(), audit.as_str())?;
    Ok((all, output(alloc, &disk)?))
}

// 18 events of 10 reports: a start, 10 pieces, 2 ends of feeds, and two steps for each of 28 messages.
const TWO_FEEDS_DONE: &str =
    "done\nsteps 69\nbundle 1\nmessages 28\nwaiting 0\nin hand 0\ndumped 0\nprocessed 28\nlines 18\ndone\nlegal 69\n";

// The first bot that comes to its rules is held until another has committed a step: bots work at once.
#[test]
fn two_bots_meet(rt: HostRuntime) -> Result<(), Fail> {
    let gate = MeetGate::new(&rt);
    let (told, _) = made_by(&rt, rt.alloc(), TWO_FEEDS, "run", &gate)?;
    assert!(rt; gate.have_met(), "no other bot committed a step");
    assert_eq!(rt; told.as_str(), TWO_FEEDS_DONE);
    Ok(())
}

// 4 events and a dump of a report: a start, a piece, the end of the feed, and two steps for each of 5 messages; a dump is a sixth.
const ONE_BAD_LINE_DONE: &str =
    "done\nsteps 13\nbundle 1\nmessages 6\nwaiting 0\nin hand 0\ndumped 1\nprocessed 5\nlines 4\ndone\nlegal 13\n";

const PIPELINES: [(Files, &str); 2] = [
    (TWO_FEEDS, TWO_FEEDS_DONE),
    (ONE_BAD_LINE, ONE_BAD_LINE_DONE),
];

#[test]
fn a_run_comes_to_what_a_drain_comes_to(rt: HostRuntime) -> Result<(), Fail> {
    let alloc = rt.alloc();
    for (files, want) in PIPELINES {
        let (told, lines) = made_by(&rt, alloc, files, "run", &NoGate)?;
        let (drained, in_order) = made_by(&rt, alloc, files, "drain", &NoGate)?;
        assert_eq!(rt; told.as_str(), want);
        assert_eq!(rt; drained.as_str(), want);
        assert!(rt;
            are_same_lines(lines.as_slice(), in_order.as_slice()),
            "other lines"
        );
        assert!(rt; !lines.is_empty(), "no lines");
    }
    Ok(())
}
