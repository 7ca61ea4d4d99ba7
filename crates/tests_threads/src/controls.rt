//! Runs that follow a control.
use crate::pipelines::{Files, ONE_BAD_LINE, TWO_FEEDS};
use crate::playing::{Lines, command, controlled, empty_disk, shelf_of};
use edge_memory::NoGate;
use std::alloc::Global;
use std::sync::Wait;
use std::test::Fail;
use std::thread::Threads;

// A command on a store, and a run behind it: its words, what control says, whether control can't be read, and which write of the output
// fails (0: none). What is printed, behind the name of the status, and how many steps the audit behind it finds.
struct Row {
    files: Files,
    before: &'static str,
    words: &'static str,
    control: &'static str,
    unread: bool,
    write: u64,
    told: &'static str,
    audit: &'static str,
}

const INIT: &str = "init --bundle bundle.json";

const ROWS: [Row; 10] = [
    // Lines are answered in order, and the run ends at `stop`: its start is its one step.
    Row {
        files: ONE_BAD_LINE,
        before: "status",
        words: "run",
        control: "reload none.json\nwhat\nstop\n",
        unread: false,
        write: 0,
        told: "stopped 1\ncontrol 1 absent\ncontrol 2 bad\ncontrol 3 stop\nsteps 1\nbundle 1\nmessages 0\nwaiting 0\nin hand 0\ndumped 0\nprocessed 0\nlines 0\n",
        audit: "done\nlegal 1\n",
    },
    Row {
        files: ONE_BAD_LINE,
        before: "status",
        words: "run --stay yes",
        control: "stop\n",
        unread: false,
        write: 0,
        told: "stopped 1\ncontrol 1 stop\nsteps 1\nbundle 1\nmessages 0\nwaiting 0\nin hand 0\ndumped 0\nprocessed 0\nlines 0\n",
        audit: "done\nlegal 1\n",
    },
    // A rest without a newline is no line.
    Row {
        files: ONE_BAD_LINE,
        before: "status",
        words: "run",
        control: "stop",
        unread: false,
        write: 0,
        told: "done\nsteps 13\nbundle 1\nmessages 6\nwaiting 0\nin hand 0\ndumped 1\nprocessed 5\nlines 4\n",
        audit: "done\nlegal 13\n",
    },
    // The bundle that is put in force is the same again.
    Row {
        files: ONE_BAD_LINE,
        before: "status",
        words: "run",
        control: "reload bundle.json\n",
        unread: false,
        write: 0,
        told: "done\ncontrol 1 reload\nsteps 14\nbundle 2\nmessages 6\nwaiting 0\nin hand 0\ndumped 1\nprocessed 5\nlines 4\n",
        audit: "done\nlegal 14\n",
    },
    // No collector has finished yet, so there is no round.
    Row {
        files: TWO_FEEDS,
        before: "status",
        words: "run",
        control: "round\n",
        unread: false,
        write: 0,
        told: "done\ncontrol 1 round\nsteps 69\nbundle 1\nmessages 28\nwaiting 0\nin hand 0\ndumped 0\nprocessed 28\nlines 18\n",
        audit: "done\nlegal 69\n",
    },
    // The steps may be spent by a reload.
    Row {
        files: ONE_BAD_LINE,
        before: "status",
        words: "run --steps 2",
        control: "reload bundle.json\nreload bundle.json\n",
        unread: false,
        write: 0,
        told: "stopped 2\ncontrol 1 reload\ncontrol 2 reload\nsteps 2\nbundle 2\nmessages 0\nwaiting 0\nin hand 0\ndumped 0\nprocessed 0\nlines 0\n",
        audit: "done\nlegal 2\n",
    },
    Row {
        files: ONE_BAD_LINE,
        before: "status",
        words: "run",
        control: "reload feed.csv\n",
        unread: false,
        write: 0,
        told: "done\ncontrol 1 config 1\nsteps 13\nbundle 1\nmessages 6\nwaiting 0\nin hand 0\ndumped 1\nprocessed 5\nlines 4\n",
        audit: "done\nlegal 13\n",
    },
    // A bundle without the bot that has a message in its hand: the message goes back to the front of its queue, and stays there.
    Row {
        files: ONE_BAD_LINE,
        before: "drain --steps 3",
        words: "run --reload less.json",
        control: "",
        unread: false,
        write: 0,
        told: "done\nsteps 6\nbundle 2\nmessages 1\nwaiting 1\nin hand 0\ndumped 0\nprocessed 0\nlines 0\n",
        audit: "done\nlegal 6\n",
    },
    // Where the output fails at an answer, no further line is taken, and no summary is printed; the order isn't carried out.
    Row {
        files: ONE_BAD_LINE,
        before: "status",
        words: "run",
        control: "what\nreload bundle.json\nstop\n",
        unread: false,
        write: 2,
        told: "sink\ncontrol 1 bad\n",
        audit: "done\nlegal 1\n",
    },
    // Where control can't be read, the run ends behind its start.
    Row {
        files: ONE_BAD_LINE,
        before: "status",
        words: "run",
        control: "stop\n",
        unread: true,
        write: 0,
        told: "feed control failed\nsteps 1\nbundle 1\nmessages 0\nwaiting 0\nin hand 0\ndumped 0\nprocessed 0\nlines 0\n",
        audit: "done\nlegal 1\n",
    },
];

// What came of a row's run, and of an audit behind it.
fn played<T: Threads + Wait + Sync>(
    rt: &T,
    alloc: Global,
    row: &Row,
) -> Result<(String, String), Fail> {
    let mut shelf = shelf_of(alloc, row.files)?;
    let mut disk = empty_disk(alloc);
    command(rt, alloc, INIT, &mut shelf, &mut disk, &NoGate)?;
    command(rt, alloc, row.before, &mut shelf, &mut disk, &NoGate)?;
    let mut control = Lines {
        text: row.control,
        unread: row.unread,
        faults: 0,
    };
    let told = controlled(
        rt,
        alloc,
        row.words,
        &mut control,
        &mut shelf,
        &mut disk,
        row.write,
        &NoGate,
    )?;
    let audit = command(rt, alloc, "audit", &mut shelf, &mut disk, &NoGate)?;
    Ok((told, audit))
}

#[test]
fn control_is_followed(rt: HostRuntime) -> Result<(), Fail> {
    for row in &ROWS {
        let (told, audit) = played(&rt, rt.alloc(), row)?;
        assert_eq!(rt; told.as_str(), row.told, "{}", row.control);
        assert_eq!(rt; audit.as_str(), row.audit, "{}", row.control);
    }
    Ok(())
}
