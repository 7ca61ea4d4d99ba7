//! The adapters, and the whole program over a system in memory.
use crate::machine::Machine;
use crate::world::World;
use base_types::Text;
use edge_traits::{Clock, Shelf, Sink, Source};
use std::alloc::Global;
use std::cell::RefCell;
use std::io::{self, Write};
use std::process::Abort;
use std::test::Fail;
use system_run::{FileShelf, SystemClock, WriterSink, run};
use table_lines::{escaped, unescaped};

// The words of a command line and, behind `<`, what the file `feed.json` has; then the status, and what is printed to standard output and
// to standard error, with escapes. Another process works on the store in the folder `busy`.
const RUNS: &str =
    r#"intelpipe any convert --feed feed.json < {"comment":" a "}\n\n{"status":"on"}\n => 0 [{"__type":"Event","comment":"a"}\n{"__type":"Event","status":"on"}\n] []
intelpipe any convert --feed feed.json < {"source.port":"80","extra":{"seen":[1,1.50]}}\n{"source.port":70000}\n => 17 [{"__type":"Event","extra.seen":[1,1.5],"source.port":80}\n] [intelpipe: bad line 2\n]
intelpipe any convert --feed feed.json < {"comment":"a"}\n[\n{"comment":"b"}\n => 17 [{"__type":"Event","comment":"a"}\n] [intelpipe: bad line 2\n]
intelpipe any convert --feed other.json < => 4 [] [intelpipe: feed other.json failed\n]
intelpipe any check --bundle feed.json < {} => 0 [ok 0 bots\n] []
intelpipe any check --bundle feed.json < {"a":{"module":"expert.none"}} => 3 [] [intelpipe: config 2 a\n]
intelpipe any drain < => 14 [] [intelpipe: store 0\n]
intelpipe busy status < => 5 [] [intelpipe: disk\n]
intelpipe busy drain < => 5 [] [intelpipe: disk\n]
intelpipe any status --steps 3 < => 2 [] [intelpipe: words\n]
intelpipe --version < => 0 [intelpipe 0.1.0\n] []
intelpipe --version --help < => 2 [] [intelpipe: words\n]
intelpipe < => 2 [] [intelpipe: words\n]
intelpipe convert --feed feed.json < => 2 [] [intelpipe: words\n]
 < => 2 [] [intelpipe: words\n]"#;

fn printed(all: &RefCell<Vec<u8>>, alloc: Global) -> Result<String, Fail> {
    Ok(escaped(alloc, &all.try_borrow()?)?)
}

// The status and what is printed, where the files are read three bytes at a time.
fn outcome<'w>(alloc: Global, words: &'w str, world: &'w RefCell<World>) -> Result<String, Fail> {
    let machine = Machine::new(alloc, words, world, 3);
    let status = run(&machine, false);
    let output = printed(&machine.output, alloc)?;
    let told = printed(&machine.told, alloc)?;
    Ok(format!(in alloc; "{status} [{output}] [{told}]")?)
}

fn check_run(rt: &impl Abort, alloc: Global, row: &str) -> Result<(), Fail> {
    let Some((case, wanted)) = row.split_once("=> ") else {
        return Err(Fail::from("a row without a status"));
    };
    let Some((words, content)) = case.split_once('<') else {
        return Err(Fail::from("a row without a file"));
    };
    let content = unescaped(alloc, content.trim())?;
    let mut world = World::new(alloc, &[])?;
    world.put(alloc, "feed.json", &content)?;
    let found = outcome(alloc, words, &RefCell::new(world))?;
    assert_eq!(rt; found.as_str(), wanted);
    Ok(())
}

#[test]
fn runs_of_the_program(rt: HostRuntime) -> Result<(), Fail> {
    for row in RUNS.lines() {
        check_run(&rt, rt.alloc(), row)?;
    }
    Ok(())
}

// The numbers of the statuses, each as the help has it.
const STATUSES: &str = "0 1 2 3 4 5 6 7 8 9 10 11 12 13 14 15 16 17 18";

#[test]
fn help_names_each_status(rt: HostRuntime) -> Result<(), Fail> {
    let alloc = rt.alloc();
    let world = RefCell::new(World::new(alloc, &[])?);
    let help = outcome(alloc, "intelpipe --help", &world)?;
    for number in STATUSES.split(' ') {
        let line = format!(in alloc; "\\n{number:>4} ")?;
        assert!(rt; help.contains(line.as_str()), "{number}");
    }
    Ok(())
}

#[test]
fn a_file_is_read_in_order_and_from_any_offset(rt: HostRuntime) -> Result<(), Fail> {
    let mut world = World::new(rt.alloc(), &[])?;
    world.put(rt.alloc(), "feed.json", b"abcdefgh")?;
    let world = RefCell::new(world);
    let machine = Machine::new(rt.alloc(), "", &world, 3);
    let mut shelf = FileShelf::new(rt.alloc(), &machine);
    let name = Text::new(rt.alloc(), b"feed.json")?;
    let Ok(mut source) = shelf.fetch(rt.alloc(), &name) else {
        return Err(Fail::from("no file"));
    };
    let mut buf = [0u8; 4];
    'reads: for (at, wanted) in [
        (0, "abc"),
        (3, "def"),
        (1, "bcd"),
        (6, "gh"),
        (8, ""),
        (0, "abc"),
    ] {
        let n = source.read_at(at, &mut buf).unwrap_or(9);
        assert_eq!(rt;
            buf.get(..n).unwrap_or(b"failed"),
            wanted.as_bytes(),
            "at {at}"
        );
    }
    shelf.take_back(&name, source);
    Ok(())
}

// A writer that takes two bytes at a time, and nothing once it holds six.
#[derive(Drop)]
struct Narrow {
    held: Vec<u8>,
}

impl Write for Narrow {
    fn write(&mut self, buf: &[u8]) -> io::Result<usize> {
        if self.held.len() >= 6 {
            return Ok(0);
        }
        let few = buf.len().min(2);
        self.held.extend_from_slice(&buf[..few])?;
        Ok(few)
    }

    fn flush(&mut self) -> io::Result<()> {
        Ok(())
    }
}

#[test]
fn a_sink_tells_how_much_its_writer_took(rt: HostRuntime) {
    let held = Vec::new(rt.alloc());
    let mut sink = WriterSink::new(Narrow { held });
    for (bytes, wanted) in [
        ("abc", Some(2)),
        ("c", Some(1)),
        ("", Some(0)),
        ("def", Some(2)),
        ("fg", Some(2)),
        ("h", None),
    ] {
        assert_eq!(rt; sink.write(bytes.as_bytes()).ok(), wanted, "{bytes}");
    }
}

#[test]
fn a_clock_counts_whole_seconds(rt: HostRuntime) -> Result<(), Fail> {
    let world = RefCell::new(World::new(rt.alloc(), &[])?);
    let machine = Machine::new(rt.alloc(), "", &world, 3);
    assert_eq!(rt; SystemClock::new(&machine).now(), 1_700_000_000);
    Ok(())
}

// Whether standard error is a terminal, and what is told there where a bad line of two bytes is converted and each look at the clock takes a
// second.
const TOLD: [(bool, &str); 2] = [
    (false, "intelpipe: bad line 1\n"),
    (
        true,
        "\r\x1b[Kfeed.json 0 bytes, 1 s\r\x1b[Kfeed.json 2 bytes, 2 s\r\x1b[Kintelpipe: bad line 1\n",
    ),
];

#[test]
fn a_long_command_says_on_a_terminal_how_far_it_is(rt: HostRuntime) -> Result<(), Fail> {
    let mut world = World::new(rt.alloc(), &[])?;
    world.put(rt.alloc(), "feed.json", b"[\n")?;
    let world = RefCell::new(world);
    'rows: for (is_terminal, wanted) in TOLD {
        let words = "intelpipe any convert --feed feed.json";
        let machine = Machine::new(rt.alloc(), words, &world, 3).with_pace(1);
        assert_eq!(rt; run(&machine, is_terminal), 17);
        let told = machine.told.try_borrow()?;
        assert_eq!(rt; told.as_slice(), wanted.as_bytes(), "{is_terminal}");
    }
    Ok(())
}
