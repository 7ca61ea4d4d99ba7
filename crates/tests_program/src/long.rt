// Feeds that come in short reads, and that are longer than memory.
use crate::machine::Machine;
use crate::made::Lines;
use crate::world::World;
use std::cell::RefCell;
use std::process::Abort;
use std::test::Fail;
use system_run::run;

const EVENT: &'static [u8] = b"{\"comment\":\"a\"";

struct Row {
    feed: &'static [Lines],
    // How many bytes a read gives.
    most: usize,
    status: u8,
    told: &'static str,
    // How many events are written.
    events: usize,
}

const MOST: usize = 1_048_576;

const ROWS: [Row; 4] = [
    // A byte at a time.
    Row {
        feed: &[Lines {
            head: EVENT,
            spaces: 3,
            tail: b"}\n",
            times: 40,
        }],
        most: 1,
        status: 0,
        told: "",
        events: 40,
    },
    Row {
        feed: &[
            Lines {
                head: EVENT,
                spaces: 0,
                tail: b"}\n",
                times: 2,
            },
            Lines {
                head: b"no",
                spaces: 0,
                tail: b"\n",
                times: 1,
            },
            Lines {
                head: EVENT,
                spaces: 0,
                tail: b"}\n",
                times: 1,
            },
        ],
        most: 1,
        status: 17,
        told: "intelpipe: bad line 3\n",
        events: 2,
    },
    // 65 MiB, in lines of 1,024 bytes; each comes in a read of its own.
    Row {
        feed: &[
            Lines {
                head: EVENT,
                spaces: 1008,
                tail: b"}\n",
                times: 66_560,
            },
            Lines {
                head: b"no",
                spaces: 0,
                tail: b"\n",
                times: 1,
            },
        ],
        most: MOST,
        status: 17,
        told: "intelpipe: bad line 66561\n",
        events: 66_560,
    },
    // A line that ends at offset 1,073,741,824 is converted; one behind it is no bad line.
    Row {
        feed: &[
            Lines {
                head: EVENT,
                spaces: 1_048_560,
                tail: b"}\n",
                times: 1024,
            },
            Lines {
                head: b"no",
                spaces: 0,
                tail: b"\n",
                times: 1,
            },
        ],
        most: MOST,
        status: 13,
        told: "intelpipe: long feed convert\n",
        events: 1024,
    },
];

// Converts the feed, and looks at what is printed.
fn check_printed(rt: &impl Abort, machine: &Machine, row: &Row) -> Result<(), Fail> {
    assert_eq!(rt; run(machine, false), row.status, "{}", row.told);
    let told = machine.told.try_borrow()?;
    assert_eq!(rt; told.as_slice(), row.told.as_bytes());
    let output = machine.output.try_borrow()?;
    let event = b"{\"__type\":\"Event\",\"comment\":\"a\"}\n";
    assert_eq!(rt;
        output.len(),
        row.events.saturating_mul(event.len()),
        "{}",
        row.told
    );
    assert!(rt; output.starts_with(event), "{}", row.told);
    Ok(())
}

#[test]
fn feeds_in_short_reads_and_longer_than_memory(rt: HostRuntime) -> Result<(), Fail> {
    let alloc = rt.alloc();
    for row in &ROWS {
        let world = RefCell::new(World::new(alloc, row.feed)?);
        let words = "intelpipe any convert --feed made.json";
        check_printed(&rt, &Machine::new(alloc, words, &world, row.most), row)?;
    }
    Ok(())
}
