ghost use Rattle.std.specs.Prelude.{None};
ghost use Rattle.live_reload.specs.Live.{Follows};

use base_types::{Blob, NumberList, Text};
use edge_memory::{MemShelf, MemSink};
use edge_traits::{Failed, Shelf, Sink, Source};
use live_reload::{Control, LiveOrders, Order, OrdersEnd, read_control};
use std::alloc::Global;
use std::process::Abort;
use std::test::Fail;

// What stands in control, which read of it and which write of an answer fails (0: none), what is printed, and the orders that are
// given when one more is asked for than there are lines: a bundle put in force, a round, a stop, nothing, a failure.
struct Row {
    control: &'static str,
    read: u64,
    write: u64,
    printed: &'static str,
    orders: &'static str,
    end: OrdersEnd,
}

// A control that doesn't tell its content, of which the read of this number fails (0: none).
#[derive(Drop)]
struct Lines {
    content: Blob,
    fail: u64,
    reads: u64,
    faults: u64,
}

impl Source for Lines {
    ghost source = { λ lines. record { name = None; told = None; faults = lines.faults } };

    fn read_at(&mut self, at: u64, buf: &mut [u8]) -> Result<usize, Failed> {
        self.reads = self.reads.saturating_add(1);
        if self.reads == self.fail {
            self.faults = self.faults.saturating_add(1);
            return Err(Failed);
        }
        let bytes = self.content.bytes();
        if at >= bytes.len() as u64 {
            return Ok(0);
        }
        let rest = &bytes[at as usize..];
        let n = rest.len().min(buf.len());
        buf[..n].copy_from_slice(&rest[..n]);
        Ok(n)
    }
}

const LOADS: &str = r#"{"w":{"module":"output.file"}}"#;

const CYCLE: &str =
    r#"{"a":{"module":"expert.taxonomy","destination_queues":{"_default":["b-queue"]}},"b":{"module":"expert.taxonomy","destination_queues":{"_default":["w-queue"],"_on_error":["a-queue"]}},"w":{"module":"output.file"}}"#;

const ROWS: [Row; 13] = [
    Row {
        control: "",
        read: 0,
        write: 0,
        printed: "",
        orders: "n",
        end: OrdersEnd::AtEnd,
    },
    Row {
        control: "stop",
        read: 0,
        write: 0,
        printed: "",
        orders: "n",
        end: OrdersEnd::AtEnd,
    },
    Row {
        control: "stop\n",
        read: 0,
        write: 0,
        printed: "control 1 stop\n",
        orders: "sn",
        end: OrdersEnd::AtEnd,
    },
    Row {
        control: "reload none.json\nwhat\nstop\n",
        read: 0,
        write: 0,
        printed: "control 1 absent\ncontrol 2 bad\ncontrol 3 stop\n",
        orders: "nnsn",
        end: OrdersEnd::AtEnd,
    },
    Row {
        control: "reload b.json\nround\nrest",
        read: 0,
        write: 0,
        printed: "control 1 reload\ncontrol 2 round\n",
        orders: "brn",
        end: OrdersEnd::AtEnd,
    },
    Row {
        control: "reload cycle.json\n",
        read: 0,
        write: 0,
        printed: "control 1 config 8\n",
        orders: "nn",
        end: OrdersEnd::AtEnd,
    },
    Row {
        control: "reload lacks.json\n",
        read: 0,
        write: 0,
        printed: "control 1 config 1\n",
        orders: "nn",
        end: OrdersEnd::AtEnd,
    },
    Row {
        control: "reload failing.json\n",
        read: 0,
        write: 0,
        printed: "control 1 failed\n",
        orders: "nn",
        end: OrdersEnd::AtEnd,
    },
    Row {
        control: "\n",
        read: 0,
        write: 0,
        printed: "control 1 bad\n",
        orders: "nn",
        end: OrdersEnd::AtEnd,
    },
    Row {
        control: "reload \nreload\nstop \n",
        read: 0,
        write: 0,
        printed: "control 1 bad\ncontrol 2 bad\ncontrol 3 bad\n",
        orders: "nnnn",
        end: OrdersEnd::AtEnd,
    },
    Row {
        control: "stop\r\nStop\n",
        read: 0,
        write: 0,
        printed: "control 1 bad\ncontrol 2 bad\n",
        orders: "nnn",
        end: OrdersEnd::AtEnd,
    },
    Row {
        control: "stop\n",
        read: 1,
        write: 0,
        printed: "control 1 stop\n",
        orders: "fs",
        end: OrdersEnd::Open,
    },
    Row {
        control: "round\nstop\n",
        read: 0,
        write: 2,
        printed: "control 1 round\n",
        orders: "rfn",
        end: OrdersEnd::AtEnd,
    },
];

fn numbers(alloc: Global, number: u64) -> Result<NumberList, Fail> {
    let mut list = NumberList::new(alloc);
    if number > 0 && list.push(number).is_err() {
        return Err(Fail::from("memory"));
    }
    Ok(list)
}

fn put(
    alloc: Global,
    shelf: &mut MemShelf,
    name: &str,
    content: &str,
    read: u64,
) -> Result<(), Fail> {
    let name = Text::new(alloc, name.as_bytes())?;
    let content = Blob::new(alloc, content.as_bytes())?;
    let fail = numbers(alloc, read)?;
    shelf.put(alloc, &name, &content, fail)?;
    Ok(())
}

fn filled(alloc: Global) -> Result<MemShelf, Fail> {
    let mut shelf = MemShelf::new(alloc, numbers(alloc, 0)?);
    put(alloc, &mut shelf, "b.json", LOADS, 0)?;
    put(alloc, &mut shelf, "cycle.json", CYCLE, 0)?;
    put(alloc, &mut shelf, "lacks.json", "[]", 0)?;
    put(alloc, &mut shelf, "failing.json", LOADS, 1)?;
    Ok(shelf)
}

fn letter(order: Order) -> u8 {
    match order {
        Order::Nothing => b'n',
        Order::Reload(_) => b'b',
        Order::Round => b'r',
        Order::Stop => b's',
        Order::Failed => b'f',
        Order::OutOfMemory => b'm',
    }
}

// So many orders, as letters, and what came of the last.
fn orders_of<K: Source, H: Shelf, S: Sink>(
    alloc: Global,
    control: &mut K,
    shelf: &mut H,
    out: &mut S,
    many: usize,
) -> Result<(Vec<u8>, OrdersEnd), Fail> {
    let mut letters = Vec::new(alloc);
    let mut live = LiveOrders::new();
    add_orders(alloc, &mut live, control, shelf, out, many, &mut letters)?;
    Ok((letters, live.end()))
}

fn add_orders<K: Source, H: Shelf, S: Sink>(
    alloc: Global,
    live: &mut LiveOrders,
    control: &mut K,
    shelf: &mut H,
    out: &mut S,
    many: usize,
    letters: &mut Vec<u8>,
) -> Result<(), Fail>
    requires { Follows (K.source control.old) live.old }
{
    if many == 0 {
        return Ok(());
    }
    let order = live.next(alloc, control, shelf, out);
    letters.push(letter(order))?;
    add_orders(alloc, live, control, shelf, out, many - 1, letters)
}

// The same over a control with this content, of which this read fails, and a shelf with these bundles.
fn played(
    alloc: Global,
    content: Blob,
    fail: u64,
    out: &mut MemSink,
    many: usize,
) -> Result<(Vec<u8>, OrdersEnd), Fail> {
    let mut shelf = filled(alloc)?;
    let mut control = Lines {
        content,
        fail,
        reads: 0,
        faults: 0,
    };
    orders_of(alloc, &mut control, &mut shelf, out, many)
}

fn check(rt: &impl Abort, alloc: Global, row: &Row) -> Result<(), Fail> {
    let content = Blob::new(alloc, row.control.as_bytes())?;
    let mut out = MemSink::new(alloc, numbers(alloc, row.write)?);
    let (letters, end) = played(alloc, content, row.read, &mut out, row.orders.len())?;
    assert_eq!(rt;
        letters.as_slice(),
        row.orders.as_bytes(),
        "{}",
        row.control
    );
    assert_eq!(rt; out.bytes(), row.printed.as_bytes(), "{}", row.control);
    assert_eq!(rt; end, row.end, "{}", row.control);
    Ok(())
}

#[test]
fn each_line_is_answered(rt: HostRuntime) -> Result<(), Fail> {
    for row in &ROWS {
        check(&rt, rt.alloc(), row)?;
    }
    Ok(())
}

// A line of so many bytes with its newline, and a stop behind it.
fn long_line(alloc: Global, bytes: usize) -> Result<Blob, Fail> {
    let mut content = Blob::new(alloc, b"reload ")?;
    for _ in 8..bytes {
        content.append(b"x")?;
    }
    content.append(b"\nstop\n")?;
    Ok(content)
}

fn check_long(
    rt: &impl Abort,
    alloc: Global,
    bytes: usize,
    printed: &str,
    letters: &str,
) -> Result<(), Fail> {
    let content = long_line(alloc, bytes)?;
    let mut out = MemSink::new(alloc, numbers(alloc, 0)?);
    let (found, _) = played(alloc, content, 0, &mut out, 3)?;
    assert_eq!(rt; found.as_slice(), letters.as_bytes(), "{bytes}");
    assert_eq!(rt; out.bytes(), printed.as_bytes(), "{bytes}");
    Ok(())
}

#[test]
fn a_long_line_is_bad(rt: HostRuntime) -> Result<(), Fail> {
    let alloc = rt.alloc();
    check_long(&rt, alloc, 263, "control 1 absent\ncontrol 2 stop\n", "nsn")?;
    check_long(&rt, alloc, 264, "control 1 bad\ncontrol 2 stop\n", "nsn")?;
    check_long(&rt, alloc, 1024, "control 1 bad\ncontrol 2 stop\n", "nsn")?;
    check_long(&rt, alloc, 1025, "control 1 bad\ncontrol 2 stop\n", "nsn")?;
    check_long(&rt, alloc, 5000, "control 1 bad\ncontrol 2 stop\n", "nsn")
}

#[test]
fn a_line_is_read(rt: HostRuntime) -> Result<(), Fail> {
    let alloc = rt.alloc();
    assert_eq!(rt; read_control(alloc, b"round")?, Control::Round);
    assert_eq!(rt; read_control(alloc, b"stop")?, Control::Stop);
    assert_eq!(rt;
        read_control(alloc, b"reload b.json")?,
        Control::Reload(Text::new(alloc, b"b.json")?)
    );
    assert_eq!(rt; read_control(alloc, b"reload \xff")?, Control::Bad);
    assert_eq!(rt; read_control(alloc, b"round ")?, Control::Bad);
    Ok(())
}
