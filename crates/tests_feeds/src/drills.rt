//! The feeds that drills make. The rows were made by another program.

use base_types::NumberList;
use edge_memory::MemSink;
use feed_maker::{MakeFault, make_feed};
use std::alloc::Global;
use std::test::Fail;

// A number, the first lines that it gives, and the hundredth.
type Row = (u64, &'static str, &'static str);

const ROWS: [Row; 3] = [
    (
        0,
        "ip,port,type,note\n10.3.111.175,48575,ddos,1\n10.0.194.29,30472,scanner,2\n",
        "bad,23488,scanner,100\n",
    ),
    (
        42,
        "ip,port,type,note\n10.2.93.241,50550,phishing,1\n10.2.20.255,64594,phishing,2\n",
        "bad,32121,brute-force,100\n",
    ),
    (
        18446744073709551615,
        "ip,port,type,note\n10.0.234.112,50088,scanner,1\n10.3.173.42,43703,ddos,2\n",
        "bad,13920,scanner,100\n",
    ),
];

fn made(alloc: Global, lines: u32, number: u64) -> Result<MemSink, Fail> {
    let mut sink = MemSink::new(alloc, NumberList::new(alloc));
    make_feed(alloc, lines, number, &mut sink)?;
    Ok(sink)
}

#[test]
fn numbers_give_their_lines(rt: HostRuntime) -> Result<(), Fail> {
    let alloc = rt.alloc();
    for row in &ROWS {
        assert_eq!(rt;
            made(alloc, 2, row.0)?.bytes(),
            row.1.as_bytes(),
            "{}",
            row.0
        );
        let hundred = made(alloc, 100, row.0)?;
        assert!(rt; hundred.bytes().ends_with(row.2.as_bytes()), "{}", row.0);
    }
    Ok(())
}

#[test]
fn a_feed_of_no_lines_is_its_header(rt: HostRuntime) -> Result<(), Fail> {
    let none = made(rt.alloc(), 0, 7)?;
    assert_eq!(rt; none.bytes(), b"ip,port,type,note\n".as_slice());
    Ok(())
}

// The other program's 20,000 lines of number 7: so many bytes, which come to this sum.
#[test]
fn a_long_feed_is_whole(rt: HostRuntime) -> Result<(), Fail> {
    let long = made(rt.alloc(), 20_000, 7)?;
    assert_eq!(rt; long.bytes().len(), 636_765);
    let mut sum = 0;
    for byte in long.bytes() {
        sum = (sum % 65_521 + *byte as u64) % 65_521;
    }
    assert_eq!(rt; sum, 46_126);
    Ok(())
}

#[test]
fn a_sink_that_fails_ends_the_feed(rt: HostRuntime) -> Result<(), Fail> {
    let alloc = rt.alloc();
    let mut fail = NumberList::new(alloc);
    if fail.push(2).is_err() {
        return Err(Fail::from("memory"));
    }
    let mut sink = MemSink::new(alloc, fail);
    let ended = make_feed(alloc, 20_000, 7, &mut sink);
    assert_eq!(rt; ended, Err(MakeFault::Sink));
    Ok(())
}
