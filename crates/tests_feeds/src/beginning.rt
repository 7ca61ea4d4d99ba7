//! Where a reader goes on in the middle of a feed.
ghost use Rattle.std.specs.Prelude.{◌≡◌};

use base_types::{Blob, NumberList};
use edge_memory::MemSource;
use edge_traits::Source;
use feed_reader::{Beginning, begin_at};
use report_cut::CutRule;
use std::alloc::Global;
use std::test::Fail;

/// What stands at an offset. A cutter is told by the offset where it reads on.
#[derive(Clone, Copy, Debug, PartialEq, Eq)]
enum Stands {
    Cutter(u64),
    End,
    Short(u64),
    LongHeader,
}

// A feed, an offset, whether a header is repeated, and what stands there.
type Row = (&'static [u8], u64, bool, Stands);

const ROWS: [Row; 12] = [
    (b"", 0, false, Stands::Cutter(0)),
    (b"", 0, true, Stands::Cutter(0)),
    (b"", 1, false, Stands::Short(0)),
    (b"a\nbb\n", 2, false, Stands::Cutter(2)),
    (b"a\nbb\n", 2, true, Stands::Cutter(2)),
    // At its end a feed has nothing to cut; a header isn't looked for.
    (b"a\nbb\n", 5, false, Stands::Cutter(5)),
    (b"a\nbb\n", 5, true, Stands::End),
    // A feed that has become shorter, by one byte and by many.
    (b"a\nbb\n", 6, false, Stands::Short(5)),
    (b"a\nbb\n", 6, true, Stands::Short(5)),
    (b"a\nbb\n", 1_000_000_000_000, true, Stands::Short(5)),
    (b"abcdefghijklmnopq", 18, false, Stands::Short(17)),
    (b"abcdefghijklmnop", 17, false, Stands::Short(16)),
];

fn found_at<S: Source>(
    alloc: Global,
    source: &mut S,
    at: u64,
    replicate: bool,
) -> Result<Stands, Fail>
    ensures { (S.source source.new).name ≡ (S.source source.old).name }
{
    let rule = CutRule {
        chunk_size: 64,
        replicate,
    };
    match begin_at(alloc, source, rule, at) {
        Ok(Beginning::Cutter { cutter }) => Ok(Stands::Cutter(cutter.at())),
        Ok(Beginning::End) => Ok(Stands::End),
        Ok(Beginning::Short { have }) => Ok(Stands::Short(have)),
        Ok(Beginning::LongHeader) => Ok(Stands::LongHeader),
        Err(_) => Err(Fail::from("a fault")),
    }
}

fn looked(alloc: Global, feed: &[u8], at: u64, replicate: bool) -> Result<Stands, Fail> {
    let content = Blob::new(alloc, feed)?;
    let mut source = MemSource::new(content, NumberList::new(alloc));
    let found = found_at(alloc, &mut source, at, replicate);
    let _content = source.into_content();
    found
}

#[test]
fn what_stands_at_an_offset(rt: HostRuntime) -> Result<(), Fail> {
    let alloc = rt.alloc();
    for (feed, at, replicate, want) in &ROWS {
        let found = looked(alloc, *feed, *at, *replicate)?;
        assert_eq!(rt; found, *want, "at {at}");
    }
    Ok(())
}

// The length of a header with its newline, and what stands at offset 1.
const HEADERS: [(usize, Stands); 2] = [
    (1_048_576, Stands::Cutter(1)),
    (1_048_577, Stands::LongHeader),
];

#[test]
fn a_header_may_have_the_length_of_a_line(rt: HostRuntime) -> Result<(), Fail> {
    let alloc = rt.alloc();
    for (len, want) in &HEADERS {
        let mut feed = vec![in alloc; b'h'; len - 1]?;
        feed.extend_from_slice(b"\nx\n")?;
        let found = looked(alloc, &feed, 1, true)?;
        assert_eq!(rt; found, *want, "a header of {len} bytes");
    }
    Ok(())
}
