//! Tests of the layer that cuts and parses feeds.
#![tactic(auto)]

ghost use Rattle.std.specs.Prelude.{◌≡◌, ◌+◌, ◌^◌, ◌≤◌, [], length, false, IfOk};

#[cfg(test)]
mod beginning;
#[cfg(test)]
mod drills;
#[cfg(test)]
mod looks;

#[cfg(test)]
mod tests {
    use base_types::Blob;
    use report_cut::{CutFault, CutList, CutRule, Cutter};
    use std::alloc::{AllocError, Global};
    use std::process::Abort;
    use std::test::Fail;

    /// A feed, the rule, the pieces that it has to be cut into, and the offsets behind them.
    struct Row {
        chunk_size: u32,
        replicate: bool,
        feed: &'static [u8],
        pieces: &'static [&'static [u8]],
        uptos: &'static [u64],
    }

    const REPORT: &'static [u8] =
        b"ip,port,type,note\n192.0.2.1,80,scanner,\"a, b\"\n192.0.2.2,N/A,brute-force,-\n192.0.2.300,22,scanner,x\n2001:DB8::1,443,phishing,ok\n198.51.100.7,53,ddos,\n";

    const ROWS: [Row; 12] = [
        Row {
            chunk_size: 64,
            replicate: true,
            feed: REPORT,
            pieces: &[
                b"ip,port,type,note\n192.0.2.1,80,scanner,\"a, b\"\n",
                b"ip,port,type,note\n192.0.2.2,N/A,brute-force,-\n",
                b"ip,port,type,note\n192.0.2.300,22,scanner,x\n",
                b"ip,port,type,note\n2001:DB8::1,443,phishing,ok\n",
                b"ip,port,type,note\n198.51.100.7,53,ddos,\n",
            ],
            uptos: &[46, 74, 99, 127, 149],
        },
        Row {
            chunk_size: 64,
            replicate: false,
            feed: REPORT,
            pieces: &[
                b"ip,port,type,note\n192.0.2.1,80,scanner,\"a, b\"\n",
                b"192.0.2.2,N/A,brute-force,-\n192.0.2.300,22,scanner,x\n",
                b"2001:DB8::1,443,phishing,ok\n198.51.100.7,53,ddos,\n",
            ],
            uptos: &[46, 99, 149],
        },
        Row {
            chunk_size: 1_048_576,
            replicate: true,
            feed: REPORT,
            pieces: &[REPORT],
            uptos: &[149],
        },
        // An empty feed has no piece, with a header that is repeated and without.
        Row {
            chunk_size: 8,
            replicate: true,
            feed: b"",
            pieces: &[],
            uptos: &[],
        },
        Row {
            chunk_size: 8,
            replicate: false,
            feed: b"",
            pieces: &[],
            uptos: &[],
        },
        // A feed of newlines.
        Row {
            chunk_size: 2,
            replicate: false,
            feed: b"\n\n\n",
            pieces: &[b"\n\n", b"\n"],
            uptos: &[2, 3],
        },
        Row {
            chunk_size: 2,
            replicate: true,
            feed: b"\n\n\n",
            pieces: &[b"\n\n", b"\n\n"],
            uptos: &[2, 3],
        },
        // A feed that is only a header, with its newline and without.
        Row {
            chunk_size: 4,
            replicate: true,
            feed: b"ip,port\n",
            pieces: &[b"ip,port\n"],
            uptos: &[8],
        },
        Row {
            chunk_size: 4,
            replicate: true,
            feed: b"ip,port",
            pieces: &[b"ip,port"],
            uptos: &[7],
        },
        // A last line without a newline.
        Row {
            chunk_size: 5,
            replicate: false,
            feed: b"ab\ncd\nef",
            pieces: &[b"ab\n", b"cd\nef"],
            uptos: &[3, 8],
        },
        Row {
            chunk_size: 5,
            replicate: true,
            feed: b"h\nab\nc",
            pieces: &[b"h\nab\n", b"h\nc"],
            uptos: &[5, 6],
        },
        // A line that is longer than the chunk is a piece alone.
        Row {
            chunk_size: 3,
            replicate: true,
            feed: b"head\nabcdef\nx\n",
            pieces: &[b"head\nabcdef\n", b"head\nx\n"],
            uptos: &[12, 14],
        },
    ];

    /// What a cutter handed out.
    #[derive(Drop)]
    struct Got {
        bytes: Vec<u8>,
        lens: Vec<usize>,
        uptos: Vec<u64>,
        long: Option<u64>,
    }

    impl Got {
        fn new(alloc: Global) -> Got {
            Got {
                bytes: Vec::new(alloc),
                lens: Vec::new(alloc),
                uptos: Vec::new(alloc),
                long: None,
            }
        }

        fn take(&mut self, cuts: &CutList) -> Result<(), AllocError> {
            for cut in cuts.as_slice() {
                self.bytes.extend_from_slice(cut.piece.bytes())?;
                self.lens.push(cut.piece.bytes().len())?;
                self.uptos.push(cut.upto)?;
            }
            Ok(())
        }
    }

    fn begin(alloc: Global, chunk_size: u32, replicate: bool) -> Result<Cutter, Fail>
        ensures { IfOk result (λ cutter. (cutter.ended ≡ false) × (cutter.at ≡ 0) × (cutter.held ≡ [])) }
    {
        if chunk_size == 0 || chunk_size > 1_048_576 {
            return Err(Fail::from("chunk size"));
        }
        let rule = CutRule {
            chunk_size,
            replicate,
        };
        Ok(Cutter::new(alloc, rule, None, 0)?)
    }

    /// Feeds a slice, and says whether the feed goes on.
    fn feed_slice(cutter: &mut Cutter, got: &mut Got, slice: &[u8]) -> Result<bool, Fail>
        requires going { cutter.old.ended ≡ false }
        requires counted { cutter.old.at + length cutter.old.held + length slice.now ≤ 2 ^ 63 }
        ensures going { cutter.new.ended ≡ false }
        ensures counted { cutter.new.at + length cutter.new.held ≤ cutter.old.at + length cutter.old.held + length slice.now }
    {
        match cutter.feed(slice) {
            Ok(cuts) => {
                got.take(&cuts)?;
                Ok(true)
            }
            Err(CutFault::LongLine { at }) => {
                got.long = Some(at);
                Ok(false)
            }
            Err(CutFault::OutOfMemory) => Err(Fail::from("memory")),
        }
    }

    fn end(cutter: &mut Cutter, got: &mut Got) -> Result<(), Fail>
        requires { cutter.old.ended ≡ false }
    {
        match cutter.end() {
            Ok(cuts) => {
                got.take(&cuts)?;
                Ok(())
            }
            Err(CutFault::LongLine { at }) => {
                got.long = Some(at);
                Ok(())
            }
            Err(CutFault::OutOfMemory) => Err(Fail::from("memory")),
        }
    }

    /// What is cut from a feed that comes in a first slice, and then in slices of `step` bytes.
    fn cut(
        alloc: Global,
        chunk_size: u32,
        replicate: bool,
        feed: &[u8],
        first: usize,
        step: usize,
    ) -> Result<Got, Fail> {
        let mut cutter = begin(alloc, chunk_size, replicate)?;
        let mut got = Got::new(alloc);
        if feed.len() > 1_000_000_000 || first > feed.len() || step == 0 {
            return Err(Fail::from("slices"));
        }
        let mut going = feed_slice(&mut cutter, &mut got, &feed[..first])?;
        let mut at = first;
        'slices: while going && at < feed.len() {
            let next = at + step.min(feed.len() - at);
            going = feed_slice(&mut cutter, &mut got, &feed[at..next])?;
            at = next;
        }
        if !going {
            assert_stays_long(&mut cutter, &got)?;
        }
        end(&mut cutter, &mut got)?;
        Ok(got)
    }

    /// Whether a further call answers the long line that was met.
    fn assert_stays_long(cutter: &mut Cutter, got: &Got) -> Result<(), Fail>
        requires going { cutter.old.ended ≡ false }
        requires counted { cutter.old.at + length cutter.old.held + 2 ≤ 2 ^ 63 }
        ensures { cutter.new.ended ≡ false }
    {
        match cutter.feed(b"x\n") {
            Err(CutFault::LongLine { at }) if got.long == Some(at) => Ok(()),
            _ => Err(Fail::from("another answer behind a long line")),
        }
    }

    fn assert_cuts(rt: &impl Abort, row: &Row, got: &Got, bytes: &[u8]) {
        assert_eq!(rt; got.bytes.as_slice(), bytes);
        assert_eq!(rt; got.lens.len(), row.pieces.len());
        for (len, piece) in got.lens.iter().zip(row.pieces) {
            assert_eq!(rt; *len, piece.len());
        }
        assert_eq!(rt; got.uptos.as_slice(), row.uptos);
        assert_eq!(rt; got.long, None);
    }

    #[test]
    fn rows_in_any_slices(rt: HostRuntime) -> Result<(), Fail> {
        for row in &ROWS {
            let mut bytes = Vec::new(rt.alloc());
            for piece in row.pieces {
                bytes.extend_from_slice(*piece)?;
            }
            let len = row.feed.len();
            let by_byte = cut(rt.alloc(), row.chunk_size, row.replicate, row.feed, 0, 1)?;
            assert_cuts(&rt, row, &by_byte, &bytes);
            for first in 0..len + 1 {
                let in_two = cut(
                    rt.alloc(),
                    row.chunk_size,
                    row.replicate,
                    row.feed,
                    first,
                    1_000,
                )?;
                assert_cuts(&rt, row, &in_two, &bytes);
            }
        }
        Ok(())
    }

    /// The rule's flag, the length of a second line with its newline, the pieces' lengths, the offsets behind them, and
    /// where a line is too long.
    struct LongRow {
        replicate: bool,
        line: usize,
        lens: &'static [usize],
        uptos: &'static [u64],
        long: Option<u64>,
    }

    const LONG_ROWS: [LongRow; 4] = [
        LongRow {
            replicate: false,
            line: 1_048_576,
            lens: &[2, 1_048_576],
            uptos: &[2, 1_048_578],
            long: None,
        },
        LongRow {
            replicate: false,
            line: 1_048_577,
            lens: &[2],
            uptos: &[2],
            long: Some(2),
        },
        LongRow {
            replicate: true,
            line: 1_048_576,
            lens: &[1_048_578],
            uptos: &[1_048_578],
            long: None,
        },
        LongRow {
            replicate: true,
            line: 1_048_577,
            lens: &[],
            uptos: &[],
            long: Some(2),
        },
    ];

    fn line_of(alloc: Global, front: &[u8], len: usize) -> Result<Vec<u8>, AllocError> {
        let mut bytes = front.to_vec(alloc)?;
        let line = vec![in alloc; b'b'; len.saturating_sub(1)]?;
        bytes.extend_from_slice(&line)?;
        bytes.push(b'\n')?;
        Ok(bytes)
    }

    fn assert_long_row(
        rt: &(impl Abort + Alloc<A = Global>),
        row: &LongRow,
        first: usize,
        step: usize,
    ) -> Result<(), Fail> {
        let feed = line_of(rt.alloc(), b"a\n", row.line)?;
        let got = cut(
            rt.alloc(),
            65_536,
            row.replicate,
            &feed,
            first.min(feed.len()),
            step,
        )?;
        assert_eq!(rt; got.lens.as_slice(), row.lens);
        assert_eq!(rt; got.uptos.as_slice(), row.uptos);
        assert_eq!(rt; got.long, row.long);
        Ok(())
    }

    #[test]
    fn long_lines_in_slices(rt: HostRuntime) -> Result<(), Fail> {
        for row in &LONG_ROWS {
            assert_long_row(&rt, row, 2_000_000, 1)?;
            assert_long_row(&rt, row, 2, 4_096)?;
            assert_long_row(&rt, row, 1_048_577, 1)?;
        }
        Ok(())
    }

    // By byte from ahead of the limit on: by byte from the start on took too long on a busy machine.
    #[test]
    fn long_lines_by_byte(rt: HostRuntime) -> Result<(), Fail> {
        for row in &LONG_ROWS {
            assert_long_row(&rt, row, 1_000_000, 1)?;
        }
        Ok(())
    }

    #[test]
    fn first_line_too_long(rt: HostRuntime) -> Result<(), Fail> {
        let feed = line_of(rt.alloc(), b"", 1_048_577)?;
        for replicate in [false, true] {
            for (first, step) in [(0, 4_096), (feed.len(), 1)] {
                let got = cut(rt.alloc(), 65_536, replicate, &feed, first, step)?;
                assert_eq!(rt; got.lens.len(), 0);
                assert_eq!(rt; got.long, Some(0));
            }
        }
        Ok(())
    }

    #[test]
    fn goes_on_behind_a_piece(rt: HostRuntime) -> Result<(), Fail> {
        let rule = CutRule {
            chunk_size: 64,
            replicate: true,
        };
        let header = Blob::new(rt.alloc(), b"ip,port,type,note\n")?;
        let rest =
            b"192.0.2.300,22,scanner,x\n2001:DB8::1,443,phishing,ok\n198.51.100.7,53,ddos,\n";
        prove!(header.bytes().len() <= 1_048_576);
        let mut cutter = Cutter::new(rt.alloc(), rule, Some(header), 74)?;
        let mut got = Got::new(rt.alloc());
        feed_slice(&mut cutter, &mut got, rest)?;
        end(&mut cutter, &mut got)?;
        assert_eq!(rt; got.lens.as_slice(), [43, 46, 40].as_slice());
        assert_eq!(rt; got.uptos.as_slice(), [99, 127, 149].as_slice());
        Ok(())
    }

    #[test]
    fn hands_out_what_is_finished(rt: HostRuntime) -> Result<(), Fail> {
        let mut cutter = begin(rt.alloc(), 3, false)?;
        let mut got = Got::new(rt.alloc());
        feed_slice(&mut cutter, &mut got, b"ab\n")?;
        feed_slice(&mut cutter, &mut got, b"")?;
        assert_eq!(rt; got.lens.len(), 0);
        feed_slice(&mut cutter, &mut got, b"c")?;
        assert_eq!(rt; got.lens.as_slice(), [3].as_slice());
        feed_slice(&mut cutter, &mut got, b"defg\n")?;
        assert_eq!(rt; got.lens.as_slice(), [3, 6].as_slice());
        end(&mut cutter, &mut got)?;
        assert_eq!(rt; got.uptos.as_slice(), [3, 9].as_slice());
        Ok(())
    }
}
