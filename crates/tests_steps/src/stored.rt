//! Which stored steps may be replayed.

use crate::script::play;
use std::test::Fail;

const ROWS: &'static str = "
@ 0 steps, next 10 1, at 100, 3 tiny; parse-queue: 5=a 6=b; write-queue:; dedup-queue:; hand parse 2: 4=x, 0 tries, since 100; hand write 1: 3=y, 0 tries, since 100; hand dedup 1: 2=z, 0 tries, since 100; out write 0 0:; feed collect 1 8

start -> fits
at 99
start -> unfit
at 0
start -> unfit
at 101
start -> fits
at 253402300799
start -> fits
at 253402300800
start -> unfit
at 18446744073709551615
start -> unfit
at 100
collect collect 8 9 z -> fits
at 99
collect collect 8 9 z -> unfit
at 253402300800
collect collect 8 9 z -> unfit
# An empty piece, and one that ends before it begins.
at 100
collect collect 8 8 -> unfit
collect collect 8 7 z -> unfit
collect collect 8 1073741824 z -> fits
collect collect 8 1073741825 z -> unfit
collect collect 7 9 z -> unfit
end collect 8 -> fits
end collect 9 -> unfit
at 99
end collect 8 -> unfit
at 100
take parse 1 5 -> fits
# The front of the queue is another.
take parse 1 6 -> unfit
take parse 2 5 -> unfit
at 99
take parse 1 5 -> unfit
at 100
done parse 2 4 3 -> fits
at 99
done parse 2 4 3 -> unfit
at 100
done parse 2 4 2 -> unfit
done parse 2 5 3 -> unfit
# It drops no duplicates.
done parse 2 4 3 key>k -> unfit
# It is no output.
done parse 2 4 3 line -> unfit
done write 1 3 3 line -> fits
done write 1 3 3 key>k -> unfit
done dedup 1 2 3 key>k -> fits
done dedup 1 2 3 line -> unfit
";

fn rows() -> &'static str {
    ROWS
}

#[test]
fn stored_steps_fit_by_what_they_show(rt: HostRuntime) -> Result<(), Fail> {
    play(&rt, rt.alloc(), rows())
}
