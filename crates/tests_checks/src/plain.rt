//! Steps that carry nothing that rules give.

use crate::script::play;
use std::test::Fail;

const ROWS: &'static str = "
@ 0 steps, next 10 2, at 100, 3 tiny; parse-queue: 5=a 6=b; write-queue:; dedup-queue:; hand parse 2: 4=x, 0 tries, since 100; dump 1 of parse: 3=!q, 7 bad, at 100; out write 0 0:; feed collect 1 8

start -> may
collect collect 8 9 z -> may
collect collect 8 1073741824 -> may
end collect 8 -> may
take parse 1 5 -> may
reload other -> may
redo 1 -> may

# A moment before the latest, and one that isn't a date any more.
at 99
start -> unfit
collect collect 8 9 z -> unfit
take parse 1 5 -> unfit
at 253402300799
start -> may
at 253402300800
start -> unfit

# An empty piece, one past the limit of feeds, and one of another place.
at 100
collect collect 8 8 -> unfit
collect collect 8 1073741825 z -> unfit
collect collect 7 9 z -> unfit
end collect 9 -> unfit
# The second message, and a hand that is full.
take parse 1 6 -> unfit
take parse 2 5 -> unfit
reload none -> unfit
redo 2 -> unfit
round collect -> unfit

@ 0 steps, next 1 1, at 0, 1 tiny; out write 0 0:; feed collect 1 8 finished
round collect -> may
end collect 8 -> unfit
";

fn rows() -> &'static str {
    ROWS
}

#[test]
fn plain_steps_may_be_taken_where_they_may_be_replayed(rt: HostRuntime) -> Result<(), Fail> {
    play(&rt, rt.alloc(), rows())
}
