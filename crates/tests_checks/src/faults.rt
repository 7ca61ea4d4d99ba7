//! Steps of bots that could not process a message: they carry the note that the rules give, and go the way of the bot's plan.

use crate::script::play;
use std::test::Fail;

const ROWS: &'static str = "
@ 20 steps, next 10 2, at 100, 3 tiny; parse-queue:; write-queue:; hand parse 1: 4=?x, 3 tries, since 90; hand parse 2: 6=?y, 0 tries, since 90; hand write 1: 8=z, 3 tries, since 90; out write 0 0:; feed collect 1 8

retry parse 2 6 3 -> may
fail parse 1 4 3 -> may
# What fails doesn't pass, and what passes doesn't fail.
done parse 2 6 3 -> fits
done parse 2 6 3 dedup-queue>P?y -> fits
fail write 1 8 3 -> fits
# The bot has no queue for failures, and isn't halted by them.
fail parse 1 4 3 write-queue -> fits
fail parse 1 4 3 halts -> fits
# One was tried as often as it may be, and the other wasn't.
retry parse 1 4 3 -> unfit
fail parse 2 6 3 -> unfit

note 8
retry parse 2 6 3 -> fits
fail parse 1 4 3 -> fits

note 7
at 99
retry parse 2 6 3 -> unfit
fail parse 1 4 3 -> unfit

# A bot whose failures go to two queues, and halt it.
@ 0 steps, next 10 1, at 100, 3 other; dedup-queue:; hand dedup 2: 4=?x, 1 tries, since 100; out archive 0 0:; out store 0 0:; out write 0 0:; feed collect 1 0; feed fetch 1 0; feed gather 1 0
at 100
fail dedup 2 4 3 write-queue store-queue halts -> may
fail dedup 2 4 3 write-queue store-queue -> fits
fail dedup 2 4 3 store-queue write-queue halts -> fits
fail dedup 2 4 3 write-queue halts -> fits
fail dedup 2 4 3 write-queue store-queue store-queue halts -> fits
fail dedup 2 4 3 halts -> fits
note 8
fail dedup 2 4 3 write-queue store-queue halts -> fits
";

fn rows() -> &'static str {
    ROWS
}

#[test]
fn a_failure_is_the_one_that_the_rules_give(rt: HostRuntime) -> Result<(), Fail> {
    play(&rt, rt.alloc(), rows())
}
