//! States that a core takes in, and those that it refuses.

use crate::script::play;
use std::test::Fail;

// Each part has entries. A state comes back as it went in.
const FULL: &'static str = "
@ 17 steps, next 10 3, at 100, 4 tiny; write-queue: 5=a 3=b; gone-queue:; parse-queue:; hand write 1: 7=x, 0 tries, since 100; hand parse 2: 8=y, 0 tries, since 100; cache dedup: k@99 l@100; cache gone:; dump 1 of parse: 4=!q, 7 bad, at 100; dump 2 of gone: 6=r, 7 bad, at 100; out write 0 0:; out gone 0 0:; feed gone 1 8 finished; feed collect 1 9; halted write; halted gone
= 17 steps, next 10 3, at 100, 4 tiny; write-queue: 5=a 3=b; gone-queue:; parse-queue:; hand write 1: 7=x, 0 tries, since 100; hand parse 2: 8=y, 0 tries, since 100; cache dedup: k@99 l@100; cache gone:; dump 1 of parse: 4=!q, 7 bad, at 100; dump 2 of gone: 6=r, 7 bad, at 100; out write 0 0:; out gone 0 0:; feed gone 1 8 finished; feed collect 1 9; halted write; halted gone
";

fn full() -> &'static str {
    FULL
}

#[test]
fn a_state_comes_back_as_it_went_in(rt: HostRuntime) -> Result<(), Fail> {
    play(&rt, rt.alloc(), full())
}

const UNSOUND: &'static str = "
@ 17 steps, next 10 3, at 100, 4 tiny; write-queue: 5=a; hand write 1: 7=x, 0 tries, since 100; cache dedup: k@99 l@100; dump 2 of gone: 6=r, 7 bad, at 100; out write 0 0:; feed collect 1 9; halted write
# A message has this number.
! 17 steps, next 7 3, at 100, 4 tiny; write-queue: 5=a; hand write 1: 7=x, 0 tries, since 100; cache dedup: k@99 l@100; dump 2 of gone: 6=r, 7 bad, at 100; out write 0 0:; feed collect 1 9; halted write
# So has a dump.
! 17 steps, next 10 2, at 100, 4 tiny; write-queue: 5=a; hand write 1: 7=x, 0 tries, since 100; cache dedup: k@99 l@100; dump 2 of gone: 6=r, 7 bad, at 100; out write 0 0:; feed collect 1 9; halted write
# A mark is later.
! 17 steps, next 10 3, at 99, 4 tiny; write-queue: 5=a; hand write 1: 7=x, 0 tries, since 100; cache dedup: k@99 l@100; dump 2 of gone: 6=r, 7 bad, at 100; out write 0 0:; feed collect 1 9; halted write
# The number of steps is past the last one.
! 4611686018427387906 steps, next 10 3, at 100, 4 tiny; write-queue: 5=a; hand write 1: 7=x, 0 tries, since 100; cache dedup: k@99 l@100; dump 2 of gone: 6=r, 7 bad, at 100; out write 0 0:; feed collect 1 9; halted write
# A queue stands twice.
! 17 steps, next 10 3, at 100, 4 tiny; write-queue: 5=a; write-queue:; hand write 1: 7=x, 0 tries, since 100; cache dedup: k@99 l@100; dump 2 of gone: 6=r, 7 bad, at 100; out write 0 0:; feed collect 1 9; halted write
# So does a message.
! 17 steps, next 10 3, at 100, 4 tiny; write-queue: 5=a 5=b; hand write 1: 7=x, 0 tries, since 100; cache dedup: k@99 l@100; dump 2 of gone: 6=r, 7 bad, at 100; out write 0 0:; feed collect 1 9; halted write
# The queue of a full hand isn't there.
! 17 steps, next 10 3, at 100, 4 tiny; write-queue: 5=a; hand write 1: 7=x, 0 tries, since 100; hand dedup 1: 9=z, 0 tries, since 100; cache dedup: k@99 l@100; dump 2 of gone: 6=r, 7 bad, at 100; out write 0 0:; feed collect 1 9; halted write
# An instance holds two messages.
! 17 steps, next 10 3, at 100, 4 tiny; write-queue: 5=a; hand write 1: 7=x, 0 tries, since 100; hand write 1: 9=z, 0 tries, since 100; cache dedup: k@99 l@100; dump 2 of gone: 6=r, 7 bad, at 100; out write 0 0:; feed collect 1 9; halted write
# A bot has one instance.
! 17 steps, next 10 3, at 100, 4 tiny; write-queue: 5=a; hand write 2: 7=x, 0 tries, since 100; cache dedup: k@99 l@100; dump 2 of gone: 6=r, 7 bad, at 100; out write 0 0:; feed collect 1 9; halted write
# A message was tried too often.
! 17 steps, next 10 3, at 100, 4 tiny; write-queue: 5=a; hand write 1: 7=x, 101 tries, since 100; cache dedup: k@99 l@100; dump 2 of gone: 6=r, 7 bad, at 100; out write 0 0:; feed collect 1 9; halted write
# A mark is before the one in front of it.
! 17 steps, next 10 3, at 100, 4 tiny; write-queue: 5=a; hand write 1: 7=x, 0 tries, since 100; cache dedup: k@100 l@99; dump 2 of gone: 6=r, 7 bad, at 100; out write 0 0:; feed collect 1 9; halted write
# A key is marked twice.
! 17 steps, next 10 3, at 100, 4 tiny; write-queue: 5=a; hand write 1: 7=x, 0 tries, since 100; cache dedup: k@99 k@100; dump 2 of gone: 6=r, 7 bad, at 100; out write 0 0:; feed collect 1 9; halted write
# An output, a feed and a halted bot stand twice.
! 17 steps, next 10 3, at 100, 4 tiny; write-queue: 5=a; hand write 1: 7=x, 0 tries, since 100; cache dedup: k@99 l@100; dump 2 of gone: 6=r, 7 bad, at 100; out write 0 0:; out write 0 0:; feed collect 1 9; halted write
! 17 steps, next 10 3, at 100, 4 tiny; write-queue: 5=a; hand write 1: 7=x, 0 tries, since 100; cache dedup: k@99 l@100; dump 2 of gone: 6=r, 7 bad, at 100; out write 0 0:; feed collect 1 9; feed collect 1 9; halted write
! 17 steps, next 10 3, at 100, 4 tiny; write-queue: 5=a; hand write 1: 7=x, 0 tries, since 100; cache dedup: k@99 l@100; dump 2 of gone: 6=r, 7 bad, at 100; out write 0 0:; feed collect 1 9; halted write; halted write
# A bot that writes has no output, and a collector no feed.
! 17 steps, next 10 3, at 100, 4 tiny; write-queue: 5=a; hand write 1: 7=x, 0 tries, since 100; cache dedup: k@99 l@100; dump 2 of gone: 6=r, 7 bad, at 100; feed collect 1 9; halted write
! 17 steps, next 10 3, at 100, 4 tiny; write-queue: 5=a; hand write 1: 7=x, 0 tries, since 100; cache dedup: k@99 l@100; dump 2 of gone: 6=r, 7 bad, at 100; out write 0 0:; halted write
";

fn unsound() -> &'static str {
    UNSOUND
}

#[test]
fn a_state_that_no_store_holds_is_refused(rt: HostRuntime) -> Result<(), Fail> {
    play(&rt, rt.alloc(), unsound())
}

const BUNDLES: &'static str = "
! 0 steps, next 1 1, at 0, 1 none; out write 0 0:; feed collect 1 0
! 0 steps, next 1 1, at 0, 1 tin; out write 0 0:; feed collect 1 0
! 0 steps, next 1 1, at 0, 1 tinyx; out write 0 0:; feed collect 1 0
";

fn bundles() -> &'static str {
    BUNDLES
}

#[test]
fn a_bundle_that_is_none_is_refused(rt: HostRuntime) -> Result<(), Fail> {
    play(&rt, rt.alloc(), bundles())
}
