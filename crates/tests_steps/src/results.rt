//! What steps leave.

use crate::script::play;
use std::test::Fail;

// Three full hands, one of a bot that is halted.
const DONE: &'static str = "
@ 0 steps, next 10 3, at 100, 1 tiny; parse-queue: 5=a; write-queue:; hand parse 1: 7=x, 0 tries, since 100; hand write 1: 9=z, 0 tries, since 100; hand parse 2: 8=y, 0 tries, since 100; dump 2 of parse: 4=!q, 7 bad, at 100; out other 0 0:; out write 0 0:; feed collect 1 8; halted write
at 101

# Sends are numbered first, in order, then dumps; a queue that isn't there is made at the end.
done parse 1 7 1 dedup-queue>Px parse-queue>q dedup-queue>r dump>!x dump>!! -> ok
= 1 steps, next 15 5, at 101, 1 tiny; parse-queue: 5=a 11=q; write-queue:; dedup-queue: 10=Px 12=r; hand write 1: 9=z, 0 tries, since 100; hand parse 2: 8=y, 0 tries, since 100; dump 2 of parse: 4=!q, 7 bad, at 100; dump 3 of parse: 13=!x, 7 bad, at 101; dump 4 of parse: 14=!!, 7 bad, at 101; out other 0 0:; out write 0 0:; feed collect 1 8; halted write

# A bot that is halted finishes what is in its hand; the line stands in its own output.
@
done write 1 9 1 line -> ok
= 1 steps, next 10 3, at 101, 1 tiny; parse-queue: 5=a; write-queue:; hand parse 1: 7=x, 0 tries, since 100; hand parse 2: 8=y, 0 tries, since 100; dump 2 of parse: 4=!q, 7 bad, at 100; out other 0 0:; out write 0 0: z; feed collect 1 8; halted write

@
done write 1 9 1 -> ok
= 1 steps, next 10 3, at 101, 1 tiny; parse-queue: 5=a; write-queue:; hand parse 1: 7=x, 0 tries, since 100; hand parse 2: 8=y, 0 tries, since 100; dump 2 of parse: 4=!q, 7 bad, at 100; out other 0 0:; out write 0 0:; feed collect 1 8; halted write

# Dumps without sends.
@
done parse 2 8 1 dump>y -> ok
= 1 steps, next 11 4, at 101, 1 tiny; parse-queue: 5=a; write-queue:; hand parse 1: 7=x, 0 tries, since 100; hand write 1: 9=z, 0 tries, since 100; dump 2 of parse: 4=!q, 7 bad, at 100; dump 3 of parse: 10=y, 7 bad, at 101; out other 0 0:; out write 0 0:; feed collect 1 8; halted write

# A report goes to each queue of the path, behind what waits there.
@
collect collect 8 10 b -> ok
= 1 steps, next 12 3, at 101, 1 tiny; parse-queue: 5=a 10=Rb; write-queue: 11=Rb; hand parse 1: 7=x, 0 tries, since 100; hand write 1: 9=z, 0 tries, since 100; hand parse 2: 8=y, 0 tries, since 100; dump 2 of parse: 4=!q, 7 bad, at 100; out other 0 0:; out write 0 0:; feed collect 1 10; halted write
";

fn done() -> &'static str {
    DONE
}

#[test]
fn a_message_is_done_with_at_once(rt: HostRuntime) -> Result<(), Fail> {
    play(&rt, rt.alloc(), done())
}

// Two messages that were tried as often as they may be, one that wasn't, two dumps, a finished feed and a halted bot.
const TROUBLES: &'static str = "
@ 20 steps, next 10 6, at 100, 3 tiny; parse-queue: 5=a; write-queue:; hand write 1: 8=z, 3 tries, since 90; hand parse 2: 6=?y, 0 tries, since 90; hand parse 1: 4=?x, 3 tries, since 90; dump 2 of parse: 3=!q, 7 bad, at 90; dump 5 of gone: 2=r, 7 bad, at 90; out write 0 0:; feed collect 1 8 finished; halted write
at 101

# A message in a hand is to be tried again, and was taken when it was.
retry parse 2 6 3 -> ok
= 21 steps, next 10 6, at 101, 3 tiny; parse-queue: 5=a; write-queue:; hand write 1: 8=z, 3 tries, since 90; hand parse 2: 6=?y, 1 tries, since 90; hand parse 1: 4=?x, 3 tries, since 90; dump 2 of parse: 3=!q, 7 bad, at 90; dump 5 of gone: 2=r, 7 bad, at 90; out write 0 0:; feed collect 1 8 finished; halted write

# A message is put aside under its own number.
@
fail parse 1 4 3 -> ok
= 21 steps, next 10 7, at 101, 3 tiny; parse-queue: 5=a; write-queue:; hand write 1: 8=z, 3 tries, since 90; hand parse 2: 6=?y, 0 tries, since 90; dump 2 of parse: 3=!q, 7 bad, at 90; dump 5 of gone: 2=r, 7 bad, at 90; dump 6 of parse: 4=?x, 7 bad, at 101; out write 0 0:; feed collect 1 8 finished; halted write

# Copies of it go to each queue in order, under new numbers; the bot is halted behind the other.
@
fail parse 1 4 3 store-queue parse-queue store-queue halts -> ok
= 21 steps, next 13 7, at 101, 3 tiny; parse-queue: 5=a 11=?x; write-queue:; store-queue: 10=?x 12=?x; hand write 1: 8=z, 3 tries, since 90; hand parse 2: 6=?y, 0 tries, since 90; dump 2 of parse: 3=!q, 7 bad, at 90; dump 5 of gone: 2=r, 7 bad, at 90; dump 6 of parse: 4=?x, 7 bad, at 101; out write 0 0:; feed collect 1 8 finished; halted write; halted parse

# A bot is not halted twice.
@
fail write 1 8 3 halts -> ok
= 21 steps, next 10 7, at 101, 3 tiny; parse-queue: 5=a; write-queue:; hand parse 2: 6=?y, 0 tries, since 90; hand parse 1: 4=?x, 3 tries, since 90; dump 2 of parse: 3=!q, 7 bad, at 90; dump 5 of gone: 2=r, 7 bad, at 90; dump 6 of write: 8=z, 7 bad, at 101; out write 0 0:; feed collect 1 8 finished; halted write

# A dumped message is behind those that wait, under its own number.
@
redo 2 -> ok
= 21 steps, next 10 6, at 101, 3 tiny; parse-queue: 5=a 3=!q; write-queue:; hand write 1: 8=z, 3 tries, since 90; hand parse 2: 6=?y, 0 tries, since 90; hand parse 1: 4=?x, 3 tries, since 90; dump 5 of gone: 2=r, 7 bad, at 90; out write 0 0:; feed collect 1 8 finished; halted write

# So is that of a bot that the bundle lacks: its queue is made.
@
redo 5 -> ok
= 21 steps, next 10 6, at 101, 3 tiny; parse-queue: 5=a; write-queue:; gone-queue: 2=r; hand write 1: 8=z, 3 tries, since 90; hand parse 2: 6=?y, 0 tries, since 90; hand parse 1: 4=?x, 3 tries, since 90; dump 2 of parse: 3=!q, 7 bad, at 90; out write 0 0:; feed collect 1 8 finished; halted write

@
round collect -> ok
= 21 steps, next 10 6, at 101, 3 tiny; parse-queue: 5=a; write-queue:; hand write 1: 8=z, 3 tries, since 90; hand parse 2: 6=?y, 0 tries, since 90; hand parse 1: 4=?x, 3 tries, since 90; dump 2 of parse: 3=!q, 7 bad, at 90; dump 5 of gone: 2=r, 7 bad, at 90; out write 0 0:; feed collect 2 0; halted write

# The same bundle: its number rises, no bot is halted, and all else stays.
@
reload tiny -> ok
= 21 steps, next 10 6, at 101, 4 tiny; parse-queue: 5=a; write-queue:; hand write 1: 8=z, 3 tries, since 90; hand parse 2: 6=?y, 0 tries, since 90; hand parse 1: 4=?x, 3 tries, since 90; dump 2 of parse: 3=!q, 7 bad, at 90; dump 5 of gone: 2=r, 7 bad, at 90; out write 0 0:; feed collect 1 8 finished

# A bot is gone: what its instances hold is in front of its queue, that of the lower one first.
@
reload thin -> ok
= 21 steps, next 10 6, at 101, 4 thin; parse-queue: 4=?x 6=?y 5=a; write-queue:; hand write 1: 8=z, 3 tries, since 90; dump 2 of parse: 3=!q, 7 bad, at 90; dump 5 of gone: 2=r, 7 bad, at 90; out write 0 0:; feed collect 1 8 finished

# A collector with another file begins anew; new outputs and feeds are behind the others, in the order of the bots.
@
reload other -> ok
= 21 steps, next 10 6, at 101, 4 other; parse-queue: 4=?x 6=?y 5=a; write-queue:; hand write 1: 8=z, 3 tries, since 90; dump 2 of parse: 3=!q, 7 bad, at 90; dump 5 of gone: 2=r, 7 bad, at 90; out write 0 0:; out archive 0 0:; out store 0 0:; feed collect 2 0; feed fetch 1 0; feed gather 1 0
";

fn troubles() -> &'static str {
    TROUBLES
}

#[test]
fn failures_dumps_and_rounds(rt: HostRuntime) -> Result<(), Fail> {
    play(&rt, rt.alloc(), troubles())
}

// Under the bundle `other`: four full hands, two of them of one bot, and a halted bot.
const RELOADS: &'static str = "
@ 20 steps, next 10 1, at 100, 5 other; dedup-queue: 5=a; archive-queue:; write-queue:; hand dedup 2: 6=b, 1 tries, since 90; hand archive 1: 7=c, 0 tries, since 90; hand dedup 1: 4=d, 0 tries, since 90; hand write 1: 8=e, 0 tries, since 90; out write 0 0:; out archive 0 0:; out store 0 0:; feed collect 1 9; feed fetch 1 4 finished; feed gather 1 6; halted dedup
at 101

# An instance that the bot has no longer gives back what it held, and the other keeps it; so does a bot that is gone. Feeds of bots that are no collectors any longer stay.
reload tiny -> ok
= 21 steps, next 10 1, at 101, 6 tiny; dedup-queue: 6=b 5=a; archive-queue: 7=c; write-queue:; hand dedup 1: 4=d, 0 tries, since 90; hand write 1: 8=e, 0 tries, since 90; out write 0 0:; out archive 0 0:; out store 0 0:; feed collect 2 0; feed fetch 1 4 finished; feed gather 1 6

# Once they are collectors again, their feeds begin anew.
@
reload tiny -> ok
reload other -> ok
= 22 steps, next 10 1, at 101, 7 other; dedup-queue: 6=b 5=a; archive-queue: 7=c; write-queue:; hand dedup 1: 4=d, 0 tries, since 90; hand write 1: 8=e, 0 tries, since 90; out write 0 0:; out archive 0 0:; out store 0 0:; feed collect 3 0; feed fetch 2 0; feed gather 2 0

# Both instances of a bot that is gone, bot by bot in the order of the bundle before.
@
reload thin -> ok
= 21 steps, next 10 1, at 101, 6 thin; dedup-queue: 4=d 6=b 5=a; archive-queue: 7=c; write-queue:; hand write 1: 8=e, 0 tries, since 90; out write 0 0:; out archive 0 0:; out store 0 0:; feed collect 2 0; feed fetch 1 4 finished; feed gather 1 6

# Files that stay are read on where they were.
@
reload other -> ok
= 21 steps, next 10 1, at 101, 6 other; dedup-queue: 5=a; archive-queue:; write-queue:; hand dedup 2: 6=b, 1 tries, since 90; hand archive 1: 7=c, 0 tries, since 90; hand dedup 1: 4=d, 0 tries, since 90; hand write 1: 8=e, 0 tries, since 90; out write 0 0:; out archive 0 0:; out store 0 0:; feed collect 1 9; feed fetch 1 4 finished; feed gather 1 6

# What one bundle gave back stays in front of the queue under the next.
@
reload thin -> ok
reload tiny -> ok
= 22 steps, next 10 1, at 101, 7 tiny; dedup-queue: 4=d 6=b 5=a; archive-queue: 7=c; write-queue:; hand write 1: 8=e, 0 tries, since 90; out write 0 0:; out archive 0 0:; out store 0 0:; feed collect 2 0; feed fetch 1 4 finished; feed gather 1 6
";

fn reloads() -> &'static str {
    RELOADS
}

#[test]
fn each_bundle_leaves_its_state(rt: HostRuntime) -> Result<(), Fail> {
    play(&rt, rt.alloc(), reloads())
}

// One output with lines, and one with none.
const SEALED: &'static str = "
@ 9 steps, next 10 1, at 100, 1 tiny; write-queue:; hand write 1: 9=z, 0 tries, since 100; out write 4 1: one two; out gone 0 0:; feed collect 1 8
seal
= 9 steps, next 10 1, at 100, 1 tiny; write-queue:; hand write 1: 9=z, 0 tries, since 100; out write 12 3:; out gone 0 0:; feed collect 1 8

# What is sealed stays, and a line comes behind it.
at 101
done write 1 9 1 line -> ok
= 10 steps, next 10 1, at 101, 1 tiny; write-queue:; out write 12 3: z; out gone 0 0:; feed collect 1 8
seal
= 10 steps, next 10 1, at 101, 1 tiny; write-queue:; out write 14 4:; out gone 0 0:; feed collect 1 8

# Nothing is left to seal.
seal
= 10 steps, next 10 1, at 101, 1 tiny; write-queue:; out write 14 4:; out gone 0 0:; feed collect 1 8
";

fn sealed() -> &'static str {
    SEALED
}

#[test]
fn lines_are_sealed_and_steps_go_on(rt: HostRuntime) -> Result<(), Fail> {
    play(&rt, rt.alloc(), sealed())
}
