//! What refuses steps: the lowest part of the table of steps that fails.

use crate::script::play;
use std::test::Fail;

// A state with two halted bots, one of them with a full hand and nothing in its queue, a message that was tried as
// often as it may be, and the finished feed of a bot that is no collector.
const ROWS: &'static str = "
@ 20 steps, next 10 3, at 100, 3 tiny; parse-queue: 5=a 6=b; write-queue:; dedup-queue: 7=c; hand parse 2: 4=x, 3 tries, since 100; hand write 1: 3=y, 2 tries, since 100; dump 2 of parse: 2=!q, 7 bad, at 100; out write 0 0:; feed collect 1 8; feed fetch 1 4 finished; halted dedup; halted write

# A worker collects, and an unknown bot.
collect parse 8 9 z -> NotLive
collect nobody 8 9 z -> NotLive
end parse 8 -> NotLive
end nobody 8 -> NotLive
# A wrong place.
end parse 9 -> NotLive
collect collect 7 9 z -> Behind { position: 8 }
collect collect 9 10 z -> Behind { position: 8 }
end collect 9 -> Behind { position: 8 }
# A collector takes.
take collect 1 5 -> NotLive
take nobody 1 5 -> NotLive
# Instances are numbered from 1, and the parser has two.
take parse 0 5 -> NotLive
take parse 3 5 -> NotLive
# Before a halt: it has one instance.
take dedup 2 7 -> NotLive
take dedup 1 7 -> Halted
# Before a full hand, and an empty queue.
take write 1 3 -> Halted
take parse 2 5 -> HandFull { no: 4 }
done collect 1 4 3 -> NotLive
done nobody 1 4 3 -> NotLive
done parse 0 4 3 -> NotLive
done parse 3 4 3 -> NotLive
# Before a stale bundle.
done parse 3 4 2 -> NotLive
done parse 2 4 2 -> Stale { now: 3 }
done parse 2 4 4 -> Stale { now: 3 }
# Before a hand that holds nothing, and one that holds another message.
done parse 1 4 2 -> Stale { now: 3 }
done parse 2 5 2 -> Stale { now: 3 }
done parse 1 4 3 -> NotInHand { no: None }
done parse 2 5 3 -> NotInHand { no: Some(4) }
# A message that was tried as often as the bot tries is tried no more.
retry collect 1 4 3 -> NotLive
retry nobody 1 4 3 -> NotLive
retry parse 0 4 3 -> NotLive
retry parse 3 4 3 -> NotLive
# Before a stale bundle.
retry parse 3 4 2 -> NotLive
retry parse 2 4 2 -> Stale { now: 3 }
retry parse 2 4 4 -> Stale { now: 3 }
# Before a hand that holds nothing, and one that holds another message.
retry parse 1 4 2 -> Stale { now: 3 }
retry parse 2 5 2 -> Stale { now: 3 }
retry parse 1 4 3 -> NotInHand { no: None }
retry parse 2 5 3 -> NotInHand { no: Some(4) }
retry parse 2 4 3 -> Tries { tries: 3 }
# One that may be tried again is not given up.
fail collect 1 4 3 write-queue halts -> NotLive
fail nobody 1 4 3 write-queue halts -> NotLive
fail parse 0 4 3 write-queue halts -> NotLive
fail parse 3 4 3 write-queue halts -> NotLive
# Before a stale bundle.
fail parse 3 4 2 write-queue halts -> NotLive
fail parse 2 4 2 write-queue halts -> Stale { now: 3 }
fail parse 2 4 4 write-queue halts -> Stale { now: 3 }
# Before a hand that holds nothing, and one that holds another message.
fail parse 1 4 2 write-queue halts -> Stale { now: 3 }
fail parse 2 5 2 write-queue halts -> Stale { now: 3 }
fail parse 1 4 3 write-queue halts -> NotInHand { no: None }
fail parse 2 5 3 write-queue halts -> NotInHand { no: Some(4) }
fail write 1 3 3 write-queue halts -> Tries { tries: 2 }
# Bytes that are no bundle.
reload none -> Refused
reload -> Refused
reload tinyx -> Refused
# Dumps have numbers from 1, and this one is gone.
redo 0 -> NoDump
redo 1 -> NoDump
redo 9 -> NoDump
round parse -> NotLive
round nobody -> NotLive
# It is no collector any longer, though its feed is finished.
round fetch -> NotLive
round collect -> Unfinished
";

fn rows() -> &'static str {
    ROWS
}

#[test]
fn the_lowest_part_that_fails_refuses(rt: HostRuntime) -> Result<(), Fail> {
    play(&rt, rt.alloc(), rows())
}

// A start ends halts, and then the bots take.
const HALTS: &'static str = "
@ 20 steps, next 10 3, at 100, 3 tiny; parse-queue: 5=a 6=b; write-queue:; dedup-queue: 7=c; hand parse 2: 4=x, 3 tries, since 100; hand write 1: 3=y, 2 tries, since 100; dump 2 of parse: 2=!q, 7 bad, at 100; out write 0 0:; feed collect 1 8; feed fetch 1 4 finished; halted dedup; halted write
start -> ok
= 21 steps, next 10 3, at 100, 3 tiny; parse-queue: 5=a 6=b; write-queue:; dedup-queue: 7=c; hand parse 2: 4=x, 3 tries, since 100; hand write 1: 3=y, 2 tries, since 100; dump 2 of parse: 2=!q, 7 bad, at 100; out write 0 0:; feed collect 1 8; feed fetch 1 4 finished
take write 1 3 -> HandFull { no: 3 }
take dedup 1 7 -> ok
";

fn halts() -> &'static str {
    HALTS
}

#[test]
fn a_start_ends_halts(rt: HostRuntime) -> Result<(), Fail> {
    play(&rt, rt.alloc(), halts())
}

// A feed that is finished refuses pieces and ends, at any place.
const FINISHED: &'static str = "
@ 0 steps, next 1 1, at 0, 1 thin; out write 0 0:; feed collect 1 8 finished

collect collect 8 9 z -> Finished
collect collect 0 9 z -> Finished
end collect 8 -> Finished
end collect 9 -> Finished
";

fn finished() -> &'static str {
    FINISHED
}

#[test]
fn a_finished_feed_refuses(rt: HostRuntime) -> Result<(), Fail> {
    play(&rt, rt.alloc(), finished())
}

const BACKLOGS: &'static str = "
@ 0 steps, next 2 1, at 0, 1 tiny; write-queue: 1=*8388608; out write 0 0:; feed collect 1 0
collect collect 0 2 a -> Backlog { bytes: 8388608 }
# Before it, a wrong place.
collect collect 1 2 a -> Behind { position: 0 }
# A feed ends whatever waits.
end collect 0 -> ok

@ 0 steps, next 2 1, at 0, 1 tiny; write-queue: 1=*8388607; out write 0 0:; feed collect 1 0
collect collect 0 2 a -> ok

# The lengths count together, in all live queues.
@ 0 steps, next 5 1, at 0, 1 tiny; parse-queue: 1=*8000000 2=*388000; dedup-queue:; write-queue: 3=*600 4=*9; out write 0 0:; feed collect 1 0
collect collect 0 2 a -> Backlog { bytes: 8388609 }

# A collector has no live queue, nor has a bot that the bundle lacks.
@ 0 steps, next 4 1, at 0, 1 tiny; collect-queue: 1=*8388608; gone-queue: 2=*8388608; write-queue: 3=*8388607; out write 0 0:; feed collect 1 0
collect collect 0 2 a -> ok
";

fn backlogs() -> &'static str {
    BACKLOGS
}

#[test]
fn a_backlog_refuses_pieces(rt: HostRuntime) -> Result<(), Fail> {
    play(&rt, rt.alloc(), backlogs())
}
