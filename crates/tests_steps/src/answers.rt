//! Steps one after the other, and what the core answers to each.

use crate::script::play;
use std::test::Fail;

const COURSES: &'static str = "
# A feed without a byte ends at once.
@
end collect 0 -> ok
collect collect 0 2 a -> Finished
= 1 steps, next 1 1, at 100, 1 tiny; out write 0 0:; feed collect 1 0 finished

# What was made under the bundle before is stale, and the hand keeps its message.
@
collect collect 0 2 a -> ok
take parse 1 1 -> ok
take parse 1 1 -> HandFull { no: 1 }
reload tiny -> ok
done parse 1 1 1 dedup-queue>PRa -> Stale { now: 2 }
= 3 steps, next 3 1, at 100, 2 tiny; parse-queue:; write-queue: 2=Ra; hand parse 1: 1=Ra, 0 tries, since 100; out write 0 0:; feed collect 1 2

# What is made of it under the new one isn't.
@
collect collect 0 2 a -> ok
take parse 1 1 -> ok
reload tiny -> ok
done parse 1 1 2 dedup-queue>PRa -> ok
= 4 steps, next 4 1, at 100, 2 tiny; parse-queue:; write-queue: 2=Ra; dedup-queue: 3=PRa; out write 0 0:; feed collect 1 2

@
redo 1 -> NoDump
round collect -> Unfinished
collect collect 5 6 a -> Behind { position: 0 }
= 0 steps, next 1 1, at 0, 1 tiny; out write 0 0:; feed collect 1 0

# A message is tried four times, then put aside under its number, asked for again, and tried from the beginning.
@
collect collect 0 1 ? -> ok
take parse 2 1 -> ok
fail parse 2 1 1 -> Tries { tries: 0 }
retry parse 2 1 1 -> ok
retry parse 2 1 1 -> ok
retry parse 2 1 1 -> ok
retry parse 2 1 1 -> Tries { tries: 3 }
fail parse 2 1 1 -> ok
take parse 2 1 -> Empty
redo 1 -> ok
redo 1 -> NoDump
take parse 1 1 -> ok
fail parse 1 1 1 -> Tries { tries: 0 }
= 8 steps, next 3 2, at 100, 1 tiny; parse-queue:; write-queue: 2=?; hand parse 1: 1=?, 0 tries, since 100; out write 0 0:; feed collect 1 1

# A feed is collected again from its beginning, and ends again.
@
collect collect 0 1 a -> ok
end collect 1 -> ok
end collect 1 -> Finished
round collect -> ok
round collect -> Unfinished
collect collect 1 2 b -> Behind { position: 0 }
collect collect 0 1 a -> ok
end collect 1 -> ok
= 5 steps, next 5 1, at 100, 1 tiny; parse-queue: 1=Ra 3=Ra; write-queue: 2=Ra 4=Ra; out write 0 0:; feed collect 2 1 finished
";

fn courses() -> &'static str {
    COURSES
}

#[test]
fn each_step_is_answered(rt: HostRuntime) -> Result<(), Fail> {
    play(&rt, rt.alloc(), courses())
}

// A piece of a feed is collected, taken, written as a line, and the feed ends: in this order, and in others.
const ORDERS: &'static str = "
@ 0 steps, next 1 1, at 0, 1 thin; out write 0 0:; feed collect 1 0
= 0 steps, next 1 1, at 0, 1 thin; out write 0 0:; feed collect 1 0
start -> ok
= 1 steps, next 1 1, at 100, 1 thin; out write 0 0:; feed collect 1 0
collect collect 0 2 a -> ok
= 2 steps, next 2 1, at 100, 1 thin; write-queue: 1=Ra; out write 0 0:; feed collect 1 2
take write 1 1 -> ok
= 3 steps, next 2 1, at 100, 1 thin; write-queue:; hand write 1: 1=Ra, 0 tries, since 100; out write 0 0:; feed collect 1 2
done write 1 1 1 line -> ok
= 4 steps, next 2 1, at 100, 1 thin; write-queue:; out write 0 0: Ra; feed collect 1 2
end collect 2 -> ok
= 5 steps, next 2 1, at 100, 1 thin; write-queue:; out write 0 0: Ra; feed collect 1 2 finished

@
collect collect 0 2 a -> ok
start -> ok
take write 1 1 -> ok
done write 1 1 1 line -> ok
end collect 2 -> ok
= 5 steps, next 2 1, at 100, 1 thin; write-queue:; out write 0 0: Ra; feed collect 1 2 finished

@
start -> ok
take write 1 1 -> Empty

@
start -> ok
collect collect 0 2 a -> ok
done write 1 1 1 line -> NotInHand { no: None }

@
start -> ok
collect collect 0 2 a -> ok
take write 1 1 -> ok
end collect 2 -> ok
done write 1 1 1 line -> ok
= 5 steps, next 2 1, at 100, 1 thin; write-queue:; out write 0 0: Ra; feed collect 1 2 finished

@
start -> ok
collect collect 0 2 a -> ok
end collect 2 -> ok
take write 1 1 -> ok
done write 1 1 1 line -> ok
= 5 steps, next 2 1, at 100, 1 thin; write-queue:; out write 0 0: Ra; feed collect 1 2 finished

@
start -> ok
end collect 2 -> Behind { position: 0 }

@
start -> ok
collect collect 0 2 a -> ok
collect collect 0 2 a -> Behind { position: 2 }

@
start -> ok
collect collect 0 2 a -> ok
take write 1 1 -> ok
take write 1 1 -> HandFull { no: 1 }

@
start -> ok
collect collect 0 2 a -> ok
take write 1 1 -> ok
done write 1 1 1 line -> ok
done write 1 1 1 line -> NotInHand { no: None }

@
start -> ok
collect collect 0 2 a -> ok
take write 1 1 -> ok
done write 1 1 1 line -> ok
take write 1 1 -> Empty

@
start -> ok
collect collect 0 2 a -> ok
take write 1 1 -> ok
done write 1 1 1 line -> ok
end collect 2 -> ok
end collect 2 -> Finished

@
start -> ok
collect collect 0 2 a -> ok
take write 1 1 -> ok
done write 1 1 1 line -> ok
end collect 2 -> ok
collect collect 0 2 a -> Finished
";

fn orders() -> &'static str {
    ORDERS
}

#[test]
fn steps_in_other_orders(rt: HostRuntime) -> Result<(), Fail> {
    play(&rt, rt.alloc(), orders())
}
