//! The marks of a bot that drops duplicates: they expire after 60 seconds, and two are kept.

use crate::script::play;
use std::test::Fail;

const STEPS: &'static str = "
# A cache is made with its first mark.
@ 0 steps, next 2 1, at 1000, 1 tiny; dedup-queue:; hand dedup 1: 1=a, 0 tries, since 1000; out write 0 0:; feed collect 1 0
at 1000
done dedup 1 1 1 write-queue>D key>a -> ok
= 1 steps, next 3 1, at 1000, 1 tiny; dedup-queue:; write-queue: 2=D; cache dedup: a@1000; out write 0 0:; feed collect 1 0

@ 0 steps, next 2 1, at 1000, 1 tiny; dedup-queue:; hand dedup 1: 1=a, 0 tries, since 1000; out write 0 0:; feed collect 1 0
at 1000
done dedup 1 1 1 -> ok
= 1 steps, next 2 1, at 1000, 1 tiny; dedup-queue:; out write 0 0:; feed collect 1 0

# At an age of 59 seconds the key is a duplicate, and its mark stays.
@ 0 steps, next 2 1, at 1000, 1 tiny; dedup-queue:; hand dedup 1: 1=a, 0 tries, since 1000; cache dedup: a@1000; out write 0 0:; feed collect 1 0
at 1059
done dedup 1 1 1 write-queue>D key>a -> unfit

@ 0 steps, next 2 1, at 1000, 1 tiny; dedup-queue:; hand dedup 1: 1=a, 0 tries, since 1000; cache dedup: a@1000; out write 0 0:; feed collect 1 0
at 1059
done dedup 1 1 1 -> ok
= 1 steps, next 2 1, at 1059, 1 tiny; dedup-queue:; cache dedup: a@1000; out write 0 0:; feed collect 1 0

# At 60 it has left.
@ 0 steps, next 2 1, at 1000, 1 tiny; dedup-queue:; hand dedup 1: 1=a, 0 tries, since 1000; cache dedup: a@1000; out write 0 0:; feed collect 1 0
at 1060
done dedup 1 1 1 write-queue>D key>a -> ok
= 1 steps, next 3 1, at 1060, 1 tiny; dedup-queue:; write-queue: 2=D; cache dedup: a@1060; out write 0 0:; feed collect 1 0

@ 0 steps, next 2 1, at 1000, 1 tiny; dedup-queue:; hand dedup 1: 1=a, 0 tries, since 1000; cache dedup: a@1000; out write 0 0:; feed collect 1 0
at 1060
done dedup 1 1 1 -> ok
= 1 steps, next 2 1, at 1060, 1 tiny; dedup-queue:; cache dedup:; out write 0 0:; feed collect 1 0

# Another key is none.
@ 0 steps, next 2 1, at 1000, 1 tiny; dedup-queue:; hand dedup 1: 1=a, 0 tries, since 1000; cache dedup: a@1000; out write 0 0:; feed collect 1 0
at 1000
done dedup 1 1 1 write-queue>D key>b -> ok
= 1 steps, next 3 1, at 1000, 1 tiny; dedup-queue:; write-queue: 2=D; cache dedup: a@1000 b@1000; out write 0 0:; feed collect 1 0

# The oldest mark leaves for a third.
@ 0 steps, next 2 1, at 1001, 1 tiny; dedup-queue:; hand dedup 1: 1=a, 0 tries, since 1001; cache dedup: a@1000 b@1001; out write 0 0:; feed collect 1 0
at 1002
done dedup 1 1 1 write-queue>D key>c -> ok
= 1 steps, next 3 1, at 1002, 1 tiny; dedup-queue:; write-queue: 2=D; cache dedup: b@1001 c@1002; out write 0 0:; feed collect 1 0

@ 0 steps, next 2 1, at 1002, 1 tiny; dedup-queue:; hand dedup 1: 1=a, 0 tries, since 1002; cache dedup: b@1001 c@1002; out write 0 0:; feed collect 1 0
at 1003
done dedup 1 1 1 write-queue>D key>a -> ok
= 1 steps, next 3 1, at 1003, 1 tiny; dedup-queue:; write-queue: 2=D; cache dedup: c@1002 a@1003; out write 0 0:; feed collect 1 0

# Neither is the key of the last mark free, nor that of the first.
@ 0 steps, next 2 1, at 1001, 1 tiny; dedup-queue:; hand dedup 1: 1=a, 0 tries, since 1001; cache dedup: a@1000 b@1001; out write 0 0:; feed collect 1 0
at 1002
done dedup 1 1 1 write-queue>D key>b -> unfit

@ 0 steps, next 2 1, at 1001, 1 tiny; dedup-queue:; hand dedup 1: 1=a, 0 tries, since 1001; cache dedup: a@1000 b@1001; out write 0 0:; feed collect 1 0
at 1002
done dedup 1 1 1 write-queue>D key>a -> unfit

# Marks that have expired don't count: the other stays.
@ 0 steps, next 2 1, at 1050, 1 tiny; dedup-queue:; hand dedup 1: 1=a, 0 tries, since 1050; cache dedup: a@1000 b@1050; out write 0 0:; feed collect 1 0
at 1060
done dedup 1 1 1 write-queue>D key>c -> ok
= 1 steps, next 3 1, at 1060, 1 tiny; dedup-queue:; write-queue: 2=D; cache dedup: b@1050 c@1060; out write 0 0:; feed collect 1 0

@ 0 steps, next 2 1, at 1050, 1 tiny; dedup-queue:; hand dedup 1: 1=a, 0 tries, since 1050; cache dedup: a@1000 b@1050; out write 0 0:; feed collect 1 0
at 1060
done dedup 1 1 1 write-queue>D key>a -> ok
= 1 steps, next 3 1, at 1060, 1 tiny; dedup-queue:; write-queue: 2=D; cache dedup: b@1050 a@1060; out write 0 0:; feed collect 1 0

@ 0 steps, next 2 1, at 1000, 1 tiny; dedup-queue:; hand dedup 1: 1=a, 0 tries, since 1000; cache dedup: a@1000 b@1000; out write 0 0:; feed collect 1 0
at 9999
done dedup 1 1 1 write-queue>D key>c -> ok
= 1 steps, next 3 1, at 9999, 1 tiny; dedup-queue:; write-queue: 2=D; cache dedup: c@9999; out write 0 0:; feed collect 1 0
";

fn steps() -> &'static str {
    STEPS
}

#[test]
fn marks_of_one_step(rt: HostRuntime) -> Result<(), Fail> {
    play(&rt, rt.alloc(), steps())
}

const COURSE: &'static str = "
@ 0 steps, next 4 1, at 0, 1 tiny; dedup-queue: 1=a 2=a 3=a; out write 0 0:; feed collect 1 0
at 1000
take dedup 1 1 -> ok
= 1 steps, next 4 1, at 1000, 1 tiny; dedup-queue: 2=a 3=a; hand dedup 1: 1=a, 0 tries, since 1000; out write 0 0:; feed collect 1 0
done dedup 1 1 1 write-queue>D key>a -> ok
= 2 steps, next 5 1, at 1000, 1 tiny; dedup-queue: 2=a 3=a; write-queue: 4=D; cache dedup: a@1000; out write 0 0:; feed collect 1 0
at 1001
take dedup 1 2 -> ok
= 3 steps, next 5 1, at 1001, 1 tiny; dedup-queue: 3=a; write-queue: 4=D; hand dedup 1: 2=a, 0 tries, since 1001; cache dedup: a@1000; out write 0 0:; feed collect 1 0
at 1059
done dedup 1 2 1 write-queue>D key>a -> unfit
done dedup 1 2 1 -> ok
= 4 steps, next 5 1, at 1059, 1 tiny; dedup-queue: 3=a; write-queue: 4=D; cache dedup: a@1000; out write 0 0:; feed collect 1 0
take dedup 1 3 -> ok
= 5 steps, next 5 1, at 1059, 1 tiny; dedup-queue:; write-queue: 4=D; hand dedup 1: 3=a, 0 tries, since 1059; cache dedup: a@1000; out write 0 0:; feed collect 1 0
done dedup 1 3 1 write-queue>D key>a -> unfit
at 1060
done dedup 1 3 1 write-queue>D key>a -> ok
= 6 steps, next 6 1, at 1060, 1 tiny; dedup-queue:; write-queue: 4=D 5=D; cache dedup: a@1060; out write 0 0:; feed collect 1 0

# Three keys come while two marks are kept. The first key's mark leaves for the third's, and the key is let through again; then all expire.
@ 0 steps, next 6 1, at 1000, 1 tiny; dedup-queue: 1=a 2=a 3=a 4=a 5=a; out write 0 0:; feed collect 1 0
at 1000
take dedup 1 1 -> ok
done dedup 1 1 1 write-queue>D key>a -> ok
take dedup 1 2 -> ok
done dedup 1 2 1 write-queue>D key>b -> ok
= 4 steps, next 8 1, at 1000, 1 tiny; dedup-queue: 3=a 4=a 5=a; write-queue: 6=D 7=D; cache dedup: a@1000 b@1000; out write 0 0:; feed collect 1 0
at 1001
take dedup 1 3 -> ok
done dedup 1 3 1 write-queue>D key>a -> unfit
done dedup 1 3 1 write-queue>D key>c -> ok
= 6 steps, next 9 1, at 1001, 1 tiny; dedup-queue: 4=a 5=a; write-queue: 6=D 7=D 8=D; cache dedup: b@1000 c@1001; out write 0 0:; feed collect 1 0
take dedup 1 4 -> ok
done dedup 1 4 1 write-queue>D key>a -> ok
= 8 steps, next 10 1, at 1001, 1 tiny; dedup-queue: 5=a; write-queue: 6=D 7=D 8=D 9=D; cache dedup: c@1001 a@1001; out write 0 0:; feed collect 1 0
at 2000
take dedup 1 5 -> ok
done dedup 1 5 1 write-queue>D key>c -> ok
= 10 steps, next 11 1, at 2000, 1 tiny; dedup-queue:; write-queue: 6=D 7=D 8=D 9=D 10=D; cache dedup: c@2000; out write 0 0:; feed collect 1 0
";

fn course() -> &'static str {
    COURSE
}

#[test]
fn a_key_is_let_through_again_once_its_mark_has_expired(rt: HostRuntime) -> Result<(), Fail> {
    play(&rt, rt.alloc(), course())
}
