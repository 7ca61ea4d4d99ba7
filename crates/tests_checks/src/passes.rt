//! Steps of bots that are done with a message: they carry what the rules give.

use crate::script::play;
use std::test::Fail;

const ROWS: &'static str = "
@ 0 steps, next 10 1, at 100, 3 tiny; parse-queue:; write-queue:; dedup-queue:; hand parse 1: 5=!q, 0 tries, since 100; hand parse 2: 4=x, 0 tries, since 100; hand write 1: 3=y, 0 tries, since 100; hand dedup 1: 2=z, 0 tries, since 100; out write 0 0:; feed collect 1 8

done parse 2 4 3 dedup-queue>Px -> may
# No successor, another body, another queue, and one too many.
done parse 2 4 3 -> fits
done parse 2 4 3 dedup-queue>Py -> fits
done parse 2 4 3 write-queue>Px -> fits
done parse 2 4 3 dedup-queue>Px dedup-queue>Px -> fits

done parse 1 5 3 dedup-queue>P!q dump>!q -> may
# No dump, and that of another body; a dump of a message without bad parts.
done parse 1 5 3 dedup-queue>P!q -> fits
done parse 1 5 3 dedup-queue>P!q dump>!r -> fits
done parse 2 4 3 dedup-queue>Px dump>x -> fits

done write 1 3 3 line -> may
done write 1 3 3 -> fits

done dedup 1 2 3 write-queue>Dz key>z -> may
# No key, another, no successor, and the step of a duplicate.
done dedup 1 2 3 write-queue>Dz -> fits
done dedup 1 2 3 write-queue>Dz key>y -> fits
done dedup 1 2 3 key>z -> fits
done dedup 1 2 3 -> fits

# What passes doesn't fail.
retry parse 2 4 3 -> fits

# The hand has another message, the bundle another number, and the moment is before the latest.
done parse 2 5 3 dedup-queue>Px -> unfit
done parse 2 4 2 dedup-queue>Px -> unfit
at 99
done parse 2 4 3 dedup-queue>Px -> unfit
";

fn rows() -> &'static str {
    ROWS
}

#[test]
fn what_passes_is_what_the_rules_give(rt: HostRuntime) -> Result<(), Fail> {
    play(&rt, rt.alloc(), rows())
}

// A key is a duplicate for 60 seconds.
const DUPLICATES: &'static str = "
@ 0 steps, next 10 1, at 100, 3 tiny; dedup-queue:; hand dedup 1: 2=z, 0 tries, since 100; cache dedup: z@90; out write 0 0:; feed collect 1 8

done dedup 1 2 3 -> may
# A successor, and a mark of another key.
done dedup 1 2 3 write-queue>Dz -> fits
done dedup 1 2 3 key>y -> fits
done dedup 1 2 3 write-queue>Dz key>y -> fits
# A mark of its own key shows that it is wrong.
done dedup 1 2 3 write-queue>Dz key>z -> unfit

at 149
done dedup 1 2 3 -> may
at 150
done dedup 1 2 3 -> fits
done dedup 1 2 3 write-queue>Dz key>z -> may
";

fn duplicates() -> &'static str {
    DUPLICATES
}

#[test]
fn a_duplicate_leaves_without_successors_and_without_a_mark(rt: HostRuntime) -> Result<(), Fail> {
    play(&rt, rt.alloc(), duplicates())
}
