//! Histories of three generations, whole and changed.

use crate::script::play;
use std::test::Fail;

const WHOLE: &'static str = "
new
+ start
+ collect collect 0 2 ab
+ take write 1 2
+ done write 1 2 1 line
seal
+ collect collect 2 4 ?x
+ take parse 1 1
+ done parse 1 1 1 dedup-queue>PRab
+ take write 1 4
+ retry write 1 4 1
seal
+ retry write 1 4 1
+ end collect 4
end
-> legal 11

# The root: its header, a record, the first name, the last one, and without that.
flip 0 0 -> none
flip 0 17 -> none
flip 0 25 -> legal 11
flip 0 59 -> damaged 23 0
cut 0 0 -> none
cut 0 50 -> legal 9

# The first generation: its header, its first gate, its state, the length of a record, a step, and its last gate.
flip 17 0 -> damaged 17 0
flip 17 15 -> damaged 17 0
flip 17 16 -> damaged 17 16
flip 17 32 -> damaged 17 25
flip 17 155 -> damaged 17 154
flip 17 163 -> damaged 17 163
flip 17 264 -> damaged 17 264
flip 17 307 -> damaged 17 307
cut 17 0 -> damaged 17 0
cut 17 15 -> damaged 17 0
cut 17 16 -> damaged 17 16
cut 17 100 -> damaged 17 16
# Without its last step the next one doesn't go on from it.
flip 17 255 -> damaged 19 25

# The line that the second one seals.
flip 16 0 -> damaged 19 25
flip 16 3 -> damaged 19 25
cut 16 3 -> damaged 19 25
cut 16 0 -> damaged 19 25

flip 19 15 -> damaged 19 0
flip 19 32 -> damaged 19 25
flip 19 204 -> damaged 19 203
flip 19 402 -> damaged 19 402
flip 19 444 -> damaged 19 444
cut 19 300 -> damaged 19 286
flip 19 393 -> damaged 21 25

flip 21 32 -> damaged 21 25
flip 21 278 -> damaged 21 278
flip 21 355 -> damaged 21 355
flip 21 320 -> legal 10
flip 21 269 -> legal 9
";

fn whole() -> &'static str {
    WHOLE
}

#[test]
fn a_fault_is_told_by_place(rt: HostRuntime) -> Result<(), Fail> {
    play(&rt, rt.alloc(), whole())
}

const STEPS: &'static str = "
# A fault with another note than the rules give can be replayed.
new
+ start
+ collect collect 0 2 ?x
+ take write 1 2
note 8
& retry write 1 2 1
end
-> illegal 4
# A step that isn't whole, which is behind it, and one in front of it.
flip 17 306 -> illegal 4
flip 17 231 -> damaged 17 230

# It is found ahead of what stands in later generations, and behind what stands in its own.
seal
& take write 1 9
end
-> illegal 4
flip 19 0 -> illegal 4
flip 17 163 -> damaged 17 163

# One that can't be replayed, behind one that isn't allowed and in front of it.
new
note 7
+ start
+ collect collect 0 2 ab
+ take write 1 2
& done write 1 2 1
& take write 1 9
end
-> illegal 4
new
+ start
+ collect collect 0 2 ab
& take write 1 9
& done write 1 2 1
end
-> damaged 17 230

# Another bundle is put in force within a generation: the bots work under the one that is.
new
+ start
+ collect collect 0 2 ab
+ take write 1 2
+ done write 1 2 1 line
+ reload other
+ collect collect 0 2 cd
end
-> legal 6
";

fn steps() -> &'static str {
    STEPS
}

#[test]
fn the_first_step_that_is_not_allowed_is_told(rt: HostRuntime) -> Result<(), Fail> {
    play(&rt, rt.alloc(), steps())
}

const STATES: &'static str = "
# Lines that a generation begins with, and that a later one seals.
new
+ start
+ collect collect 0 2 ab
+ take write 1 2
+ done write 1 2 1 line
keep
+ end collect 2
seal
end
-> legal 5
flip 16 1 -> damaged 21 25

# A line that is sealed, and that a generation has again.
new
+ start
+ collect collect 0 2 ab
+ take write 1 2
+ done write 1 2 1 line
seal
state 4 steps, next 3 1, at 100, 1 tiny; parse-queue: 1=Rab; write-queue:; out write 0 0: Rab; feed collect 1 2
end
-> damaged 21 25

# A state that isn't the one behind the steps: a message that is lost, and one that is invented.
new
+ start
+ collect collect 0 2 ab
state 2 steps, next 3 1, at 100, 1 tiny; parse-queue: 1=Rab; write-queue:; out write 0 0:; feed collect 1 2
end
-> damaged 19 25
new
+ start
state 1 steps, next 2 1, at 100, 1 tiny; parse-queue: 1=Rab; out write 0 0:; feed collect 1 0
end
-> damaged 19 25

# The first state is a new store's, of any bundle.
first 0 steps, next 1 1, at 0, 1 thin; out write 0 0:; feed collect 1 0
+ start
end
-> legal 1
first 1 steps, next 1 1, at 0, 1 tiny; out write 0 0:; feed collect 1 0
end
-> damaged 17 25
first 0 steps, next 1 1, at 0, 1 tiny; out write 0 0:; feed collect 1 1
end
-> damaged 17 25
";

fn states() -> &'static str {
    STATES
}

#[test]
fn a_generation_goes_on_from_the_one_before_it(rt: HostRuntime) -> Result<(), Fail> {
    play(&rt, rt.alloc(), states())
}
