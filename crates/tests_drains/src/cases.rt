//! The cases.

use crate::play::check;
use std::test::Fail;

// Of each piece a line that goes through, another, one that is a fault to each bot, and one of which the parser puts a part aside.
const LONG: &'static str = "bundle tiny
feed feed.csv 10 a b ? !
start -> 1, 1 steps, 0 messages, 0 dumps, 0 lines, 0 halted
drain * -> idle, 382 steps, 150 messages, 30 dumps, 60 lines, 0 halted
outputs -> ok, 382 steps, 150 messages, 30 dumps, 60 lines, 0 halted
redo 1 -> 383, 383 steps, 150 messages, 29 dumps, 60 lines, 0 halted
drain * -> idle, 388 steps, 150 messages, 30 dumps, 60 lines, 0 halted
outputs -> ok, 388 steps, 150 messages, 30 dumps, 60 lines, 0 halted
limit 4000 -> generation 10, due behind
limit 2000 -> generation 20, due behind
limit 1000 -> generation 39, due behind 388 388
";

fn long() -> &'static str {
    LONG
}

#[test]
fn a_long_drain_begins_generations(rt: HostRuntime) -> Result<(), Fail> {
    check(&rt, long())
}

const EACH: &'static str = "bundle tiny
feed feed.csv 3 a b ? !
start -> 1, 1 steps, 0 messages, 0 dumps, 0 lines, 0 halted
each 1 -> idle, 116 steps, 45 messages, 9 dumps, 18 lines, 0 halted
outputs -> ok, 116 steps, 45 messages, 9 dumps, 18 lines, 0 halted
limit 1000 -> generation 11, due behind 10 19 31 40 49 58 71 80 89 100 110
limit 600 -> generation 18, due behind 6 13 19 27 33 39 44 51 57 65 71 77 82 89 95 103 109 115
";

fn each() -> &'static str {
    EACH
}

#[test]
fn a_drain_for_each_step_goes_on(rt: HostRuntime) -> Result<(), Fail> {
    check(&rt, each())
}

const HALTS: &'static str = "bundle other
feed other.csv 3 a ? b
feed fetch.csv 3 c
feed gather.csv 3 d
start -> 1, 1 steps, 0 messages, 0 dumps, 0 lines, 0 halted
drain 10 -> left, 11 steps, 5 messages, 1 dumps, 1 lines, 1 halted
drain * -> halted, 48 steps, 18 messages, 3 dumps, 7 lines, 1 halted
start -> 49, 49 steps, 18 messages, 3 dumps, 7 lines, 0 halted
drain * -> halted, 70 steps, 22 messages, 6 dumps, 9 lines, 1 halted
start -> 71, 71 steps, 22 messages, 6 dumps, 9 lines, 0 halted
each 1 -> halted, 92 steps, 26 messages, 9 dumps, 11 lines, 1 halted
start -> 93, 93 steps, 26 messages, 9 dumps, 11 lines, 0 halted
drain 2 2 2 * -> left idle idle idle, 97 steps, 27 messages, 9 dumps, 12 lines, 0 halted
outputs -> ok, 97 steps, 27 messages, 9 dumps, 12 lines, 0 halted
limit 1000 -> generation 8, due behind 77 90
limit 600 -> generation 13, due behind 70 75 83 92 92
";

fn halts() -> &'static str {
    HALTS
}

#[test]
fn a_bot_halts_in_one_generation_and_goes_on_in_another(rt: HostRuntime) -> Result<(), Fail> {
    check(&rt, halts())
}

const RELOADS: &'static str = "bundle tiny
feed feed.csv 2 a b ? !
feed other.csv 2 e
feed fetch.csv 2 c
feed gather.csv 2 d
start -> 1, 1 steps, 0 messages, 0 dumps, 0 lines, 0 halted
drain 20 -> left, 21 steps, 10 messages, 0 dumps, 4 lines, 0 halted
reload other -> 22, 22 steps, 10 messages, 0 dumps, 4 lines, 0 halted
outputs -> ok, 22 steps, 10 messages, 0 dumps, 4 lines, 0 halted
each 3 -> idle, 52 steps, 18 messages, 1 dumps, 10 lines, 0 halted
outputs -> ok, 52 steps, 18 messages, 1 dumps, 10 lines, 0 halted
limit 1000 -> generation 4, due behind 40 52 52
limit 600 -> generation 8, due behind 37
";

fn reloads() -> &'static str {
    RELOADS
}

#[test]
fn a_bundle_comes_into_force_among_generations(rt: HostRuntime) -> Result<(), Fail> {
    check(&rt, reloads())
}
