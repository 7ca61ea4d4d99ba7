//! Calls on threads, beside one on this thread.
ghost use Rattle.std.specs.Fork.{AcceptsEach};
ghost use Rattle.std.specs.Thread.{IsSend, IsSync};
ghost use Rattle.bot_runner.specs.Calls.{Accepts, AreCalled, IsCalled};

use std::thread;
use std::thread::Threads;

// Calls one at each slot, each on a thread of its own where one can be made, and the other beside them on this thread, at two values.
pub(crate) fn call_each_beside<
    R: Threads + Sync,
    T: Send,
    W,
    K,
    F: Fn(usize, &mut T) + Sync,
    G: Fn(&mut W, &mut K),
>(rt: &R, each: &F, beside: &G, slots: &mut [T], mine: &mut W, other: &mut K)
    requires accepts { AcceptsEach F.Fn each.now slots.old }
    requires beside { Accepts G.Fn beside.now mine.old other.old }
    ensures each { AreCalled F.Fn each.now slots.old slots.new }
    ensures beside { IsCalled G.Fn beside.now mine.old other.old mine.new other.new }
{
    let mut all = ||
        requires { IsSync R.row × IsSync F.row × IsSend T.row × AcceptsEach F.Fn each.now slots.now }
        ensures { AreCalled F.Fn each.entry.now slots.entry.now slots.exit.now }
    { call_each(rt, each, slots) };
    let mut one = ||
        requires { Accepts G.Fn beside.now mine.now other.now }
        ensures { IsCalled G.Fn beside.entry.now mine.entry.now other.entry.now mine.exit.now other.exit.now }
    { call_one(beside, mine, other) };
    thread::join_mut(rt, &mut all, &mut one);
}

// Calls this at each slot, each on a thread of its own where one can be made.
fn call_each<R: Threads + Sync, T: Send, F: Fn(usize, &mut T) + Sync>(
    rt: &R,
    each: &F,
    slots: &mut [T],
)
    requires { AcceptsEach F.Fn each.now slots.old }
    ensures { AreCalled F.Fn each.now slots.old slots.new }
{
    if slots.is_empty() {
        return;
    }
    let threads = slots.len();
    thread::for_each_mut(rt, slots, threads, each);
}

// Calls this once.
fn call_one<W, K, G: Fn(&mut W, &mut K)>(beside: &G, mine: &mut W, other: &mut K)
    requires { Accepts G.Fn beside.now mine.old other.old }
    ensures { IsCalled G.Fn beside.now mine.old other.old mine.new other.new }
{
    beside(mine, other);
}
