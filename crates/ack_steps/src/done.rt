//! The step of a bot that is done with a message: successors, dumps, mark, line and acknowledgement are one.
ghost use Rattle.std.specs.Prelude.{◌≡◌, ◌+◌, ◌-◌, ◌≤◌, ◌^◌, ◌++◌, true, false, ℕ, List, length, Some, OnOk, OnErr};
ghost use Rattle.base_types.specs.Lists.{without};
ghost use Rattle.stored_types.specs.Hand.{is_hand};
ghost use Rattle.stored_types.specs.Mark.{fresh, is_marked};
ghost use Rattle.step_code.specs.declared.rules.CacheRule.{CacheRule};
ghost use Rattle.step_code.specs.After.{body_in_hand, cached, dumped, sent, written};
ghost use Rattle.step_code.specs.Spent.{last_given};
ghost use Rattle.step_code.specs.State.{marks_of};
ghost use Rattle.ack_steps.specs.Held.{IsHeld};
ghost use Rattle.dedup_cache.specs.Cache.{ArePast};
ghost use Rattle.core_state.specs.Caches.{GotAtMost};
ghost use Rattle.core_state.specs.Outputs.{HasLineRoom, HaveLengths};
ghost use Rattle.core_state.specs.Room.{AreAbove, HasRoom, HaveDumpsBelow};
ghost use Rattle.core_state.specs.State.{AreSendsNumbered, state_of};

use crate::held::Held;
use base_types::{Blob, BotName, FaultNote, OutOfMemory, QueueName};
use core_state::caches::mark;
use core_state::copies::new_dumps;
use core_state::outputs;
use core_state::room::{make_dump_room, make_room};
use core_state::sends::send_all;
use core_state::state::State;
use dump_store::Dumps;
use std::alloc::Global;
use step_code::CacheRule;
use stored_types::{Coded, Dump, copies};

/// What a bot made of a message: bodies for queues, parts that could not be processed, a key for its cache, and whether it
/// writes a line.
#[derive(Clone, Copy)]
pub struct Made<'s> {
    pub sends: &'s [(QueueName, Blob)],
    pub dumps: &'s [(Blob, FaultNote)],
    pub key: &'s Option<Blob>,
    pub line: bool,
}

// Puts dumps behind those that are there, one by one.
fn add_all(to: &mut Dumps, dumps: Vec<Dump>)
    requires room { length dumps.items ≤ to.old.spare }
    requires above { AreAbove to.old.dumps dumps.items }
    ensures { to.new.dumps ≡ to.old.dumps ++ dumps.items }
{
    'dumps: for dump in dumps {
        to.add(dump);
    }
}

// Puts dumps behind those that are there. It takes no memory.
fn put_aside(state: &mut State, dumps: Vec<Dump>)
    requires room { length dumps.items ≤ state.old.dumps.spare }
    requires above { AreAbove state.old.dumps.dumps dumps.items }
    requires messages { state.old.next_message + length dumps.items ≤ last_given + 1 }
    requires dumps { state.old.next_dump + length dumps.items ≤ last_given + 1 }
    ensures put { state_of state.new ≡ record (state_of state.old) {
      dumps = state.old.dumps.dumps ++ dumps.items;
      next_message = state.old.next_message + length dumps.items;
      next_dump = state.old.next_dump + length dumps.items;
    } }
    ensures same { state.new ≡ record state.old { dumps = state.new.dumps; next_message = state.new.next_message; next_dump = state.new.next_dump } }
{
    let count = dumps.len() as u64;
    add_all(&mut state.dumps, dumps);
    state.next_message += count;
    state.next_dump += count;
}

// Makes room for these sends, for so many dumps that come, and for a line of the bot. The state stays.
fn make_all_room(
    state: &mut State,
    bot: &BotName,
    sends: &[(QueueName, Blob)],
    dumps: usize,
) -> Result<(), OutOfMemory>
    ensures same { state_of state.new ≡ state_of state.old }
    ensures lengths { HaveLengths state.old.outs.items → HaveLengths state.new.outs.items }
    ensures sends { OnOk result (HasRoom sends.now state.new.broker) }
    ensures dumps { OnOk result (dumps ≤ state.new.dumps.spare) }
    ensures line { OnOk result (HasLineRoom bot.now state.new.outs.items) }
    ensures pushed { state.new.broker.pushed ≡ state.old.broker.pushed }
    ensures caches { state.new.caches ≡ state.old.caches }
{
    outputs::make_room(&mut state.outs, bot)?;
    make_dump_room(&mut state.dumps, dumps)?;
    make_room(&mut state.broker, sends)
}

// The hand is emptied, and what it held is written to the bot's output where that is asked.
fn acknowledge(state: &mut State, held: Held, line: bool)
    requires held { IsHeld held.bot held.instance held.message (state_of state.old) }
    requires room { HasLineRoom held.bot state.old.outs.items }
    ensures done { state_of state.new ≡ record (state_of state.old) {
      outs = written line held.bot (body_in_hand held.bot held.instance (state_of state.old)) (state_of state.old).outs;
      hands = without (is_hand held.bot held.instance) (state_of state.old).hands;
    } }
    ensures lengths { HaveLengths state.old.outs.items → HaveLengths state.new.outs.items }
    ensures pushed { state.new.broker.pushed ≡ state.old.broker.pushed }
    ensures caches { state.new.caches ≡ state.old.caches }
{
    let Ok(message) = state.broker.ack(&held.bot, held.instance, held.message) else {
        unreachable!()
    };
    if line {
        outputs::write_line(&mut state.outs, &held.bot, message.body);
    }
}

/// A bot's instance is done with the message in its hand. Want of memory changes nothing.
pub fn done(
    state: &mut State,
    alloc: Global,
    rule: Option<CacheRule>,
    held: Held,
    made: Made<'_>,
) -> Result<(), OutOfMemory>
    requires held { IsHeld held.bot held.instance held.message (state_of state.old) }
    requires below { HaveDumpsBelow (state_of state.old) }
    requires past { ArePast held.now.0 (marks_of held.bot (state_of state.old).caches) }
    requires new { (r : CacheRule) (k : List ℕ) → rule ≡ Some r → made.key.now ≡ Some k → is_marked k (fresh r.ttl held.now.0 (marks_of held.bot (state_of state.old).caches)) ≡ false }
    requires messages { state.old.next_message + length made.sends.now + length made.dumps.now ≤ last_given + 1 }
    requires few { state.old.broker.pushed + length made.sends.now ≤ 2 ^ 63 }
    requires marks { GotAtMost (2 ^ 63 - 1) state.old.caches.items }
    requires dumps { state.old.next_dump + length made.dumps.now ≤ last_given + 1 }
    ensures ok { OnOk result (state_of state.new ≡ dumped held.bot held.now made.entry.dumps.now (sent made.entry.sends.now (record (state_of state.old) {
      caches = cached rule held.bot held.now made.entry.key.now (state_of state.old).caches;
      outs = written made.entry.line held.bot (body_in_hand held.bot held.instance (state_of state.old)) (state_of state.old).outs;
      hands = without (is_hand held.bot held.instance) (state_of state.old).hands;
    }))) }
    ensures err { OnErr result (state_of state.new ≡ state_of state.old) }
    ensures lengths { HaveLengths state.old.outs.items → HaveLengths state.new.outs.items }
    ensures pushed { AreSendsNumbered state.old state.new }
    ensures got { (n : ℕ) → GotAtMost n state.old.caches.items → OnOk result (GotAtMost (n + 1) state.new.caches.items) }
    ensures kept { (n : ℕ) → GotAtMost n state.old.caches.items → OnErr result (GotAtMost n state.new.caches.items) }
{
    let sends = copies(alloc, made.sends)?;
    let no = state.next_message + sends.len() as u64;
    let dumps = new_dumps(alloc, no, state.next_dump, &held.bot, held.now, made.dumps)?;
    let key = made.key.copy(alloc)?;
    make_all_room(state, &held.bot, &sends, dumps.len())?;
    mark(&mut state.caches, alloc, rule, &held.bot, held.now, key)?;
    send_all(state, sends);
    put_aside(state, dumps);
    acknowledge(state, held, made.line);
    Ok(())
}
