//! The step of a bot that failed with a message: the message is put aside, and a copy goes to each queue of the path for
//! failures.
ghost use Rattle.std.specs.Prelude.{◌≡◌, ◌+◌, ◌≤◌, ◌<◌, ◌^◌, ◌++◌, ℕ, List, true, false, length, map, OnOk, OnErr, IfOk, vec_len, vec_capacity};
ghost use Rattle.std.specs.List.{list_any};
ghost use Rattle.std.specs.Str.{bytes_eq};
ghost use Rattle.step_code.specs.After.{body_in_hand, halted_by, put_aside, sent};
ghost use Rattle.step_code.specs.Spent.{last_given};
ghost use Rattle.ack_steps.specs.Held.{IsHeld};
ghost use Rattle.core_state.specs.Outputs.{HaveLengths};
ghost use Rattle.core_state.specs.Room.{HasRoom, HaveDumpsBelow};
ghost use Rattle.core_state.specs.State.{AreSendsNumbered, state_of};

use crate::held::Held;
use base_types::{Blob, BotName, FaultNote, OutOfMemory, QueueName};
use core_state::copies::copy_to_each;
use core_state::room::{make_dump_room, make_room};
use core_state::sends::send_all;
use core_state::state::State;
use std::alloc::Global;
use stored_types::{Coded, Dump};

pub fn is_halted(halted: &[BotName], bot: &BotName) -> bool
    ensures { result ≡ list_any (λ name. bytes_eq name bot.now) halted.now }
{
    halted.iter().any(|name| *name == *bot)
}

// The bot stands among the halted ones where that is asked. It takes no memory.
fn halt(halted: &mut Vec<BotName>, bot: &BotName, halts: bool)
    requires { vec_len halted.old < vec_capacity halted.old }
    ensures { halted.new.items ≡ halted_by halts bot.now halted.old.items }
{
    if halts && !is_halted(halted, bot) {
        halted.push_reserved(*bot);
    }
}

// A copy for each queue of the body that an instance holds.
fn copies_of_body(
    alloc: Global,
    state: &State,
    held: Held,
    queues: &[QueueName],
) -> Result<Vec<(QueueName, Blob)>, OutOfMemory>
    requires { IsHeld held.bot held.instance held.message (state_of state.now) }
    ensures { IfOk result (λ copies. copies.items ≡ map (λ queue. (queue, body_in_hand held.bot held.instance (state_of state.now))) queues.now) }
{
    match state.broker.in_hand(&held.bot, held.instance) {
        Some(hand) => copy_to_each(alloc, queues, &hand.message.body),
        None => unreachable!(),
    }
}

// What an instance holds becomes the next dump. It takes no memory.
fn dump_held(state: &mut State, held: Held, note: FaultNote)
    requires held { IsHeld held.bot held.instance held.message (state_of state.old) }
    requires below { HaveDumpsBelow (state_of state.old) }
    requires room { 1 ≤ state.old.dumps.spare }
    requires small { state.old.next_dump ≤ last_given }
    ensures put_aside { state_of state.new ≡ put_aside held.bot held.instance held.message note held.now (state_of state.old) }
    ensures queues { (sends : List (List ℕ × List ℕ)) → HasRoom sends state.old.broker → HasRoom sends state.new.broker }
    ensures same { state.new ≡ record state.old { broker = state.new.broker; dumps = state.new.dumps; next_dump = state.new.next_dump } }
    ensures pushed { state.new.broker.pushed ≡ state.old.broker.pushed }
{
    let Ok(message) = state.broker.ack(&held.bot, held.instance, held.message) else {
        unreachable!()
    };
    state.dumps.add(Dump {
        no: state.next_dump,
        bot: held.bot,
        message,
        note,
        moment: held.now,
    });
    state.next_dump += 1;
}

// Makes room for a dump, a halted bot, and these sends. The state stays.
fn make_all_room(state: &mut State, sends: &[(QueueName, Blob)]) -> Result<(), OutOfMemory>
    ensures same { state_of state.new ≡ state_of state.old }
    ensures outs { state.new.outs ≡ state.old.outs }
    ensures caches { state.new.caches ≡ state.old.caches }
    ensures pushed { state.new.broker.pushed ≡ state.old.broker.pushed }
    ensures sends { OnOk result (HasRoom sends.now state.new.broker) }
    ensures dump { OnOk result (1 ≤ state.new.dumps.spare) }
    ensures halted { OnOk result (vec_len state.new.halted < vec_capacity state.new.halted) }
{
    state.halted.reserve(1)?;
    make_dump_room(&mut state.dumps, 1)?;
    make_room(&mut state.broker, sends)
}

/// A bot's instance failed with the message in its hand. Want of memory changes nothing.
pub fn fail(
    state: &mut State,
    alloc: Global,
    held: Held,
    note: &FaultNote,
    queues: &[QueueName],
    halts: bool,
) -> Result<(), OutOfMemory>
    requires held { IsHeld held.bot held.instance held.message (state_of state.old) }
    requires below { HaveDumpsBelow (state_of state.old) }
    requires messages { state.old.next_message + length queues.now ≤ last_given + 1 }
    requires dumps { state.old.next_dump ≤ last_given }
    requires few { state.old.broker.pushed + length queues.now ≤ 2 ^ 63 }
    ensures ok { OnOk result (state_of state.new ≡ sent (map (λ queue. (queue, body_in_hand held.bot held.instance (state_of state.old))) queues.now)
        (put_aside held.bot held.instance held.message note.now held.now (record (state_of state.old) { halted = halted_by halts held.bot (state_of state.old).halted }))) }
    ensures err { OnErr result (state_of state.new ≡ state_of state.old) }
    ensures outs { state.new.outs ≡ state.old.outs }
    ensures caches { state.new.caches ≡ state.old.caches }
    ensures pushed { AreSendsNumbered state.old state.new }
{
    let copies = copies_of_body(alloc, state, held, queues)?;
    let note = note.copy(alloc)?;
    make_all_room(state, &copies)?;
    halt(&mut state.halted, &held.bot, halts);
    dump_held(state, held, note);
    send_all(state, copies);
    Ok(())
}
