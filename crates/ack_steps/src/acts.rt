//! What the steps of collectors and the plain steps on messages do. All memory is taken before anything changes.
ghost use Rattle.std.specs.Prelude.{◌≡◌, ◌+◌, ◌<◌, ◌≤◌, ◌^◌, [], ℕ, true, false, length, find, OnOk, OnErr, Some, None};
ghost use Rattle.base_types.specs.Lists.{changed};
ghost use Rattle.base_types.specs.Name.{queue_name};
ghost use Rattle.base_types.specs.Number.{last_u64};
ghost use Rattle.stored_types.specs.Hand.{is_hand};
ghost use Rattle.step_code.specs.declared.feed.Feed.{Feed};
ghost use Rattle.stored_types.specs.declared.hand.Hand.{Hand};
ghost use Rattle.step_code.specs.After.{next_round, redone, sent, taken_first};
ghost use Rattle.step_code.specs.Spent.{last_given};
ghost use Rattle.step_code.specs.State.{hand_of, is_dump, is_feed, waiting};
ghost use Rattle.core_state.specs.State.{AreSendsNumbered, state_of};

use base_types::{Blob, BotName, Moment, OutOfMemory, QueueName, queue_of};
use core_state::feeds;
use core_state::room::{make_hand_room, make_message_room, make_room};
use core_state::sends::send_all;
use core_state::state::State;
use queue_broker::TakeFault;

pub fn start(state: &mut State)
    ensures start { state_of state.new ≡ record (state_of state.old) { halted = [] } }
    ensures outs { state.new.outs ≡ state.old.outs }
    ensures caches { state.new.caches ≡ state.old.caches }
    ensures pushed { AreSendsNumbered state.old state.new }
{
    state.halted.clear();
}

pub fn end_feed(state: &mut State, bot: &BotName)
    ensures end { state_of state.new ≡ record (state_of state.old) { feeds = changed (is_feed bot.now) (λ f. record f { finished = true }) (state_of state.old).feeds } }
    ensures outs { state.new.outs ≡ state.old.outs }
    ensures caches { state.new.caches ≡ state.old.caches }
    ensures pushed { AreSendsNumbered state.old state.new }
{
    feeds::finish(&mut state.feeds, bot);
}

/// A collector begins its feed anew.
pub fn begin_round(state: &mut State, bot: &BotName)
    requires { (f : Feed) → find (is_feed bot.now) state.old.feeds.items ≡ Some f → f.round < last_u64 }
    ensures round { state_of state.new ≡ record (state_of state.old) { feeds = changed (is_feed bot.now) next_round (state_of state.old).feeds } }
    ensures outs { state.new.outs ≡ state.old.outs }
    ensures caches { state.new.caches ≡ state.old.caches }
    ensures pushed { AreSendsNumbered state.old state.new }
{
    feeds::begin_again(&mut state.feeds, bot);
}

/// A collector's report of a piece of its feed is sent, and its position is behind the piece.
pub fn collect(
    state: &mut State,
    bot: &BotName,
    upto: u64,
    sends: Vec<(QueueName, Blob)>,
) -> Result<(), OutOfMemory>
    requires numbers { state.old.next_message + length sends.items ≤ last_given + 1 }
    requires few { state.old.broker.pushed + length sends.items ≤ 2 ^ 63 }
    ensures ok { OnOk result (state_of state.new ≡ sent sends.items (record (state_of state.old) {
      feeds = changed (is_feed bot.now) (λ f. record f { position = upto }) (state_of state.old).feeds;
    })) }
    ensures err { OnErr result (state_of state.new ≡ state_of state.old) }
    ensures outs { state.new.outs ≡ state.old.outs }
    ensures caches { state.new.caches ≡ state.old.caches }
    ensures pushed { AreSendsNumbered state.old state.new }
{
    make_room(&mut state.broker, &sends)?;
    send_all(state, sends);
    feeds::go_to(&mut state.feeds, bot, upto);
    Ok(())
}

/// An instance takes the message at the front of its bot's queue, if one waits there.
pub fn take(state: &mut State, bot: &BotName, instance: u8, now: Moment) -> Result<(), OutOfMemory>
    requires { hand_of bot.now instance (state_of state.old) ≡ None }
    ensures ok { OnOk result (state_of state.new ≡ taken_first bot.now instance now (waiting (queue_name bot.now) (state_of state.old)) (state_of state.old)) }
    ensures err { OnErr result (state_of state.new ≡ state_of state.old) }
    ensures outs { state.new.outs ≡ state.old.outs }
    ensures caches { state.new.caches ≡ state.old.caches }
    ensures pushed { AreSendsNumbered state.old state.new }
{
    make_hand_room(&mut state.broker)?;
    match state.broker.take(bot, instance, now) {
        Ok(()) => Ok(()),
        Err(TakeFault::Empty) => Ok(()),
        Err(TakeFault::HandFull { .. }) => unreachable!(),
    }
}

/// The message that an instance holds is to be tried again.
pub fn retry(state: &mut State, bot: &BotName, instance: u8)
    requires tries { (h : Hand) → hand_of bot.now instance (state_of state.old) ≡ Some h → h.tries < 100 }
    requires full { hand_of bot.now instance (state_of state.old) ≡ None → ⊥ }
    ensures tried { state_of state.new ≡ record (state_of state.old) { hands = changed (is_hand bot.now instance) (λ h. record h { tries = h.tries + 1 }) (state_of state.old).hands } }
    ensures outs { state.new.outs ≡ state.old.outs }
    ensures caches { state.new.caches ≡ state.old.caches }
    ensures pushed { AreSendsNumbered state.old state.new }
{
    state.broker.tried(bot, instance);
}

/// The message of a dump goes to the end of its bot's queue.
pub fn redo(state: &mut State, dump: u64) -> Result<(), OutOfMemory>
    requires few { state.old.broker.pushed < 2 ^ 63 }
    ensures ok { OnOk result (state_of state.new ≡ redone dump (find (is_dump dump) (state_of state.old).dumps) (state_of state.old)) }
    ensures err { OnErr result (state_of state.new ≡ state_of state.old) }
    ensures outs { state.new.outs ≡ state.old.outs }
    ensures caches { state.new.caches ≡ state.old.caches }
    ensures pushed { OnOk result (state.new.broker.pushed ≤ state.old.broker.pushed + 1) }
    ensures unsent { OnErr result (state.new.broker.pushed ≡ state.old.broker.pushed) }
{
    make_message_room(&mut state.broker)?;
    if let Some(dump) = state.dumps.take_out(dump) {
        state.broker.send(&queue_of(&dump.bot), dump.message);
    }
    Ok(())
}
