//! What others read of the core. Each call answers a part of the state exactly, and takes no memory.
ghost use Rattle.std.specs.Prelude.{◌≡◌, ◌<◌, length, min, find, option_map, slice_get, Some, None, IsSomeAnd, MatchOption};
ghost use Rattle.base_types.specs.Name.{queue_name};
ghost use Rattle.base_types.specs.Number.{last_u64};
ghost use Rattle.stored_types.specs.Queue.{queued};
ghost use Rattle.queue_broker.specs.Broker.{front_of, lent, total};
ghost use Rattle.ack_steps.specs.Core.{HasNearFeeds};
ghost use Rattle.core_state.specs.Outputs.{outs_of};
ghost use Rattle.step_code.specs.Content.{is_duplicate};
ghost use Rattle.step_code.specs.State.{backlog, bots_in_force, hand_of, is_feed, is_halted};

use crate::content::is_duplicate;
use crate::failing::is_halted;
use crate::pipeline_core::Core;
use base_types::{Blob, BotName, Moment, QueueName, queue_of};
use core_state::backlog::live_bytes;
use core_state::feeds;
use core_state::outputs::Written;
use dump_store::Dumps;
use queue_broker::{HandAt, InHand};
use step_code::{Feed, Rules};

/// An output as it stands: so many bytes and lines are sealed in its file, and these lines stand behind them.
#[derive(Clone, Copy, Debug)]
pub struct OutputLook<'c> {
    pub bot: &'c BotName,
    pub sealed_bytes: u64,
    pub sealed_lines: u64,
    pub lines: &'c [Blob],
}

fn look_of(outs: &[Written], k: usize) -> OutputLook<'_>
    requires { k < length outs.now }
    ensures { IsSomeAnd (slice_get (outs_of outs.now) k)
        (λ o. (result.bot.now ≡ o.bot) × (result.sealed_bytes ≡ o.sealed_bytes) × (result.sealed_lines ≡ o.sealed_lines) × (result.lines.now ≡ o.lines)) }
{
    let out = &outs[k];
    OutputLook {
        bot: &out.bot,
        sealed_bytes: out.sealed_bytes,
        sealed_lines: out.sealed_lines,
        lines: &out.lines,
    }
}

impl<R: Rules> Core<R> {
    /// The number of steps that led here.
    pub fn steps(&self) -> u64
        ensures { result ≡ self.now.state.steps }
    {
        self.state.steps
    }

    /// The number that the next message gets.
    pub fn next_message(&self) -> u64
        ensures { result ≡ self.now.state.next_message }
    {
        self.state.next_message
    }

    /// The number that the next dump gets.
    pub fn next_dump(&self) -> u64
        ensures { result ≡ self.now.state.next_dump }
    {
        self.state.next_dump
    }

    /// The number of messages that were discarded.
    pub fn discarded(&self) -> u64
        ensures { result ≡ self.now.state.discarded }
    {
        self.state.discarded
    }

    /// The moment of the last step.
    pub fn latest(&self) -> Moment
        ensures { result ≡ self.now.state.latest }
    {
        self.state.latest
    }

    /// The number of the bundle in force, from 1.
    pub fn bundle_no(&self) -> u64
        ensures { result ≡ self.now.state.bundle_no }
    {
        self.state.bundle_no
    }

    /// How many messages wait in all queues.
    pub fn waiting_len(&self) -> u64
        ensures { result ≡ total self.now.state.queues }
    {
        self.state.broker.waiting_len()
    }

    pub fn queues_len(&self) -> usize
        ensures { result ≡ length self.now.state.queues }
    {
        self.state.broker.queues_len()
    }

    /// The name of the k-th queue, from 0, and how many messages wait in it.
    pub fn queue_at(&self, k: usize) -> (&QueueName, u64)
        requires { k < length self.now.state.queues }
        ensures { IsSomeAnd (slice_get self.now.state.queues k) (λ q. (result.0.now ≡ q.name) × (result.1 ≡ length q.messages)) }
    {
        self.state.broker.queue_at(k)
    }

    /// The number of the message at the front of the bot's queue, if one waits there.
    pub fn front_no(&self, bot: &BotName) -> Option<u64>
        ensures { result ≡ option_map (λ message. message.no) (front_of (queued (queue_name bot.now) self.now.state.queues)) }
    {
        self.state.broker.front_no(&queue_of(bot))
    }

    pub fn hands_len(&self) -> usize
        ensures { result ≡ length self.now.state.hands }
    {
        self.state.broker.hands_len()
    }

    /// The k-th full hand, from 0, in the order in which they were filled.
    pub fn hand_at(&self, k: usize) -> HandAt<'_>
        requires { k < length self.now.state.hands }
        ensures { slice_get self.now.state.hands k ≡ Some (lent result) }
    {
        self.state.broker.hand_at(k)
    }

    /// What an instance of a bot holds.
    pub fn in_hand(&self, bot: &BotName, instance: u8) -> Option<InHand<'_>>
        ensures { MatchOption result (hand_of bot.now instance self.now.state ≡ None) (λ shown. IsSomeAnd (hand_of bot.now instance self.now.state)
            (λ h. (shown.message.now ≡ h.message) × (shown.tries ≡ h.tries) × (shown.since ≡ h.since))) }
    {
        self.state.broker.in_hand(bot, instance)
    }

    /// The lengths of the bodies in the queues of the bundle's bots together, in bytes, or the greatest number where they
    /// pass it.
    pub fn backlog(&self) -> u64
        ensures { result ≡ min (backlog (bots_in_force R.meaning self.now.state) self.now.state) last_u64 }
    {
        live_bytes(&self.state.broker, self.bots())
    }

    /// The messages that were put aside.
    pub fn dumps(&self) -> &Dumps
        ensures { result.now.dumps ≡ self.now.state.dumps }
    {
        &self.state.dumps
    }

    /// How far a collector has come, if it has a feed.
    pub fn feed_of(&self, bot: &BotName) -> Option<&Feed>
        ensures { MatchOption result (find (is_feed bot.now) self.now.state.feeds ≡ None) (λ f. find (is_feed bot.now) self.now.state.feeds ≡ Some f.now) }
    {
        feeds::feed_of(&self.state.feeds, bot)
    }

    /// How far each collector has come, in the order in which they first stood in a bundle.
    pub fn feeds(&self) -> &[Feed]
        ensures feeds { result.now ≡ self.now.state.feeds }
        ensures near { HasNearFeeds self.now.state }
    {
        &self.state.feeds
    }

    pub fn is_halted(&self, bot: &BotName) -> bool
        ensures { result ≡ is_halted bot.now self.now.state }
    {
        is_halted(&self.state.halted, bot)
    }

    /// The halted bots, in the order in which they were halted.
    pub fn halted(&self) -> &[BotName]
        ensures { result.now ≡ self.now.state.halted }
    {
        &self.state.halted
    }

    /// Whether the key is that of a message that the bot let through not long before the moment.
    pub fn is_duplicate(&self, bot: &BotName, now: Moment, key: &Option<Blob>) -> bool
        ensures { result ≡ is_duplicate R.meaning self.now.state bot.now now.0 key.now }
    {
        is_duplicate(&self.state, self.bots(), bot, now, key)
    }

    pub fn outs_len(&self) -> usize
        ensures { result ≡ length self.now.state.outs }
    {
        self.state.outs.len()
    }

    /// The k-th output, from 0.
    pub fn out_at(&self, k: usize) -> OutputLook<'_>
        requires { k < length self.now.state.outs }
        ensures { IsSomeAnd (slice_get self.now.state.outs k)
            (λ o. (result.bot.now ≡ o.bot) × (result.sealed_bytes ≡ o.sealed_bytes) × (result.sealed_lines ≡ o.sealed_lines) × (result.lines.now ≡ o.lines)) }
    {
        look_of(&self.state.outs, k)
    }
}
