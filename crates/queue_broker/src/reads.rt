//! What a broker holds, read without memory.
ghost use Rattle.std.specs.Prelude.{◌≡◌, ◌≢◌, ◌<◌, ◌≤◌, ◌^◌, ◌↔◌, true, [], length, min, position, slice_get, Some, None, option_copied, option_map, IfNone, IfOk, IfSome, IsSomeAnd, MatchOption, OnSome};
ghost use Rattle.base_types.specs.Name.{queue_name};
ghost use Rattle.base_types.specs.Number.{last_u64};
ghost use Rattle.stored_types.specs.declared.hand.Hand.{Hand};
ghost use Rattle.stored_types.specs.declared.queue.Queue.{Queue};
ghost use Rattle.stored_types.specs.Hand.{is_hand};
ghost use Rattle.stored_types.specs.Queue.{bytes_in, is_queue, queued};
ghost use Rattle.queue_broker.specs.Broker.{front_of, hand_of, lent, number_of, IsThere, total};

use crate::broker::Broker;
use crate::copies::copy_messages;
use crate::places::{hand_place, queue_place};
use base_types::{BotName, Moment, Msg, OutOfMemory, QueueName, queue_of};
use std::alloc::Global;
use stored_types::{Coded, Hand, HandList, Queue, WaitingList};

/// What an instance holds: the message, how often it was tried, and the moment at which it was taken.
#[derive(Clone, Copy, Debug)]
pub struct InHand<'b> {
    pub message: &'b Msg,
    pub tries: u32,
    pub since: Moment,
}

/// A full hand: whose it is, and what the instance holds.
#[derive(Clone, Copy, Debug)]
pub struct HandAt<'b> {
    pub bot: BotName,
    pub instance: u8,
    pub message: &'b Msg,
    pub tries: u32,
    pub since: Moment,
}

impl Broker {
    /// Where the queue of this name is.
    pub(crate) fn place_of_queue(&self, name: &QueueName) -> Option<usize>
        ensures { result ≡ position (is_queue name.now) self.now.queues }
    {
        queue_place(&self.queues, name)
    }

    /// Where the full hand of an instance is.
    pub(crate) fn place_of_hand(&self, bot: &BotName, instance: u8) -> Option<usize>
        ensures { result ≡ position (is_hand bot.now instance) self.now.hands }
    {
        hand_place(&self.hands, bot, instance)
    }

    // How many messages wait in the i-th queue.
    pub(crate) fn len_at(&self, i: usize) -> usize
        requires { i < length self.now.queues }
        ensures { (q : Queue) → slice_get self.now.queues i ≡ Some q → result ≡ length q.messages }
    {
        self.links.len(self.queues[i].list)
    }

    // The message at the front of the i-th queue.
    fn front_at(&self, i: usize) -> Option<&Msg>
        requires { i < length self.now.queues }
        ensures { (q : Queue) → slice_get self.now.queues i ≡ Some q → option_copied result ≡ front_of q.messages }
    {
        self.links.front(self.queues[i].list)
    }

    // The message of the k-th full hand.
    fn message_at(&self, k: usize) -> &Msg
        requires { k < length self.now.hands }
        ensures { (h : Hand) → slice_get self.now.hands k ≡ Some h → result.now ≡ h.message }
    {
        self.links.front(self.hands[k].list).unwrap()
    }

    /// Where the queue of this name is, if messages wait in it.
    pub(crate) fn waiting_place(&self, name: &QueueName) -> Option<usize>
        ensures none { IfNone result (queued name.now self.now.queues ≡ []) }
        ensures place { IfSome result (λ i. position (is_queue name.now) self.now.queues ≡ Some i) }
        ensures some { OnSome result (1 ≤ length (queued name.now self.now.queues)) }
    {
        let Some(i) = self.place_of_queue(name) else {
            return None;
        };
        let count = self.len_at(i);
        if count > 0 { Some(i) } else { None }
    }

    /// Where the queue of the k-th full hand's bot is.
    pub(crate) fn place_of_hand_queue(&self, k: usize) -> usize
        requires { k < length self.now.hands }
        ensures { (h : Hand) → slice_get self.now.hands k ≡ Some h → position (is_queue (queue_name h.bot)) self.now.queues ≡ Some result }
    {
        let name = queue_of(&self.hands[k].bot);
        queue_place(&self.queues, &name).unwrap()
    }

    /// Where the full hand of an instance is, if it holds the message of this number.
    pub(crate) fn place_of_number(&self, bot: &BotName, instance: u8, no: u64) -> Option<usize>
        ensures none { IfNone result (number_of bot.now instance self.now.hands ≢ Some no) }
        ensures place { IfSome result (λ k. position (is_hand bot.now instance) self.now.hands ≡ Some k) }
        ensures number { OnSome result (number_of bot.now instance self.now.hands ≡ Some no) }
    {
        let Some(k) = self.place_of_hand(bot, instance) else {
            return None;
        };
        let held = self.message_at(k).no;
        if held == no { Some(k) } else { None }
    }

    /// The number of the message that an instance holds.
    pub(crate) fn number_in_hand(&self, bot: &BotName, instance: u8) -> Option<u64>
        ensures { result ≡ number_of bot.now instance self.now.hands }
    {
        match self.place_of_hand(bot, instance) {
            Some(k) => Some(self.message_at(k).no),
            None => None,
        }
    }

    fn queue_copy(&self, alloc: Global, i: usize) -> Result<Queue, OutOfMemory>
        requires { i < length self.now.queues }
        ensures { IfOk result (λ copy. slice_get self.now.queues i ≡ Some copy) }
    {
        let queue = &self.queues[i];
        let messages = copy_messages(alloc, &self.links, queue.list)?;
        Ok(Queue {
            name: queue.name,
            messages,
        })
    }

    fn hand_copy(&self, alloc: Global, k: usize) -> Result<Hand, OutOfMemory>
        requires { k < length self.now.hands }
        ensures { IfOk result (λ copy. slice_get self.now.hands k ≡ Some copy) }
    {
        let hand = &self.hands[k];
        let message = self.message_at(k).copy(alloc)?;
        Ok(Hand {
            bot: hand.bot,
            instance: hand.instance,
            message,
            tries: hand.tries,
            since: hand.since,
        })
    }

    /// A copy of the queues, to be stored.
    pub fn queues_copy(&self, alloc: Global) -> Result<WaitingList, OutOfMemory>
        ensures { IfOk result (λ copy. copy ≡ self.now.queues) }
    {
        let mut copies = Vec::with_capacity(alloc, self.queues.len())?;
        'queues: for i in 0..self.queues.len() {
            let copy = self.queue_copy(alloc, i)?;
            copies.push(copy)?;
        }
        Ok(WaitingList::from(copies))
    }

    /// A copy of the full hands, to be stored.
    pub fn hands_copy(&self, alloc: Global) -> Result<HandList, OutOfMemory>
        ensures { IfOk result (λ copy. copy ≡ self.now.hands) }
    {
        let mut copies = Vec::with_capacity(alloc, self.hands.len())?;
        'hands: for k in 0..self.hands.len() {
            let copy = self.hand_copy(alloc, k)?;
            copies.push(copy)?;
        }
        Ok(HandList::from(copies))
    }

    /// For how many more messages there is room.
    pub fn spare(&self) -> usize
        ensures { result ≡ self.now.spare }
    {
        self.spare
    }

    /// For how many queues there is room in all.
    pub fn queue_room(&self) -> usize
        ensures { result ≡ self.now.queue_room }
    {
        self.queue_room
    }

    /// For how many full hands there is room in all.
    pub fn hand_room(&self) -> usize
        ensures { result ≡ self.now.hand_room }
    {
        self.hand_room
    }

    /// How many messages were sent so far, with those that were taken in.
    pub fn pushed(&self) -> u64
        ensures { result ≡ self.now.pushed }
    {
        self.links.pushed()
    }

    pub fn has_queue(&self, queue: &QueueName) -> bool
        ensures { (result ≡ true) ↔ IsThere queue.now self.now.queues }
    {
        self.place_of_queue(queue).is_some()
    }

    /// How many messages wait in the queue of this name.
    pub fn waiting(&self, queue: &QueueName) -> u64
        ensures { result ≡ length (queued queue.now self.now.queues) }
    {
        match self.place_of_queue(queue) {
            Some(i) => self.len_at(i) as u64,
            None => 0,
        }
    }

    /// How many messages wait in all queues.
    pub fn waiting_len(&self) -> u64
        ensures { result ≡ total self.now.queues }
    {
        self.waiting as u64
    }

    /// The number of the message at the front of the queue of this name.
    pub fn front_no(&self, queue: &QueueName) -> Option<u64>
        ensures { result ≡ option_map (λ message. message.no) (front_of (queued queue.now self.now.queues)) }
    {
        let Some(i) = self.place_of_queue(queue) else {
            return None;
        };
        let front = self.front_at(i)?;
        Some(front.no)
    }

    /// What an instance holds.
    pub fn in_hand(&self, bot: &BotName, instance: u8) -> Option<InHand<'_>>
        ensures { MatchOption result (hand_of bot.now instance self.now.hands ≡ None) (λ shown. IsSomeAnd (hand_of bot.now instance self.now.hands)
            (λ h. (shown.message.now ≡ h.message) × (shown.tries ≡ h.tries) × (shown.since ≡ h.since))) }
    {
        match self.place_of_hand(bot, instance) {
            Some(k) => {
                let hand = self.hand_at(k);
                Some(InHand {
                    message: hand.message,
                    tries: hand.tries,
                    since: hand.since,
                })
            }
            None => None,
        }
    }

    pub fn queues_len(&self) -> usize
        ensures len { result ≡ length self.now.queues }
        ensures fits { result < 2 ^ 63 }
    {
        self.queues.len()
    }

    /// The name of the k-th queue, from 0, and how many messages wait in it.
    pub fn queue_at(&self, k: usize) -> (&QueueName, u64)
        requires { k < length self.now.queues }
        ensures { IsSomeAnd (slice_get self.now.queues k) (λ q. (result.0.now ≡ q.name) × (result.1 ≡ length q.messages)) }
    {
        (&self.queues[k].name, self.len_at(k) as u64)
    }

    /// The lengths of the bodies in the k-th queue together, or the greatest number where they pass it.
    pub fn bytes_at(&self, k: usize) -> u64
        requires { k < length self.now.queues }
        ensures { IsSomeAnd (slice_get self.now.queues k) (λ q. result ≡ min (bytes_in q) last_u64) }
    {
        self.queues[k].bytes.min(u64::MAX as u128) as u64
    }

    pub fn hands_len(&self) -> usize
        ensures len { result ≡ length self.now.hands }
        ensures fits { result < 2 ^ 63 }
    {
        self.hands.len()
    }

    /// The k-th full hand, from 0, in the order in which they were filled.
    pub fn hand_at(&self, k: usize) -> HandAt<'_>
        requires { k < length self.now.hands }
        ensures { slice_get self.now.hands k ≡ Some (lent result) }
    {
        let hand = &self.hands[k];
        let message = self.message_at(k);
        HandAt {
            bot: hand.bot,
            instance: hand.instance,
            message,
            tries: hand.tries,
            since: hand.since,
        }
    }
}
