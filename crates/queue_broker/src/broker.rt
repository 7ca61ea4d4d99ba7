//! The queues and the full hands, and what is done with them.
ghost use Rattle.std.specs.Prelude.{◌≡◌, ◌≢◌, ◌+◌, ◌-◌, ◌<◌, ◌≤◌, ◌^◌, ◌⊎◌, true, ◌++◌, [], ◌∷◌, length, Some, None, is_some, IfOk, IfErr, OnOk, OnErr, IsOk, IsSomeAnd};
ghost use Rattle.base_types.specs.Name.{queue_name};
ghost use Rattle.stored_types.specs.Queue.{put, queued};
ghost use Rattle.queue_broker.specs.Broker.{emptied, from_lists, given_back, hand_of, message_of, number_of, reserved, tried, most_tries, HaveQueues, IsAckFault, IsTakeFault, IsTaken, IsThere, HasRoom};

use crate::copies::count;
use crate::lists::{make_lists, make_nodes};
use crate::places::{FullHand, LinkedQueue};
use base_types::{BotName, Moment, Msg, OutOfMemory, QueueName, queue_of};
use link_store::Links;
use std::alloc::Global;
use std::marker::Model;
use stored_types::{HandList, WaitingList};

/// Why nothing was taken.
#[derive(Clone, Copy, Debug, PartialEq, Eq)]
pub enum TakeFault {
    /// The instance already holds the message of this number.
    HandFull { no: u64 },
    /// No message waits in the bot's queue.
    Empty,
}

/// Why a message wasn't acknowledged.
#[derive(Clone, Copy, Debug, PartialEq, Eq)]
pub enum AckFault {
    /// The instance holds the message of this number instead, or none.
    NotInHand { no: Option<u64> },
}

/// The queues of a pipeline and the full hands of bots' instances. A full hand's queue is always there.
#[derive(Debug, Drop)]
pub struct Broker {
    pub(crate) links: Links<Msg>,
    pub(crate) queues: Vec<LinkedQueue>,
    pub(crate) hands: Vec<FullHand>,
    // The lists that no queue and no full hand has.
    pub(crate) free: Vec<u32>,
    // The messages in all queues together.
    pub(crate) waiting: usize,
    // How many messages may be sent. There may be room for more.
    pub(crate) spare: usize,
    pub(crate) queue_room: usize,
    pub(crate) hand_room: usize,
}

impl Model for Broker {
    ghost use Rattle.queue_broker.specs.Broker.{BrokerView};
    ghost use Rattle.queue_broker.specs.Kept.{IsKept, HaveRoom, hands_in, queues_in};

    ghost Value = { BrokerView };

    ghost view = { λ b. record { queues = queues_in b.links.lists b.queues.items; hands = hands_in b.links.lists b.hands.items; spare = b.spare; queue_room = b.queue_room; hand_room = b.hand_room; pushed = b.links.pushed } };

    ghost invariant = { λ b. IsKept b.links b.queues.items b.hands.items b.free.items b.waiting b.spare × HaveRoom b.links b.queues b.hands b.free b.queue_room b.hand_room };
}

impl Broker {
    /// A broker with nothing in it, and room for nothing.
    pub fn new(alloc: Global) -> Result<Self, OutOfMemory>
        ensures { IfOk result (λ broker. broker ≡ from_lists [] []) }
    {
        let links = Links::new(alloc, 0)?;
        let queues = Vec::new(alloc);
        let hands = Vec::new(alloc);
        let free = Vec::new(alloc);
        Ok(Broker {
            links,
            queues,
            hands,
            free,
            waiting: 0,
            spare: 0,
            queue_room: 0,
            hand_room: 0,
        })
    }

    /// Takes the queues and the full hands of a state.
    pub fn from_lists(
        alloc: Global,
        queues: WaitingList,
        hands: HandList,
    ) -> Result<Broker, OutOfMemory>
        requires { HaveQueues queues hands }
        ensures { IfOk result (λ broker. broker ≡ from_lists queues hands) }
    {
        let mut broker = Broker::new(alloc)?;
        let named = queues.len();
        let full = hands.len();
        let messages = count(queues.as_slice(), full)?;
        broker.reserve_count(messages, named, full)?;
        broker.push_queues(queues.into_vec());
        broker.push_hands(hands.into_vec());
        Ok(broker)
    }

    /// Makes room for a message on each of these queues, and for so many full hands in all. Without memory for all of it
    /// nothing changes. Where there is room already, it takes no memory.
    pub fn reserve(&mut self, queues: &[QueueName], hands: u32) -> Result<(), OutOfMemory>
        ensures ok { OnOk result (self.new ≡ reserved (length queues.now) (length queues.now) hands self.old) }
        ensures err { OnErr result (self.new ≡ self.old) }
        ensures succeeds { HasRoom (length queues.now) (length queues.now) hands self.old → IsOk result }
    {
        self.reserve_count(queues.len(), queues.len(), hands as usize)
    }

    /// Makes room for so many messages, for so many queues beside those that are there, and for so many full hands in all.
    /// Without memory for all of it nothing changes. Where there is room already, it takes no memory.
    pub fn reserve_count(
        &mut self,
        messages: usize,
        queues: usize,
        hands: usize,
    ) -> Result<(), OutOfMemory>
        ensures ok { OnOk result (self.new ≡ reserved messages queues hands self.old) }
        ensures err { OnErr result (self.new ≡ self.old) }
        ensures succeeds { HasRoom messages queues hands self.old → IsOk result }
    {
        let queue_room = self
            .queue_room
            .max(queues.saturating_add(self.queues.len()));
        let hand_room = self.hand_room.max(hands);
        make_nodes(&mut self.links, messages)?;
        make_lists(
            &mut self.links,
            &mut self.queues,
            &mut self.hands,
            &mut self.free,
            queue_room,
            hand_room,
        )?;
        self.spare = self.spare.max(messages);
        self.queue_room = queue_room;
        self.hand_room = hand_room;
        Ok(())
    }

    /// Makes an empty queue, behind the others.
    pub fn add_queue(&mut self, queue: &QueueName)
        requires new { IsThere queue.now self.old.queues → ⊥ }
        requires room { length self.old.queues < self.old.queue_room }
        ensures { self.new ≡ record self.old { queues = self.old.queues ++ record { name = queue.now; messages = [] } ∷ [] } }
    {
        self.push_queue(queue);
    }

    /// Puts a message at the end of a queue. One that isn't there is made.
    pub fn send(&mut self, queue: &QueueName, message: Msg)
        requires spare { 1 ≤ self.old.spare }
        requires place { IsThere queue.now self.old.queues ⊎ (length self.old.queues < self.old.queue_room) }
        requires few { self.old.pushed < 2 ^ 63 }
        ensures { self.new ≡ record self.old { queues = put queue.now message self.old.queues; spare = self.old.spare - 1; pushed = self.old.pushed + 1 } }
    {
        match self.place_of_queue(queue) {
            Some(i) => self.push_at(i, message),
            None => {
                let i = self.queues_len();
                self.push_queue(queue);
                self.push_at(i, message);
            }
        }
    }

    /// Takes the message at the front of the bot's queue into the hand of an instance.
    ///
    /// # Errors
    ///
    /// `HandFull` where the instance holds a message, then `Empty` where none waits. Nothing changes then.
    pub fn take(&mut self, bot: &BotName, instance: u8, now: Moment) -> Result<(), TakeFault>
        requires { (is_some (hand_of bot.now instance self.old.hands) ≡ true) ⊎ (length self.old.hands < self.old.hand_room) }
        ensures empty { OnOk result (hand_of bot.now instance self.old.hands ≡ None) }
        ensures taken { OnOk result (IsTaken bot.now instance now (queued (queue_name bot.now) self.old.queues) self.old self.new) }
        ensures fault { IfErr result (IsTakeFault (number_of bot.now instance self.old.hands) (queued (queue_name bot.now) self.old.queues)) }
        ensures err { OnErr result (self.new ≡ self.old) }
    {
        match self.number_in_hand(bot, instance) {
            Some(no) => Err(TakeFault::HandFull { no }),
            None => self.take_first(bot, instance, now),
        }
    }

    // Takes the message at the front of the bot's queue into the empty hand of an instance.
    fn take_first(&mut self, bot: &BotName, instance: u8, now: Moment) -> Result<(), TakeFault>
        requires room { length self.old.hands < self.old.hand_room }
        ensures taken { OnOk result (IsTaken bot.now instance now (queued (queue_name bot.now) self.old.queues) self.old self.new) }
        ensures fault { IfErr result (IsTakeFault None (queued (queue_name bot.now) self.old.queues)) }
        ensures err { OnErr result (self.new ≡ self.old) }
    {
        let queue = queue_of(bot);
        let Some(i) = self.waiting_place(&queue) else {
            return Err(TakeFault::Empty);
        };
        self.take_at(i, bot, instance, now);
        Ok(())
    }

    /// Takes the message of this number out of the hand of an instance.
    ///
    /// # Errors
    ///
    /// `NotInHand` where the instance holds another, or none. Nothing changes then.
    pub fn ack(&mut self, bot: &BotName, instance: u8, no: u64) -> Result<Msg, AckFault>
        ensures message { IfOk result (λ message. (message_of bot.now instance self.old.hands ≡ Some message) × (message.no ≡ no)) }
        ensures emptied { OnOk result (self.new ≡ emptied bot.now instance self.old) }
        ensures fault { IfErr result (IsAckFault no (number_of bot.now instance self.old.hands)) }
        ensures err { OnErr result (self.new ≡ self.old) }
    {
        match self.place_of_number(bot, instance, no) {
            Some(k) => Ok(self.empty_at(k)),
            None => Err(AckFault::NotInHand {
                no: self.number_in_hand(bot, instance),
            }),
        }
    }

    /// Puts what an instance holds back to the front of its queue. Answers whether it held anything.
    pub fn give_back(&mut self, bot: &BotName, instance: u8) -> bool
        ensures held { result ≡ is_some (hand_of bot.now instance self.old.hands) }
        ensures given_back { self.new ≡ given_back bot.now instance (hand_of bot.now instance self.old.hands) self.old }
    {
        let Some(k) = self.place_of_hand(bot, instance) else {
            return false;
        };
        let i = self.place_of_hand_queue(k);
        self.give_back_at(k, i);
        true
    }

    /// Counts that what an instance holds was tried.
    #[tactic(auto, using(base_types::proofs::Found::find_missing))]
    pub fn tried(&mut self, bot: &BotName, instance: u8)
        requires { IsSomeAnd (hand_of bot.now instance self.old.hands) (λ h. h.tries < most_tries) }
        ensures { self.new ≡ tried bot.now instance self.old }
    {
        match self.place_of_hand(bot, instance) {
            Some(k) => self.count_try_at(k),
            None => unreachable!(),
        }
    }
}
