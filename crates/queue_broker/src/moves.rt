//! Messages are moved from list to list, at known places.
ghost use Rattle.std.specs.Prelude.{◌≡◌, ◌+◌, ◌-◌, ◌<◌, ◌≤◌, ◌^◌, ◌++◌, [], ◌∷◌, List, length, set, slice_get, Some};
ghost use Rattle.std.specs.List.{remove};
ghost use Rattle.base_types.specs.Name.{queue_name};
ghost use Rattle.base_types.specs.declared.message.Msg.{Msg};
ghost use Rattle.stored_types.specs.declared.hand.Hand.{Hand};
ghost use Rattle.stored_types.specs.declared.queue.Queue.{Queue};
ghost use Rattle.queue_broker.specs.Broker.{HaveQueues, IsThere, most_tries, total};

use crate::broker::Broker;
use crate::places::{FullHand, LinkedQueue, body_len};
use base_types::{BotName, Moment, Msg, QueueName};
use stored_types::{Hand, Queue};

impl Broker {
    /// Makes an empty queue, behind the others.
    pub(crate) fn push_queue(&mut self, name: &QueueName)
        requires room { length self.old.queues < self.old.queue_room }
        ensures { self.new ≡ record self.old { queues = self.old.queues ++ record { name = name.now; messages = [] } ∷ [] } }
    {
        let list = self.free.pop().unwrap();
        self.queues.push_reserved(LinkedQueue {
            name: *name,
            list,
            bytes: 0,
        });
    }

    /// Puts a message at the end of the i-th queue.
    pub(crate) fn push_at(&mut self, i: usize, message: Msg)
        requires there { i < length self.old.queues }
        requires spare { 1 ≤ self.old.spare }
        requires few { self.old.pushed < 2 ^ 63 }
        ensures { (q : Queue) → slice_get self.old.queues i ≡ Some q → self.new ≡ record self.old { queues = set self.old.queues i (record q { messages = q.messages ++ message ∷ [] }); spare = self.old.spare - 1; pushed = self.old.pushed + 1 } }
    {
        let bytes = body_len(&message);
        let queue = &mut self.queues[i];
        queue.bytes += bytes as u128;
        let list = queue.list;
        let _node = self.links.push_back(list, message);
        self.waiting += 1;
        self.spare -= 1;
    }

    /// Puts a queue with its messages behind the others.
    pub(crate) fn push_whole(&mut self, queue: Queue)
        requires room { length self.old.queues < self.old.queue_room }
        requires spare { length queue.messages ≤ self.old.spare }
        requires few { self.old.pushed + length queue.messages ≤ 2 ^ 63 }
        ensures { self.new ≡ record self.old { queues = self.old.queues ++ queue ∷ []; spare = self.old.spare - length queue.messages; pushed = self.old.pushed + length queue.messages } }
    {
        let i = self.queues_len();
        self.push_queue(&queue.name);
        'messages: for message in queue.messages.into_vec() {
            self.push_at(i, message);
        }
    }

    /// Puts queues with their messages behind the others.
    pub(crate) fn push_queues(&mut self, queues: Vec<Queue>)
        requires room { length self.old.queues + length queues.items ≤ self.old.queue_room }
        requires spare { total queues.items ≤ self.old.spare }
        requires few { self.old.pushed + total queues.items ≤ 2 ^ 63 }
        ensures { self.new ≡ record self.old { queues = self.old.queues ++ queues.items; spare = self.old.spare - total queues.items; pushed = self.old.pushed + total queues.items } }
    {
        'queues: for queue in queues {
            self.push_whole(queue);
        }
    }

    /// Fills hands, each of an instance that has none.
    pub(crate) fn push_hands(&mut self, hands: Vec<Hand>)
        requires room { length self.old.hands + length hands.items ≤ self.old.hand_room }
        requires spare { length hands.items ≤ self.old.spare }
        requires few { self.old.pushed + length hands.items ≤ 2 ^ 63 }
        requires queues { HaveQueues self.old.queues hands.items }
        ensures { self.new ≡ record self.old { hands = self.old.hands ++ hands.items; spare = self.old.spare - length hands.items; pushed = self.old.pushed + length hands.items } }
    {
        'hands: for hand in hands {
            self.push_hand(hand);
        }
    }

    /// Fills the hand of an instance that has none.
    pub(crate) fn push_hand(&mut self, hand: Hand)
        requires room { length self.old.hands < self.old.hand_room }
        requires spare { 1 ≤ self.old.spare }
        requires few { self.old.pushed < 2 ^ 63 }
        requires queue { IsThere (queue_name hand.bot) self.old.queues }
        ensures { self.new ≡ record self.old { hands = self.old.hands ++ hand ∷ []; spare = self.old.spare - 1; pushed = self.old.pushed + 1 } }
    {
        let list = self.free.pop().unwrap();
        let _node = self.links.push_back(list, hand.message);
        self.hands.push_reserved(FullHand {
            bot: hand.bot,
            instance: hand.instance,
            list,
            tries: hand.tries,
            since: hand.since,
        });
        self.spare -= 1;
    }

    /// Moves the message at the front of the i-th queue into the hand of an instance.
    pub(crate) fn take_at(&mut self, i: usize, bot: &BotName, instance: u8, now: Moment)
        requires there { i < length self.old.queues }
        requires some { (q : Queue) → slice_get self.old.queues i ≡ Some q → 1 ≤ length q.messages }
        requires room { length self.old.hands < self.old.hand_room }
        requires queue { IsThere (queue_name bot.now) self.old.queues }
        ensures { (q : Queue) (message : Msg) (others : List Msg) → slice_get self.old.queues i ≡ Some q → q.messages ≡ message ∷ others
            → self.new ≡ record self.old { queues = set self.old.queues i (record q { messages = others }); hands = self.old.hands ++ record { bot = bot.now; instance = instance; message = message; tries = 0; since = now } ∷ [] } }
    {
        let list = self.free.pop().unwrap();
        let queue = &mut self.queues[i];
        let bytes = body_len(self.links.front(queue.list).unwrap());
        queue.bytes -= bytes as u128;
        let from = queue.list;
        let _moved = self.links.move_front(from, list);
        self.waiting -= 1;
        self.hands.push_reserved(FullHand {
            bot: *bot,
            instance,
            list,
            tries: 0,
            since: now,
        });
    }

    /// Takes the message of the k-th full hand out of it.
    pub(crate) fn empty_at(&mut self, k: usize) -> Msg
        requires { k < length self.old.hands }
        ensures message { (h : Hand) → slice_get self.old.hands k ≡ Some h → result ≡ h.message }
        ensures left { self.new ≡ record self.old { hands = remove self.old.hands k } }
    {
        let list = self.hands.remove(k).list;
        let message = self.links.pop_front(list).unwrap();
        self.free.push_reserved(list);
        message
    }

    /// Moves the message of the k-th full hand to the front of the i-th queue.
    pub(crate) fn give_back_at(&mut self, k: usize, i: usize)
        requires hand { k < length self.old.hands }
        requires queue { i < length self.old.queues }
        ensures { (h : Hand) (q : Queue) → slice_get self.old.hands k ≡ Some h → slice_get self.old.queues i ≡ Some q
            → self.new ≡ record self.old { queues = set self.old.queues i (record q { messages = h.message ∷ q.messages }); hands = remove self.old.hands k } }
    {
        let list = self.hands.remove(k).list;
        let bytes = body_len(self.links.front(list).unwrap());
        let queue = &mut self.queues[i];
        queue.bytes += bytes as u128;
        let to = queue.list;
        let _moved = self.links.put_front(list, to);
        self.waiting += 1;
        self.free.push_reserved(list);
    }

    /// Counts that the message of the k-th full hand was tried.
    pub(crate) fn count_try_at(&mut self, k: usize)
        requires hand { k < length self.old.hands }
        requires tries { (h : Hand) → slice_get self.old.hands k ≡ Some h → h.tries < most_tries }
        ensures { (h : Hand) → slice_get self.old.hands k ≡ Some h → self.new ≡ record self.old { hands = set self.old.hands k (record h { tries = h.tries + 1 }) } }
    {
        self.hands[k].tries += 1;
    }
}
