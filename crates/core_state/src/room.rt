//! Room for messages, taken before anything changes.
ghost use Rattle.std.specs.Prelude.{◌≡◌, ◌≤◌, ◌<◌, not, length, OnOk};
ghost use Rattle.core_state.specs.Room.{absent_queues, has_queue, HasRoom, HasSameLists};

use base_types::{Blob, OutOfMemory, QueueName};
use dump_store::Dumps;
use queue_broker::Broker;

fn is_absent(broker: &Broker, queue: &QueueName) -> bool
    ensures { result ≡ not (has_queue queue.now broker.now.queues) }
{
    !broker.has_queue(queue)
}

// How many of these sends go to a queue that isn't there: at most so many queues are made. Several to one of them count each.
fn absent_queues(broker: &Broker, sends: &[(QueueName, Blob)]) -> usize
    ensures { result ≡ absent_queues broker.now.queues sends.now }
{
    sends
        .iter()
        .filter(|send| is_absent(broker, &send.0))
        .count()
}

/// Makes room for these sends: for a message each, and for the queues that they make. The queues and the hands stay.
pub fn make_room(broker: &mut Broker, sends: &[(QueueName, Blob)]) -> Result<(), OutOfMemory>
    ensures same { HasSameLists broker.old broker.new }
    ensures room { OnOk result (HasRoom sends.now broker.new) }
{
    let queues = absent_queues(broker, sends);
    broker.reserve_count(sends.len(), queues, 0)
}

/// Makes room for one message, on whatever queue. The queues and the hands stay.
pub fn make_message_room(broker: &mut Broker) -> Result<(), OutOfMemory>
    ensures same { HasSameLists broker.old broker.new }
    ensures spare { OnOk result (1 ≤ broker.new.spare) }
    ensures place { OnOk result (length broker.new.queues < broker.new.queue_room) }
{
    broker.reserve_count(1, 1, 0)
}

/// Makes room for one more full hand. The queues and the hands stay.
pub fn make_hand_room(broker: &mut Broker) -> Result<(), OutOfMemory>
    ensures same { HasSameLists broker.old broker.new }
    ensures room { OnOk result (length broker.new.hands < broker.new.hand_room) }
{
    let hands = broker.hands_len() + 1;
    broker.reserve_count(0, 0, hands)
}

/// Makes room for so many dumps that come. Those that are there stay.
pub fn make_dump_room(dumps: &mut Dumps, count: usize) -> Result<(), OutOfMemory>
    ensures same { dumps.new.dumps ≡ dumps.old.dumps }
    ensures room { OnOk result (count ≤ dumps.new.spare) }
{
    let Ok(count) = u32::try_from(count) else {
        return Err(OutOfMemory);
    };
    dumps.reserve(count)
}
