//! Messages that are put on queues.
ghost use Rattle.std.specs.Prelude.{◌≡◌, ◌+◌, ◌≤◌, ◌^◌, length};
ghost use Rattle.stored_types.specs.Queue.{put_all};
ghost use Rattle.step_code.specs.After.{sent};
ghost use Rattle.step_code.specs.Spent.{last_given};
ghost use Rattle.core_state.specs.Room.{HasRoom};
ghost use Rattle.core_state.specs.State.{state_of};

use crate::state::State;
use base_types::{Blob, Msg, QueueName};
use queue_broker::Broker;

// Puts bodies on queues, as messages with the numbers from `next` on.
fn send_from(broker: &mut Broker, next: u64, sends: Vec<(QueueName, Blob)>)
    requires room { HasRoom sends.items broker.old }
    requires numbers { next + length sends.items ≤ last_given + 1 }
    requires few { broker.old.pushed + length sends.items ≤ 2 ^ 63 }
    ensures queues { broker.new.queues ≡ put_all next sends.items broker.old.queues }
    ensures hands { broker.new.hands ≡ broker.old.hands }
    ensures pushed { broker.new.pushed ≡ broker.old.pushed + length sends.items }
{
    let mut no = next;
    'sends: for (queue, body) in sends {
        broker.send(&queue, Msg { no, body });
        no += 1;
    }
}

/// Puts bodies on queues as new messages. It takes no memory.
pub fn send_all(state: &mut State, sends: Vec<(QueueName, Blob)>)
    requires room { HasRoom sends.items state.old.broker }
    requires numbers { state.old.next_message + length sends.items ≤ last_given + 1 }
    requires few { state.old.broker.pushed + length sends.items ≤ 2 ^ 63 }
    ensures sent { state_of state.new ≡ sent sends.items (state_of state.old) }
    ensures same { state.new ≡ record state.old { broker = state.new.broker; next_message = state.new.next_message } }
    ensures pushed { state.new.broker.pushed ≡ state.old.broker.pushed + length sends.items }
{
    let count = sends.len() as u64;
    send_from(&mut state.broker, state.next_message, sends);
    state.next_message += count;
}
