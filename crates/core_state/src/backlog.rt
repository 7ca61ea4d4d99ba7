//! How much waits.
ghost use Rattle.std.specs.Prelude.{◌≡◌, ◌<◌, min, get_or, length, if◌then◌else◌};
ghost use Rattle.base_types.specs.Number.{last_u64};
ghost use Rattle.step_code.specs.State.{is_live_queue, live_bytes};
ghost use Rattle.stored_types.specs.declared.queue.Queue.{Queue};
ghost use Rattle.stored_types.specs.Queue.{bytes_in};

use queue_broker::Broker;
use step_code::{Facts, is_live_queue};

/// The lengths of the bodies in all live queues together, or the greatest number where they pass it.
pub fn live_bytes(broker: &Broker, bots: &[Facts]) -> u64
    ensures { result ≡ min (live_bytes bots.now broker.now.queues) last_u64 }
{
    let mut bytes: u64 = 0;
    'queues: for k in 0..broker.queues_len() {
        bytes = bytes.saturating_add(live_bytes_at(broker, bots, k));
    }
    bytes
}

// The same of one queue, and 0 of a queue that isn't live.
fn live_bytes_at(broker: &Broker, bots: &[Facts], k: usize) -> u64
    requires { k < length broker.now.queues }
    ensures { (d : Queue) → result ≡ min (if is_live_queue bots.now (get_or broker.now.queues k d).name then bytes_in (get_or broker.now.queues k d) else 0) last_u64 }
{
    let (name, _) = broker.queue_at(k);
    if is_live_queue(bots, name) {
        broker.bytes_at(k)
    } else {
        0
    }
}
