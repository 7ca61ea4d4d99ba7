//! Lists, nodes and cells, made before they are needed.
ghost use Rattle.std.specs.Prelude.{◌≡◌, ◌+◌, ◌<◌, ◌≤◌, ◌^◌, ◌++◌, ◌∷◌, [], ℕ, length, IsOk, OnErr, OnOk};
ghost use Rattle.std.specs.Vec.{vec_capacity};
ghost use Rattle.queue_broker.specs.Kept.{AreMore, HaveRoom};

use crate::places::{FullHand, LinkedQueue};
use base_types::{Msg, OutOfMemory};
use link_store::Links;

/// Makes room for so many messages that are sent.
pub fn make_nodes(links: &mut Links<Msg>, messages: usize) -> Result<(), OutOfMemory>
    ensures same { links.new ≡ record links.old { spare = links.new.spare } }
    ensures more { links.old.spare ≤ links.new.spare }
    ensures ok { OnOk result (messages ≤ links.new.spare) }
    ensures err { OnErr result (links.new ≡ links.old) }
    ensures succeeds { messages ≤ links.old.spare → IsOk result }
{
    if messages <= links.spare() {
        return Ok(());
    }
    let Ok(count) = u32::try_from(messages) else {
        return Err(OutOfMemory);
    };
    links.reserve(count)
}

/// Makes cells for so many items in all.
fn make_cells<T>(items: &mut Vec<T>, count: usize) -> Result<(), OutOfMemory>
    ensures same { items.new.items ≡ items.old.items }
    ensures more { vec_capacity items.old ≤ vec_capacity items.new }
    ensures ok { OnOk result (count ≤ vec_capacity items.new) }
    ensures succeeds { count ≤ vec_capacity items.old → IsOk result }
{
    items.reserve(count.saturating_sub(items.len()))?;
    Ok(())
}

/// Makes one more list, which is free.
fn add_list(links: &mut Links<Msg>, free: &mut Vec<u32>, hands: usize) -> Result<(), OutOfMemory>
    requires few { hands < 2 ^ 63 }
    requires room { length free.old.items + hands ≤ vec_capacity free.old }
    ensures ok { OnOk result ((links.new ≡ record links.old { lists = links.old.lists ++ [] ∷ [] }) × (free.new.items ≡ free.old.items ++ length links.old.lists ∷ [])) }
    ensures err { OnErr result ((links.new ≡ links.old) × (free.new.items ≡ free.old.items)) }
    ensures room { length free.new.items + hands ≤ vec_capacity free.new }
{
    free.reserve(hands + 1)?;
    let list = links.add_list()?;
    free.push_reserved(list);
    Ok(())
}

/// Makes free lists until there are so many lists, with cells for those of so many hands among the free ones. Without memory for all,
/// some of them are there.
fn grow(
    links: &mut Links<Msg>,
    free: &mut Vec<u32>,
    hands: usize,
    count: usize,
) -> Result<(), OutOfMemory>
    requires few { hands < 2 ^ 63 }
    requires room { length free.old.items + hands ≤ vec_capacity free.old }
    ensures more { AreMore links.old free.old.items links.new free.new.items }
    ensures longer { length links.old.lists ≤ length links.new.lists }
    ensures ok { OnOk result (count ≤ length links.new.lists) }
    ensures succeeds { count ≤ length links.old.lists → IsOk result }
    ensures room { length free.new.items + hands ≤ vec_capacity free.new }
{
    'lists: while links.lists_len() < count {
        add_list(links, free, hands)?;
    }
    Ok(())
}

/// Makes room for so many queues and so many full hands in all, with a list for each. Without memory for all, some of it is there.
pub fn make_lists(
    links: &mut Links<Msg>,
    queues: &mut Vec<LinkedQueue>,
    hands: &mut Vec<FullHand>,
    free: &mut Vec<u32>,
    queue_room: usize,
    hand_room: usize,
) -> Result<(), OutOfMemory>
    requires queues { length queues.old.items ≤ queue_room }
    requires hands { length hands.old.items ≤ hand_room }
    requires free { length free.old.items + length hands.old.items ≤ vec_capacity free.old }
    ensures queues { queues.new.items ≡ queues.old.items }
    ensures hands { hands.new.items ≡ hands.old.items }
    ensures more { AreMore links.old free.old.items links.new free.new.items }
    ensures kept { (q h : ℕ) → HaveRoom links.old queues.old hands.old free.old q h → HaveRoom links.new queues.new hands.new free.new q h }
    ensures ok { OnOk result (HaveRoom links.new queues.new hands.new free.new queue_room hand_room) }
    ensures succeeds { HaveRoom links.old queues.old hands.old free.old queue_room hand_room → IsOk result }
{
    make_cells(queues, queue_room)?;
    make_cells(hands, hand_room)?;
    let full = hands.len();
    let lists = queue_room + hand_room;
    grow(links, free, full, lists)?;
    Ok(())
}
