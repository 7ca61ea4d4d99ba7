//! The lenient reading of a message, by a tree.
ghost use Rattle.std.specs.Prelude.{◌≡◌, Ok, MatchResult};
ghost use Rattle.event_model.specs.Lenient.{IsFaultOf};
ghost use Rattle.event_text.specs.Lenient.{lenient};

use event_model::{Message, ReadFault, clean_tree, read_tree};
use std::alloc::Global;

/// The message of any bytes, or their first fault, by a tree.
#[tactic(auto, unfolding(crate::specs::Lenient::lenient))]
pub fn clean_any(alloc: Global, bytes: &[u8]) -> Result<Message, ReadFault>
    ensures { MatchResult result (λ message. lenient bytes.now ≡ Ok message) (IsFaultOf (lenient bytes.now)) }
{
    match read_tree(alloc, bytes) {
        Ok(tree) => clean_tree(alloc, &tree),
        Err(fault) => Err(fault),
    }
}
