//! Bytes as JSON trees.
ghost use Rattle.std.specs.Prelude.{◌≡◌, Some, IfOk, IfErr};
ghost use Rattle.serde_json.specs.View.{view};
ghost use Rattle.event_model.specs.Lenient.{IsJsonFault, IsFaultOfError};
ghost use Rattle.event_model.specs.Trees.{json_of, tree_in};

use crate::ReadFault;
use scalar_text::{has_decimals, quote_decimals};
use serde_json::{Error, Value as Tree};
use std::alloc::Global;

fn fault_of(e: &Error) -> ReadFault
    ensures { IsFaultOfError e.now result }
{
    if e.is_memory() {
        ReadFault::OutOfMemory
    } else {
        ReadFault::Json
    }
}

// The JSON value of the bytes.
fn read_json(alloc: Global, bytes: &[u8]) -> Result<Tree, ReadFault>
    ensures ok { IfOk result (λ tree. json_of bytes.now ≡ Some (view tree)) }
    ensures err { IfErr result (IsJsonFault (json_of bytes.now)) }
{
    match Tree::from_slice(alloc, bytes) {
        Ok(tree) => Ok(tree),
        Err(e) => Err(fault_of(&e)),
    }
}

/// The tree of a JSON text, its decimals under quotes, so that nothing of them is lost: `Json` exactly where the bytes
/// are none.
#[tactic(auto, unfolding(crate::specs::Trees::tree_in))]
pub fn read_tree(alloc: Global, bytes: &[u8]) -> Result<Tree, ReadFault>
    ensures ok { IfOk result (λ tree. tree_in bytes.now ≡ Some (view tree)) }
    ensures err { IfErr result (IsJsonFault (tree_in bytes.now)) }
{
    if !has_decimals(bytes) {
        return read_json(alloc, bytes);
    }
    match quote_decimals(alloc, bytes) {
        Ok(quoted) => read_json(alloc, quoted.bytes()),
        Err(base_types::OutOfMemory) => Err(ReadFault::OutOfMemory),
    }
}
