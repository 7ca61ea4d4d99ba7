//! The bots of a runtime text.
ghost use Rattle.std.specs.Prelude.{◌≡◌, true, map, option_map, IfOk, IfSome};
ghost use Rattle.std.specs.FinMap.{is_sorted};
ghost use Rattle.std.specs.Ordering.{nat_cmp};
ghost use Rattle.std.specs.Cmp.Lexicographic.{slice_cmp};
ghost use Rattle.serde_json.specs.View.{view, members_view};
ghost use Rattle.event_model.specs.Trees.{tree_in};
ghost use Rattle.runtime_text.specs.Read.{entries_of, entry_of, IsAdded};
ghost use Rattle.runtime_text.specs.Runtime.{bots_in, bot_of};

use crate::bot::Bot;
use crate::object::object_of;
use base_types::{BotName, OutOfMemory};
use event_model::{ReadFault, read_tree};
use serde_json::{Map, Value as Tree};
use std::alloc::Global;

const GLOBAL_KEY: &str = "global";

/// The tree of a runtime text, where it has one.
pub fn tree_in(alloc: Global, runtime: &[u8]) -> Result<Option<Tree>, OutOfMemory>
    ensures { IfOk result (λ tree. option_map view tree ≡ tree_in runtime.now) }
{
    match read_tree(alloc, runtime) {
        Ok(tree) => Ok(Some(tree)),
        Err(ReadFault::OutOfMemory) => Err(OutOfMemory),
        Err(_) => Ok(None),
    }
}

// The bot of this name, where it is one and its value is an object.
fn bot_of<'t>(alloc: Global, name: &str, tree: &'t Tree) -> Result<Option<Bot<'t>>, OutOfMemory>
    ensures { IfOk result (λ bot. option_map entry_of bot ≡ bot_of name.now (view tree.now)) }
{
    let Ok(name) = BotName::new(name.as_bytes()) else {
        return Ok(None);
    };
    match object_of(tree) {
        Some(members) => Ok(Some(Bot::new(alloc, name, members)?)),
        None => Ok(None),
    }
}

// Puts the bot of a member behind the others, and answers whether the member is one of a runtime text.
fn add_member<'t>(
    alloc: Global,
    name: &str,
    tree: &'t Tree,
    bots: &mut Vec<Bot<'t>>,
) -> Result<bool, OutOfMemory>
    ensures { IfOk result (λ added. IsAdded name.now (view tree.now) added (entries_of bots.old.items) (entries_of bots.new.items)) }
{
    if name == GLOBAL_KEY {
        return Ok(object_of(tree).is_some());
    }
    match bot_of(alloc, name, tree)? {
        Some(bot) => {
            bots.push(bot)?;
            Ok(true)
        }
        None => Ok(false),
    }
}

/// The bots of a runtime text, in byte order of their names, where each of its members is an object under a bot's name or
/// `global`.
pub fn bots_in(
    alloc: Global,
    members: &Map<String, Tree>,
) -> Result<Option<Vec<Bot<'_>>>, OutOfMemory>
    ensures bots { IfOk result (λ bots. option_map (λ bs. entries_of bs.items) bots ≡ bots_in (members_view members.now.entries)) }
    ensures order { IfOk result (λ bots. IfSome bots (λ bs. is_sorted (slice_cmp nat_cmp) (entries_of bs.items) ≡ true)) }
{
    let mut bots = Vec::with_capacity(alloc, members.len())?;
    'members: for (name, tree) in members.iter() {
        if !add_member(alloc, name.as_str(), tree, &mut bots)? {
            return Ok(None);
        }
    }
    Ok(Some(bots))
}
