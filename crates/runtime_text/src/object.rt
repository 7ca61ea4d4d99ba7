//! The members of JSON objects.
ghost use Rattle.std.specs.Prelude.{◌≡◌, option_map, is_some};
ghost use Rattle.serde_json.specs.Find.{get_member};
ghost use Rattle.serde_json.specs.View.{view, members_view};
ghost use Rattle.event_model.specs.Trees.{lexeme_in};
ghost use Rattle.runtime_text.specs.Runtime.{object_of, object_under};

use serde_json::{Map, Value as Tree};

const DEC_KEY: &str = "$dec";

/// The value under a name.
pub(crate) fn member<'t>(members: &'t Map<String, Tree>, name: &str) -> Option<&'t Tree>
    ensures { option_map (λ tree. view tree.now) result ≡ get_member name.now (members_view members.now.entries) }
{
    members.get(name)
}

// Whether the object stands for a number: its one key is `$dec`, with a text.
fn is_number(members: &Map<String, Tree>) -> bool
    ensures { result ≡ is_some (lexeme_in (members_view members.now.entries)) }
{
    if members.len() != 1 {
        return false;
    }
    match member(members, DEC_KEY) {
        Some(tree) => tree.as_str().is_some(),
        None => false,
    }
}

/// The members of an object; one that stands for a number is none.
pub fn object_of(tree: &Tree) -> Option<&Map<String, Tree>>
    ensures { option_map (λ members. members_view members.now.entries) result ≡ object_of (view tree.now) }
{
    match tree.as_object() {
        Some(members) if !is_number(members) => Some(members),
        _ => None,
    }
}

/// The members of an object that needn't be there.
#[derive(Drop)]
pub struct Object<'t> {
    members: Option<&'t Map<String, Tree>>,
}

impl<'t> Object<'t> {
    ghost use Rattle.runtime_text.specs.Read.{members_of};

    /// The object under a name, or an empty one.
    pub fn under(members: &'t Map<String, Tree>, name: &str) -> Object<'t>
        ensures { members_of result ≡ object_under name.now (members_view members.now.entries) }
    {
        match member(members, name) {
            Some(tree) => Object {
                members: object_of(tree),
            },
            None => Object { members: None },
        }
    }

    /// The value under a name.
    pub(crate) fn get(&self, name: &str) -> Option<&'t Tree>
        ensures { option_map (λ tree. view tree.now) result ≡ get_member name.now (members_of self.now) }
    {
        match self.members {
            Some(members) => member(members, name),
            None => None,
        }
    }
}
