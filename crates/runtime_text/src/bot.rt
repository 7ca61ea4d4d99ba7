//! The bots of a runtime text.
ghost use Rattle.std.specs.Prelude.{◌≡◌, option_map, option_and_then, is_some, IfOk};
ghost use Rattle.serde_json.specs.Find.{as_array, get_member};
ghost use Rattle.serde_json.specs.View.{view, members_view};
ghost use Rattle.module_settings.specs.Parameters.{texts_in};
ghost use Rattle.runtime_text.specs.Named.{file_of};
ghost use Rattle.runtime_text.specs.Runtime.{is_given_badly, module_of, object_under, routes, routes_given, routes_in, routes_key, routes_of_value};

use crate::named::file_given;
use crate::object::{Object, member, object_of};
use base_types::{BotName, ListOf, OutOfMemory, Text, TextList};
use module_settings::{ModuleWord, module_of, text_of, texts_in};
use serde_json::{Map, Value as Tree};
use std::alloc::Global;

const ROUTES_KEY: &str = "destination_queues";

/// Paths with the names of their queues.
pub(crate) type PathList = ListOf<(Text, TextList)>;

/// A bot as the runtime text has it.
#[derive(Drop)]
pub struct Bot<'t> {
    name: BotName,
    members: &'t Map<String, Tree>,
    // `None` where they are no object of lists of texts.
    routes: Option<PathList>,
    ghost read: { routes ≡ routes_given (members_view members.now.entries) },
}

// The names of queues.
fn queues_of(alloc: Global, tree: &Tree) -> Result<Option<TextList>, OutOfMemory>
    ensures { IfOk result (λ queues. queues ≡ option_and_then texts_in (as_array (view tree.now))) }
{
    match tree.as_array() {
        Some(trees) => texts_in(alloc, trees),
        None => Ok(None),
    }
}

fn routes_in(alloc: Global, members: &Map<String, Tree>) -> Result<Option<PathList>, OutOfMemory>
    ensures { IfOk result (λ routes. routes ≡ routes_in (members_view members.now.entries)) }
{
    let mut routes = Vec::with_capacity(alloc, members.len())?;
    'members: for (path, tree) in members.iter() {
        let Some(queues) = queues_of(alloc, tree)? else {
            return Ok(None);
        };
        routes.push((text_of(alloc, path.as_str())?, queues))?;
    }
    Ok(Some(PathList::from(routes)))
}

fn routes_of(alloc: Global, tree: &Tree) -> Result<Option<PathList>, OutOfMemory>
    ensures { IfOk result (λ routes. routes ≡ routes_of_value (view tree.now)) }
{
    match object_of(tree) {
        Some(members) => routes_in(alloc, members),
        None => Ok(None),
    }
}

fn routes_given(alloc: Global, members: &Map<String, Tree>) -> Result<Option<PathList>, OutOfMemory>
    ensures { IfOk result (λ routes. routes ≡ routes_given (members_view members.now.entries)) }
{
    match member(members, ROUTES_KEY) {
        Some(tree) => routes_of(alloc, tree),
        None => Ok(None),
    }
}

impl<'t> Bot<'t> {
    ghost use Rattle.runtime_text.specs.Read.{entry_of, members_of};

    /// The bot of that name with these members.
    pub(crate) fn new(
        alloc: Global,
        name: BotName,
        members: &'t Map<String, Tree>,
    ) -> Result<Bot<'t>, OutOfMemory>
        ensures { IfOk result (λ bot. entry_of bot ≡ (name, members_view members.now.entries)) }
    {
        Ok(Bot {
            name,
            members,
            routes: routes_given(alloc, members)?,
        })
    }

    pub fn name(&self) -> BotName
        ensures { result ≡ (entry_of self.now).0 }
    {
        self.name
    }

    /// The value under a name.
    pub fn member(&self, name: &str) -> Option<&'t Tree>
        ensures { option_map (λ tree. view tree.now) result ≡ get_member name.now (entry_of self.now).1 }
    {
        member(self.members, name)
    }

    /// The object under a name, or an empty one.
    pub(crate) fn object(&self, name: &str) -> Object<'t>
        ensures { members_of result ≡ object_under name.now (entry_of self.now).1 }
    {
        Object::under(self.members, name)
    }

    /// Its module, where `module` is one of the words.
    pub fn module(&self) -> Option<ModuleWord>
        ensures { result ≡ module_of (entry_of self.now) }
    {
        match self.member("module") {
            Some(tree) => module_of(tree),
            None => None,
        }
    }

    /// The name of the file of a bundle that the bot's module reads: the bot's parameter, or that of all bots, where it is a
    /// text of 1 to 255 bytes.
    pub fn file(&self, global: &Object<'t>) -> Option<&'t str>
        ensures { option_map (λ name. name.now) result ≡ file_of (members_of global.now) (entry_of self.now) }
    {
        file_given(global, self.members)
    }

    /// The bot's paths with the names of their queues, in byte order of the paths.
    pub fn routes(&self) -> &[(Text, TextList)]
        ensures { result.now ≡ routes (entry_of self.now) }
    {
        match &self.routes {
            Some(routes) => routes.as_slice(),
            None => &[],
        }
    }

    /// Whether the paths are there and are no object of lists of texts.
    pub fn has_bad_routes(&self) -> bool
        ensures { result ≡ is_given_badly (λ tree. is_some (routes_of_value tree)) (get_member routes_key (entry_of self.now).1) }
    {
        self.routes.is_none() && self.member(ROUTES_KEY).is_some()
    }
}
