//! The files that a runtime text names.
ghost use Rattle.std.specs.Prelude.{◌≡◌, [], option_map, IfOk, OnOk};
ghost use Rattle.std.specs.Ordering.{nat_cmp};
ghost use Rattle.std.specs.Cmp.Lexicographic.{slice_cmp};
ghost use Rattle.std.specs.List.Sorted.{IsStrictlySortedBy};
ghost use Rattle.serde_json.specs.View.{view, members_view};
ghost use Rattle.runtime_text.specs.Named.{are_objects, file_given, file_name, file_named, named_files, named_from, with_file, with_name, IsPlaceOf};
ghost use Rattle.runtime_text.specs.Read.{members_of};
ghost use Rattle.runtime_text.specs.Runtime.{global_key, module_of, object_under};

use crate::given::given_in;
use crate::object::{Object, member, object_of};
use crate::runtime::tree_in;
use base_types::{OutOfMemory, Text, TextList};
use module_settings::{ModuleWord, is_file_name, module_of, reads_file, text_of};
use serde_json::{Map, Value as Tree};
use std::alloc::Global;
use std::cmp::Ordering;

// ---- one bot

fn module_in(bot: &Map<String, Tree>) -> Option<ModuleWord>
    ensures { result ≡ module_of ([], members_view bot.now.entries) }
{
    match member(bot, "module") {
        Some(tree) => module_of(tree),
        None => None,
    }
}

fn file_name(tree: &Tree) -> Option<&str>
    ensures { option_map (λ name. name.now) result ≡ file_name (view tree.now) }
{
    match tree.as_str() {
        Some(text) if is_file_name(text) => Some(text),
        _ => None,
    }
}

/// The file that a bot is given whose module reads one, of the bot's members.
pub(crate) fn file_given<'t>(global: &Object<'t>, bot: &'t Map<String, Tree>) -> Option<&'t str>
    ensures { option_map (λ name. name.now) result ≡ file_given (members_of global.now) (members_view bot.now.entries) }
{
    if !reads_file(module_in(bot)) {
        return None;
    }
    match given_in(global, &Object::under(bot, "parameters"), "file") {
        Some(tree) => file_name(tree),
        None => None,
    }
}

// The file that a member of a runtime text names. Each but `global` counts as a bot.
fn file_named<'t>(global: &Object<'t>, name: &str, tree: &'t Tree) -> Option<&'t str>
    ensures { option_map (λ name. name.now) result ≡ file_named (members_of global.now) name.now (view tree.now) }
{
    if name == "global" {
        return None;
    }
    match object_of(tree) {
        Some(bot) => file_given(global, bot),
        None => None,
    }
}

// ---- names in byte order

fn compare(text: &Text, name: &str) -> Ordering
    ensures { result ≡ slice_cmp nat_cmp text.now name.now }
{
    text.bytes().cmp(name.as_bytes())
}

// Where a name stands, or where it would stand.
fn place_of(names: &[Text], name: &str) -> Result<usize, usize>
    requires { IsStrictlySortedBy (slice_cmp nat_cmp) names.now }
    ensures { IsPlaceOf name.now names.now result }
{
    names.binary_search_by(|text| compare(text, name))
}

// Puts a name at its place, unless it is there.
fn put_name(alloc: Global, names: &mut Vec<Text>, name: &str) -> Result<(), OutOfMemory>
    requires { IsStrictlySortedBy (slice_cmp nat_cmp) names.old.items }
    ensures { OnOk result (names.new.items ≡ with_name name.now names.old.items) }
{
    let Err(place) = place_of(names, name) else {
        return Ok(());
    };
    names.insert(place, text_of(alloc, name)?)?;
    Ok(())
}

fn put_file(alloc: Global, names: &mut Vec<Text>, file: Option<&str>) -> Result<(), OutOfMemory>
    requires { IsStrictlySortedBy (slice_cmp nat_cmp) names.old.items }
    ensures { OnOk result (names.new.items ≡ with_file (option_map (λ name. name.now) file.entry) names.old.items) }
{
    match file {
        Some(name) => put_name(alloc, names, name),
        None => Ok(()),
    }
}

// ---- all of them

fn are_objects(members: &Map<String, Tree>) -> bool
    ensures { result ≡ are_objects (members_view members.now.entries) }
{
    'members: for (_, tree) in members.iter() {
        if object_of(tree).is_none() {
            return false;
        }
    }
    true
}

fn named_in(alloc: Global, members: &Map<String, Tree>) -> Result<Vec<Text>, OutOfMemory>
    ensures { IfOk result (λ names. names.items ≡ named_from (object_under global_key (members_view members.now.entries)) [] (members_view members.now.entries)) }
{
    let global = Object::under(members, "global");
    let mut names = Vec::new(alloc);
    'members: for (name, tree) in members.iter() {
        put_file(alloc, &mut names, file_named(&global, name.as_str(), tree))?;
    }
    Ok(names)
}

/// The names of the files that a runtime text names: of each member but `global`, as a bot, where its module reads a file,
/// the parameter `file` of 1 to 255 bytes. They are in byte order, each once. A text that is no JSON object of objects
/// names none.
#[tactic(auto, unfolding(crate::specs::Named::named_files))]
pub fn named_files(alloc: Global, runtime: &[u8]) -> Result<TextList, OutOfMemory>
    ensures { IfOk result (λ names. names ≡ named_files runtime.now) }
{
    let Some(tree) = tree_in(alloc, runtime)? else {
        return Ok(TextList::new(alloc));
    };
    match object_of(&tree) {
        Some(members) if are_objects(members) => Ok(TextList::from(named_in(alloc, members)?)),
        _ => Ok(TextList::new(alloc)),
    }
}
