//! What is wrong with a bot.
ghost use Rattle.std.specs.Prelude.{◌≡◌, ◌++◌, map, filter, option_map, is_some, IfOk, OnOk};
ghost use Rattle.serde_json.specs.Find.{get_member};
ghost use Rattle.serde_json.specs.View.{view};
ghost use Rattle.event_model.specs.Lenient.{least, lesser};
ghost use Rattle.runtime_config.specs.Faults.{bad_members, bad_names, content, content_of, default_path, enabled_key, file_fault, has_path, is_bad, is_missing, is_true, missing_fault, missing_members, missing_names, module_fault, name_when, parameter_fault, parameters_key, rules_text, sieve_text, table_text};
ghost use Rattle.runtime_config.specs.Found.{IsFound};
ghost use Rattle.runtime_text.specs.Named.{file_of};
ghost use Rattle.runtime_text.specs.Read.{entry_of, members_of};
ghost use Rattle.module_settings.specs.Rows.{parameter_of};
ghost use Rattle.runtime_text.specs.Runtime.{is_given_badly, object_of};
ghost use Rattle.runtime_config.specs.declared.fault.LoadFault.TheVariants as fault;

use crate::LoadFault;
use base_types::{Blob, OutOfMemory, Text, TextList};
use config_bundle::Bundle;
use module_settings::{
    Otherwise, Parameter, is_output, parameters_of, reads_rules, reads_sieve, reads_table, text_of,
};
use runtime_text::given::{given, setting};
use runtime_text::{Bot, Object, object_of};
use serde_json::Value as Tree;
use std::alloc::Global;
use std::cmp::Ordering;

// ---- the module

/// A module that is none.
pub(crate) fn unknown_module(bot: &Bot) -> Result<(), LoadFault>
    ensures { IsFound (module_fault (entry_of bot.now)) result }
{
    if bot.member("module").is_some() && bot.module().is_none() {
        return Err(LoadFault::Module { bot: bot.name() });
    }
    Ok(())
}

// ---- the least of names

// The first of two names in byte order.
fn lesser(name: Text, other: Option<Text>) -> Text
    ensures { result ≡ lesser name other }
{
    let Some(other) = other else {
        return name;
    };
    match name.bytes().cmp(other.bytes()) {
        Ordering::Less => name,
        Ordering::Equal => name,
        Ordering::Greater => other,
    }
}

// The first of these names in byte order.
fn least(names: TextList) -> Option<Text>
    ensures { result ≡ least names }
{
    let mut names = names;
    let mut first = None;
    'names: while let Some(name) = names.pop() {
        first = Some(lesser(name, first));
    }
    first
}

fn push_name(
    alloc: Global,
    names: &mut Vec<Text>,
    name: &str,
    holds: bool,
) -> Result<(), OutOfMemory>
    ensures { OnOk result (names.new.items ≡ names.old.items ++ name_when holds name.now) }
{
    if holds {
        names.push(text_of(alloc, name)?)?;
    }
    Ok(())
}

// ---- parameters of another form

fn is_bad(
    alloc: Global,
    global: &Object,
    bot: &Bot,
    parameter: &Parameter,
) -> Result<bool, OutOfMemory>
    ensures { IfOk result (λ bad. bad ≡ is_bad (members_of global.now) (entry_of bot.now) (parameter_of parameter.now)) }
{
    Ok(
        given(global, bot, parameter.name).is_some()
            && setting(alloc, global, bot, parameter)?.is_none(),
    )
}

fn push_bad(
    alloc: Global,
    global: &Object,
    bot: &Bot,
    parameters: &[Parameter],
    names: &mut Vec<Text>,
) -> Result<(), OutOfMemory>
    ensures { OnOk result (names.new.items ≡ names.old.items
        ++ map (λ q. q.name) (filter (is_bad (members_of global.now) (entry_of bot.now)) (map parameter_of parameters.now))) }
{
    'parameters: for parameter in parameters {
        let bad = is_bad(alloc, global, bot, parameter)?;
        push_name(alloc, names, parameter.name, bad)?;
    }
    Ok(())
}

fn is_true(tree: &Tree) -> bool
    ensures { result ≡ is_true (view tree.now) }
{
    tree.as_bool().unwrap_or(false)
}

fn has_bad_parameters(bot: &Bot) -> bool
    ensures { result ≡ is_given_badly (λ d. is_some (object_of d)) (get_member parameters_key (entry_of bot.now).1) }
{
    match bot.member("parameters") {
        Some(tree) => object_of(tree).is_none(),
        None => false,
    }
}

fn is_disabled(bot: &Bot) -> bool
    ensures { result ≡ is_given_badly is_true (get_member enabled_key (entry_of bot.now).1) }
{
    match bot.member("enabled") {
        Some(tree) => !is_true(tree),
        None => false,
    }
}

fn push_bad_members(alloc: Global, bot: &Bot, names: &mut Vec<Text>) -> Result<(), OutOfMemory>
    ensures { OnOk result (names.new.items ≡ names.old.items ++ bad_members (entry_of bot.now)) }
{
    push_name(alloc, names, "parameters", has_bad_parameters(bot))?;
    push_name(alloc, names, "destination_queues", bot.has_bad_routes())?;
    push_name(alloc, names, "enabled", is_disabled(bot))
}

fn bad_names(alloc: Global, global: &Object, bot: &Bot) -> Result<Vec<Text>, OutOfMemory>
    ensures { IfOk result (λ names. names.items ≡ bad_names (members_of global.now) (entry_of bot.now)) }
{
    let mut names = Vec::new(alloc);
    let (shared, own) = parameters_of(bot.module());
    push_bad(alloc, global, bot, shared, &mut names)?;
    push_bad(alloc, global, bot, own, &mut names)?;
    push_bad_members(alloc, bot, &mut names)?;
    Ok(names)
}

/// A parameter of another form; the least name.
pub(crate) fn bad_parameter(alloc: Global, global: &Object, bot: &Bot) -> Result<(), LoadFault>
    ensures { IsFound (parameter_fault (members_of global.now) (entry_of bot.now)) result }
{
    match least(TextList::from(bad_names(alloc, global, bot)?)) {
        Some(name) => Err(LoadFault::Parameter {
            bot: bot.name(),
            name,
        }),
        None => Ok(()),
    }
}

// ---- what must be given and isn't

fn is_missing(global: &Object, bot: &Bot, parameter: &Parameter) -> bool
    ensures { result ≡ is_missing (members_of global.now) (entry_of bot.now) (parameter_of parameter.now) }
{
    match parameter.otherwise {
        Otherwise::Required => given(global, bot, parameter.name).is_none(),
        _ => false,
    }
}

fn push_missing(
    alloc: Global,
    global: &Object,
    bot: &Bot,
    parameters: &[Parameter],
    names: &mut Vec<Text>,
) -> Result<(), OutOfMemory>
    ensures { OnOk result (names.new.items ≡ names.old.items
        ++ map (λ q. q.name) (filter (is_missing (members_of global.now) (entry_of bot.now)) (map parameter_of parameters.now))) }
{
    'parameters: for parameter in parameters {
        push_name(
            alloc,
            names,
            parameter.name,
            is_missing(global, bot, parameter),
        )?;
    }
    Ok(())
}

fn has_default_path(routes: &[(Text, TextList)]) -> bool
    ensures { result ≡ has_path default_path routes.now }
{
    routes.iter().any(|route| route.0.as_str() == "_default")
}

fn push_missing_members(alloc: Global, bot: &Bot, names: &mut Vec<Text>) -> Result<(), OutOfMemory>
    ensures { OnOk result (names.new.items ≡ names.old.items ++ missing_members (entry_of bot.now)) }
{
    push_name(alloc, names, "module", bot.member("module").is_none())?;
    let lacks_path = !has_default_path(bot.routes()) && !is_output(bot.module());
    push_name(alloc, names, "_default", lacks_path)
}

fn missing_names(alloc: Global, global: &Object, bot: &Bot) -> Result<Vec<Text>, OutOfMemory>
    ensures { IfOk result (λ names. names.items ≡ missing_names (members_of global.now) (entry_of bot.now)) }
{
    let mut names = Vec::new(alloc);
    let (shared, own) = parameters_of(bot.module());
    push_missing(alloc, global, bot, shared, &mut names)?;
    push_missing(alloc, global, bot, own, &mut names)?;
    push_missing_members(alloc, bot, &mut names)?;
    Ok(names)
}

/// What must be given and isn't; the least name.
pub(crate) fn missing_member(alloc: Global, global: &Object, bot: &Bot) -> Result<(), LoadFault>
    ensures { IsFound (missing_fault (members_of global.now) (entry_of bot.now)) result }
{
    match least(TextList::from(missing_names(alloc, global, bot)?)) {
        Some(name) => Err(LoadFault::Missing {
            bot: bot.name(),
            name,
        }),
        None => Ok(()),
    }
}

// ---- files

/// The name of the file that the bot's module reads.
pub(crate) fn file_of(
    alloc: Global,
    global: &Object,
    bot: &Bot,
) -> Result<Option<Text>, OutOfMemory>
    ensures { IfOk result (λ name. name ≡ file_of (members_of global.now) (entry_of bot.now)) }
{
    match bot.file(global) {
        Some(name) => Ok(Some(text_of(alloc, name)?)),
        None => Ok(None),
    }
}

/// The bytes of the first file of a name.
pub(crate) fn content_of<'b>(files: &'b [(Text, Blob)], name: &Text) -> Option<&'b [u8]>
    ensures { option_map (λ bytes. bytes.now) result ≡ content_of files.now name.now }
{
    'files: for file in files {
        if file.0 == *name {
            return Some(file.1.bytes());
        }
    }
    None
}

/// The bytes of the bot's file.
pub(crate) fn content<'b>(
    alloc: Global,
    bundle: &'b Bundle,
    global: &Object,
    bot: &Bot,
) -> Result<Option<&'b [u8]>, OutOfMemory>
    ensures { IfOk result (λ bytes. option_map (λ b. b.now) bytes ≡ content bundle.now (members_of global.now) (entry_of bot.now)) }
{
    match file_of(alloc, global, bot)? {
        Some(name) => Ok(content_of(bundle.files.as_slice(), &name)),
        None => Ok(None),
    }
}

/// These bytes, where they are a sieve's.
pub(crate) fn sieve_text<'b>(
    alloc: Global,
    bundle: &'b Bundle,
    global: &Object,
    bot: &Bot,
) -> Result<Option<&'b [u8]>, OutOfMemory>
    ensures { IfOk result (λ bytes. option_map (λ b. b.now) bytes ≡ sieve_text bundle.now (members_of global.now) (entry_of bot.now)) }
{
    if reads_sieve(bot.module()) {
        content(alloc, bundle, global, bot)
    } else {
        Ok(None)
    }
}

/// These bytes, where they are a table's.
pub(crate) fn table_text<'b>(
    alloc: Global,
    bundle: &'b Bundle,
    global: &Object,
    bot: &Bot,
) -> Result<Option<&'b [u8]>, OutOfMemory>
    ensures { IfOk result (λ bytes. option_map (λ b. b.now) bytes ≡ table_text bundle.now (members_of global.now) (entry_of bot.now)) }
{
    if reads_table(bot.module()) {
        content(alloc, bundle, global, bot)
    } else {
        Ok(None)
    }
}

/// These bytes, where they are rules that set fields.
pub(crate) fn rules_text<'b>(
    alloc: Global,
    bundle: &'b Bundle,
    global: &Object,
    bot: &Bot,
) -> Result<Option<&'b [u8]>, OutOfMemory>
    ensures { IfOk result (λ bytes. option_map (λ b. b.now) bytes ≡ rules_text bundle.now (members_of global.now) (entry_of bot.now)) }
{
    if reads_rules(bot.module()) {
        content(alloc, bundle, global, bot)
    } else {
        Ok(None)
    }
}

/// A file that the bundle lacks.
pub(crate) fn absent_file(
    alloc: Global,
    bundle: &Bundle,
    global: &Object,
    bot: &Bot,
) -> Result<(), LoadFault>
    ensures { IsFound (file_fault bundle.now (members_of global.now) (entry_of bot.now)) result }
{
    let names_file = file_of(alloc, global, bot)?.is_some();
    if names_file && content(alloc, bundle, global, bot)?.is_none() {
        return Err(LoadFault::File { bot: bot.name() });
    }
    Ok(())
}
