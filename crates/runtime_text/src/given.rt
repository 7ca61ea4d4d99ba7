//! The parameters that are given to a bot.
ghost use Rattle.std.specs.Prelude.{◌≡◌, [], map, option_map, unwrap_or, IfOk};
ghost use Rattle.std.specs.Option.{option_or};
ghost use Rattle.serde_json.specs.Find.{get_member};
ghost use Rattle.serde_json.specs.View.{view};
ghost use Rattle.module_settings.specs.Parameters.{parameters_of};
ghost use Rattle.runtime_text.specs.Read.{entry_of, members_of};
ghost use Rattle.module_settings.specs.Rows.{parameter_of};
ghost use Rattle.runtime_text.specs.Runtime.{defaults_in, given, line, line_in, lines_in, parameter_named, parameters, set_as, setting, switch_in, whole_in};

use crate::bot::Bot;
use crate::object::Object;
use base_types::{OutOfMemory, Text, TextList};
use event_model::Fields;
use module_settings::{ModuleWord, Parameter, Setting, parameters_of, setting_of};
use serde_json::Value as Tree;
use std::alloc::Global;

/// The value under a name of a bot's own parameters, or else of those of all bots.
pub(crate) fn given_in<'t>(global: &Object<'t>, own: &Object<'t>, name: &str) -> Option<&'t Tree>
    ensures { option_map (λ tree. view tree.now) result ≡ option_or (get_member name.now (members_of own.now)) (get_member name.now (members_of global.now)) }
{
    match own.get(name) {
        Some(tree) => Some(tree),
        None => global.get(name),
    }
}

/// The value of a parameter: the bot's own, or that of all bots.
pub fn given<'t>(global: &Object<'t>, bot: &Bot<'t>, name: &str) -> Option<&'t Tree>
    ensures { option_map (λ tree. view tree.now) result ≡ given (members_of global.now) (entry_of bot.now) name.now }
{
    given_in(global, &bot.object("parameters"), name)
}

fn named_in(parameters: &'static [Parameter], name: &str) -> Option<&'static Parameter>
    ensures { option_map (λ q. parameter_of q.now) result ≡ parameter_named name.now (map parameter_of parameters.now) }
{
    'parameters: for parameter in parameters {
        if parameter.name == name {
            return Some(parameter);
        }
    }
    None
}

// The parameter of this name that bots of the module have.
fn parameter_named(word: Option<ModuleWord>, name: &str) -> Option<&'static Parameter>
    ensures { option_map (λ q. parameter_of q.now) result ≡ parameter_named name.now (parameters_of word) }
{
    let (shared, own) = parameters_of(word);
    match named_in(shared, name) {
        Some(parameter) => Some(parameter),
        None => named_in(own, name),
    }
}

/// What a parameter is taken as.
pub fn setting(
    alloc: Global,
    global: &Object,
    bot: &Bot,
    parameter: &Parameter,
) -> Result<Option<Setting>, OutOfMemory>
    ensures { IfOk result (λ found. found ≡ setting (members_of global.now) (entry_of bot.now) (parameter_of parameter.now)) }
{
    setting_of(alloc, parameter, given(global, bot, parameter.name))
}

/// What the bot's parameter of this name is taken as, where its module has such a one.
#[tactic(auto, unfolding(crate::specs::Runtime::set_as))]
fn set_as(
    alloc: Global,
    global: &Object,
    bot: &Bot,
    name: &str,
) -> Result<Option<Setting>, OutOfMemory>
    ensures { IfOk result (λ found. found ≡ set_as (members_of global.now) (entry_of bot.now) name.now) }
{
    match parameter_named(bot.module(), name) {
        Some(parameter) => setting(alloc, global, bot, parameter),
        None => Ok(None),
    }
}

/// That as a number, or 0.
pub fn whole(alloc: Global, global: &Object, bot: &Bot, name: &str) -> Result<u64, OutOfMemory>
    ensures { IfOk result (λ n. n ≡ whole_in (set_as (members_of global.now) (entry_of bot.now) name.now)) }
{
    match set_as(alloc, global, bot, name)? {
        Some(Setting::Whole(n)) => Ok(n),
        _ => Ok(0),
    }
}

/// That as a flag, or not set.
pub fn switch(alloc: Global, global: &Object, bot: &Bot, name: &str) -> Result<bool, OutOfMemory>
    ensures { IfOk result (λ flag. flag ≡ switch_in (set_as (members_of global.now) (entry_of bot.now) name.now)) }
{
    match set_as(alloc, global, bot, name)? {
        Some(Setting::Switch(flag)) => Ok(flag),
        _ => Ok(false),
    }
}

/// That as a text, where it is one.
pub fn line_given(
    alloc: Global,
    global: &Object,
    bot: &Bot,
    name: &str,
) -> Result<Option<Text>, OutOfMemory>
    ensures { IfOk result (λ text. text ≡ line_in (set_as (members_of global.now) (entry_of bot.now) name.now)) }
{
    match set_as(alloc, global, bot, name)? {
        Some(Setting::Line(text)) => Ok(Some(text)),
        _ => Ok(None),
    }
}

/// That as a text, or an empty one.
pub fn line(alloc: Global, global: &Object, bot: &Bot, name: &str) -> Result<Text, OutOfMemory>
    ensures { IfOk result (λ text. text ≡ line (members_of global.now) (entry_of bot.now) name.now) }
{
    match line_given(alloc, global, bot, name)? {
        Some(text) => Ok(text),
        None => Ok(Text::from(String::new(alloc))),
    }
}

/// That as texts, or none.
pub fn lines(alloc: Global, global: &Object, bot: &Bot, name: &str) -> Result<TextList, OutOfMemory>
    ensures { IfOk result (λ texts. texts ≡ lines_in (set_as (members_of global.now) (entry_of bot.now) name.now)) }
{
    match set_as(alloc, global, bot, name)? {
        Some(Setting::Lines(texts)) => Ok(texts),
        _ => Ok(TextList::new(alloc)),
    }
}

/// That as fields, or none.
pub fn defaults(
    alloc: Global,
    global: &Object,
    bot: &Bot,
    name: &str,
) -> Result<Fields, OutOfMemory>
    ensures { IfOk result (λ fields. fields ≡ defaults_in (set_as (members_of global.now) (entry_of bot.now) name.now)) }
{
    match set_as(alloc, global, bot, name)? {
        Some(Setting::Defaults(fields)) => Ok(fields),
        _ => Ok(Fields::new(alloc)),
    }
}
