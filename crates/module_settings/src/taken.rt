//! What values of JSON are taken as.
ghost use Rattle.std.specs.Prelude.{◌≡◌, option_map, option_and_then, IfOk, None, Some, if◌then◌else◌};
ghost use Rattle.serde_json.specs.Find.{as_bool, as_number, as_str, as_u64};
ghost use Rattle.serde_json.specs.View.{view};
ghost use Rattle.field_types.specs.Cleaning.{clean};
ghost use Rattle.field_types.specs.declared.kind.FieldType.TheVariants as kind;
ghost use Rattle.field_types.specs.declared.value.Value.TheVariants as value;
ghost use Rattle.module_settings.specs.Parameters.{byte_of, defaults_of, is_delimiter, is_file_name, is_word, line_of, line_when, taken_as, texts_of, whole_within};
ghost use Rattle.module_settings.specs.declared.setting.Setting.TheVariants as setting;

use crate::texts::{text_of, texts_of};
use crate::{Form, Setting, Words};
use base_types::OutOfMemory;
use event_model::{ReadFault, clean_tree};
use field_types::{FieldFault, FieldType, Value, sanitise_text};
use serde_json::Value as Tree;
use std::alloc::Global;

fn whole(tree: &Tree, least: u64, most: u64) -> Option<Setting>
    ensures { result ≡ option_and_then (whole_within least most) (option_and_then as_u64 (as_number (view tree.now))) }
{
    match tree.as_u64() {
        Some(n) if least <= n && n <= most => Some(Setting::Whole(n)),
        _ => None,
    }
}

fn switch(tree: &Tree) -> Option<Setting>
    ensures { result ≡ option_map setting.Switch (as_bool (view tree.now)) }
{
    match tree.as_bool() {
        Some(flag) => Some(Setting::Switch(flag)),
        None => None,
    }
}

// The text, where it passed.
fn line_when(alloc: Global, passed: bool, text: &str) -> Result<Option<Setting>, OutOfMemory>
    ensures { IfOk result (λ line. line ≡ (if passed then Some (setting.Line text.now) else None)) }
{
    if passed {
        Ok(Some(Setting::Line(text_of(alloc, text)?)))
    } else {
        Ok(None)
    }
}

fn is_word(words: Words, text: &str) -> bool
    ensures { result ≡ is_word words text.now }
{
    match words {
        Words::Procedure => text == "pass" || text == "stop",
        Words::Filter => {
            text == "allow" || text == "whitelist" || text == "deny" || text == "blacklist"
        }
        Words::Style => text == "object" || text == "array" || text == "lines",
        Words::TimeFormat => text == "timestamp",
    }
}

pub fn is_file_name(text: &str) -> bool
    ensures { result ≡ is_file_name text.now }
{
    !text.is_empty() && text.len() <= 255
}

fn word(alloc: Global, words: Words, tree: &Tree) -> Result<Option<Setting>, OutOfMemory>
    ensures { IfOk result (λ line. line ≡ option_and_then (line_when (is_word words)) (as_str (view tree.now))) }
{
    match tree.as_str() {
        Some(text) => line_when(alloc, is_word(words, text), text),
        None => Ok(None),
    }
}

fn file_name(alloc: Global, tree: &Tree) -> Result<Option<Setting>, OutOfMemory>
    ensures { IfOk result (λ line. line ≡ option_and_then (line_when is_file_name) (as_str (view tree.now))) }
{
    match tree.as_str() {
        Some(text) => line_when(alloc, is_file_name(text), text),
        None => Ok(None),
    }
}

fn line_of(value: Value) -> Option<Setting>
    ensures { result ≡ line_of value }
{
    match value {
        Value::Text(text) => Some(Setting::Line(text)),
        _ => None,
    }
}

// The text as a field of text keeps it.
fn kept(alloc: Global, text: &str) -> Result<Option<Setting>, OutOfMemory>
    ensures { IfOk result (λ line. line ≡ option_and_then line_of (clean kind.Text (value.Text text.now))) }
{
    match sanitise_text(alloc, FieldType::Text, text) {
        Ok(value) => Ok(line_of(value)),
        Err(FieldFault::BadValue) => Ok(None),
        Err(FieldFault::OutOfMemory) => Err(OutOfMemory),
    }
}

fn stripped(alloc: Global, tree: &Tree) -> Result<Option<Setting>, OutOfMemory>
    ensures { IfOk result (λ line. line ≡ option_and_then line_of (option_and_then (λ text. clean kind.Text (value.Text text)) (as_str (view tree.now)))) }
{
    match tree.as_str() {
        Some(text) => kept(alloc, text),
        None => Ok(None),
    }
}

fn texts(alloc: Global, tree: &Tree) -> Result<Option<Setting>, OutOfMemory>
    ensures { IfOk result (λ lines. lines ≡ option_map setting.Lines (texts_of (view tree.now))) }
{
    match texts_of(alloc, tree)? {
        Some(texts) => Ok(Some(Setting::Lines(texts))),
        None => Ok(None),
    }
}

fn is_delimiter(b: u8) -> bool
    ensures { result ≡ is_delimiter b }
{
    b < 128 && b != b'"' && b != b'\r' && b != b'\n'
}

fn byte_of(text: &[u8]) -> Option<Setting>
    ensures { result ≡ byte_of text.now }
{
    match text {
        [b] if is_delimiter(*b) => Some(Setting::Whole(u64::from(*b))),
        _ => None,
    }
}

fn byte(tree: &Tree) -> Option<Setting>
    ensures { result ≡ option_and_then byte_of (as_str (view tree.now)) }
{
    match tree.as_str() {
        Some(text) => byte_of(text.as_bytes()),
        None => None,
    }
}

fn defaults(alloc: Global, tree: &Tree) -> Result<Option<Setting>, OutOfMemory>
    ensures { IfOk result (λ fields. fields ≡ defaults_of (view tree.now)) }
{
    if tree.get("__type").is_some() {
        return Ok(None);
    }
    match clean_tree(alloc, tree) {
        Ok(message) => Ok(Some(Setting::Defaults(message.fields))),
        Err(ReadFault::OutOfMemory) => Err(OutOfMemory),
        Err(_) => Ok(None),
    }
}

/// What a value of JSON is taken as by a form; `None` where it is of another form.
#[tactic(auto, unfolding(crate::specs::Parameters::taken_as))]
pub fn taken_as(alloc: Global, form: Form, tree: &Tree) -> Result<Option<Setting>, OutOfMemory>
    ensures { IfOk result (λ taken. taken ≡ taken_as form (view tree.now)) }
{
    match form {
        Form::Number { least, most } => Ok(whole(tree, least, most)),
        Form::Word(words) => word(alloc, words, tree),
        Form::Flag => Ok(switch(tree)),
        Form::FileName => file_name(alloc, tree),
        Form::Stripped => stripped(alloc, tree),
        Form::Texts => texts(alloc, tree),
        Form::Byte => Ok(byte(tree)),
        Form::FieldObject => defaults(alloc, tree),
    }
}
