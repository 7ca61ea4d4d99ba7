//! What may be set of modules.
use crate::texts::{push_text, push_utf8};
use base_types::OutOfMemory;
use event_model::{Fields, ReadFault, read_tree};
use field_types::push_value;
use module_settings::{
    Form, Instances, ModuleWord, Parameter, Setting, Words, module_of, own_parameters, setting_of,
    shared_parameters, taken_as,
};
use serde_json::Value as Tree;
use std::alloc::Global;
use table_lines::unescaped;

/// The module that a value of JSON names.
pub fn module(alloc: Global, case: &str) -> Result<String, OutOfMemory> {
    match word_in(alloc, case)? {
        Some(word) => Ok(format!(in alloc; "{word:?}")?),
        None => Ok("none".to_string(alloc)?),
    }
}

fn word_in(alloc: Global, case: &str) -> Result<Option<ModuleWord>, OutOfMemory> {
    let text = unescaped(alloc, case)?;
    word_of(&read_tree(alloc, &text))
}

fn word_of(read: &Result<Tree, ReadFault>) -> Result<Option<ModuleWord>, OutOfMemory> {
    match read {
        Ok(tree) => Ok(module_of(tree)),
        Err(ReadFault::OutOfMemory) => Err(OutOfMemory),
        Err(_) => Ok(None),
    }
}

/// What the parameters of a module alone are where they aren't given, a line each.
pub fn own(alloc: Global, case: &str) -> Result<String, OutOfMemory> {
    match word_in(alloc, case)? {
        Some(word) => defaults_text(alloc, own_parameters(word)),
        None => Ok("no module".to_string(alloc)?),
    }
}

/// What the parameters of all bots are where they aren't given.
pub fn shared(alloc: Global, case: &str) -> Result<String, OutOfMemory> {
    let instances = if case == "collector" {
        Instances::One
    } else {
        Instances::Several
    };
    defaults_text(alloc, shared_parameters(instances))
}

fn defaults_text(alloc: Global, parameters: &[Parameter]) -> Result<String, OutOfMemory> {
    let mut out = String::new(alloc);
    for parameter in parameters {
        push_default(&mut out, parameter)?;
        out.push_str("\n")?;
    }
    if out.is_empty() {
        out.push_str("nothing")?;
    }
    Ok(out)
}

fn push_default(out: &mut String, parameter: &Parameter) -> Result<(), OutOfMemory> {
    let alloc = *out.allocator();
    out.push_str(parameter.name)?;
    out.push_str(": ")?;
    push_setting(out, "required", &setting_of(alloc, parameter, None)?)
}

/// What a parameter of a form is taken as by a value of JSON.
pub fn taken(alloc: Global, form: &str, case: &str) -> Result<String, OutOfMemory> {
    let Some(form) = form_of(form) else {
        return Ok("no form".to_string(alloc)?);
    };
    let text = unescaped(alloc, case)?;
    taken_text(alloc, form, &read_tree(alloc, &text))
}

fn form_of(word: &str) -> Option<Form> {
    match word {
        "number from 1 to 1048576" => Some(Form::Number {
            least: 1,
            most: 1_048_576,
        }),
        "flag" => Some(Form::Flag),
        "procedure" => Some(Form::Word(Words::Procedure)),
        "filter" => Some(Form::Word(Words::Filter)),
        "style" => Some(Form::Word(Words::Style)),
        "time format" => Some(Form::Word(Words::TimeFormat)),
        "file name" => Some(Form::FileName),
        "stripped" => Some(Form::Stripped),
        "texts" => Some(Form::Texts),
        "byte" => Some(Form::Byte),
        "fields" => Some(Form::FieldObject),
        _ => None,
    }
}

fn taken_text(
    alloc: Global,
    form: Form,
    read: &Result<Tree, ReadFault>,
) -> Result<String, OutOfMemory> {
    match read {
        Ok(tree) => setting_text(alloc, &taken_as(alloc, form, tree)?),
        Err(ReadFault::OutOfMemory) => Err(OutOfMemory),
        Err(_) => Ok("no JSON".to_string(alloc)?),
    }
}

fn setting_text(alloc: Global, setting: &Option<Setting>) -> Result<String, OutOfMemory> {
    let mut out = String::new(alloc);
    push_setting(&mut out, "none", setting)?;
    Ok(out)
}

// Appends a setting with its sort in front, or that word in its place.
fn push_setting(
    out: &mut String,
    otherwise: &str,
    setting: &Option<Setting>,
) -> Result<(), OutOfMemory> {
    match setting {
        Some(setting) => push_some(out, setting),
        None => {
            out.push_str(otherwise)?;
            Ok(())
        }
    }
}

fn push_some(out: &mut String, setting: &Setting) -> Result<(), OutOfMemory> {
    match setting {
        Setting::Whole(n) => write!(out, "whole {n}")?,
        Setting::Switch(flag) => write!(out, "switch {flag}")?,
        Setting::Line(text) => {
            out.push_str("line ")?;
            push_text(out, text)?;
        }
        Setting::Lines(texts) => {
            out.push_str("lines")?;
            for text in texts.as_slice() {
                out.push_str(" ")?;
                push_text(out, text)?;
            }
        }
        Setting::Defaults(fields) => push_fields(out, fields)?,
        Setting::Unset => out.push_str("unset")?,
    }
    Ok(())
}

fn push_fields(out: &mut String, fields: &Fields) -> Result<(), OutOfMemory> {
    out.push_str("fields")?;
    for (key, value) in fields.pairs() {
        let mut text = Vec::new(*out.allocator());
        push_value(&mut text, value)?;
        out.push_str(" ")?;
        out.push_str(key.as_str())?;
        out.push_str("=")?;
        push_utf8(out, &text)?;
    }
    Ok(())
}
