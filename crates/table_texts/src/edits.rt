//! Edits of the fields of a message.
use crate::fields::push_json;
use base_types::{OutOfMemory, Text, TextList};
use event_json::clean_message;
use event_model::{EventFault, Fields};
use field_types::Value;
use std::alloc::Global;
use table_lines::push_escaped;

/// What edits answer that are made one after the other, with ` | ` between two, and the fields after each.
pub fn edits(alloc: Global, text: &str) -> Result<String, OutOfMemory> {
    let mut fields = Fields::new(alloc);
    let mut answers = String::new(alloc);
    for edit in text.split(" | ") {
        push_edited(alloc, &mut answers, &mut fields, edit)?;
        push_fields(alloc, &mut answers, &fields)?;
    }
    Ok(answers)
}

fn push_fields(alloc: Global, answers: &mut String, fields: &Fields) -> Result<(), OutOfMemory> {
    answers.push_str(":")?;
    for pair in fields.pairs() {
        answers.push_str(" ")?;
        push_escaped(answers, pair.0.bytes())?;
        answers.push_str("=")?;
        push_json(alloc, answers, &pair.1)?;
    }
    answers.push_str("\n")?;
    Ok(())
}

fn push_edited(
    alloc: Global,
    answers: &mut String,
    fields: &mut Fields,
    edit: &str,
) -> Result<(), OutOfMemory> {
    let (call, given) = edit.split_once(' ').unwrap_or((edit, ""));
    if call == "get" {
        return push_found(alloc, answers, fields, given);
    }
    answers.push_str(edited(alloc, fields, call, given)?)?;
    Ok(())
}

fn push_found(
    alloc: Global,
    answers: &mut String,
    fields: &Fields,
    name: &str,
) -> Result<(), OutOfMemory> {
    match fields.get(&Text::from(String::from_str(alloc, name)?)) {
        Some(value) => push_json(alloc, answers, value),
        None => Ok(answers.push_str("absent")?),
    }
}

fn edited(
    alloc: Global,
    fields: &mut Fields,
    call: &str,
    given: &str,
) -> Result<&'static str, OutOfMemory> {
    match call {
        "add" | "set" | "update" => changed(alloc, fields, call, given),
        "remove" => removed(alloc, fields, given),
        "keep" => restricted(alloc, fields, given, true),
        "without" => restricted(alloc, fields, given, false),
        "copy" => copied(alloc, fields),
        "read" => read(alloc, fields, given),
        _ => Ok("no edit"),
    }
}

fn removed(alloc: Global, fields: &mut Fields, name: &str) -> Result<&'static str, OutOfMemory> {
    if fields.remove(&Text::from(String::from_str(alloc, name)?)) {
        Ok("done")
    } else {
        Ok("absent")
    }
}

// Gives a field, as `NAME=TEXT`, a value.
fn changed(
    alloc: Global,
    fields: &mut Fields,
    call: &str,
    pair: &str,
) -> Result<&'static str, OutOfMemory> {
    let (key, text) = pair.split_once('=').unwrap_or((pair, ""));
    let key = Text::from(String::from_str(alloc, key)?);
    let value = Value::Text(Text::from(String::from_str(alloc, text)?));
    let answer = match call {
        "add" => fields.add(alloc, &key, &value).map(|_| true),
        "set" => fields.set(alloc, &key, &value).map(|_| true),
        _ => fields.update(alloc, &key, &value),
    };
    match answer {
        Ok(true) => Ok("done"),
        Ok(false) => Ok("absent"),
        Err(EventFault::NoField) => Ok("no field"),
        Err(EventFault::BadValue) => Ok("bad value"),
        Err(EventFault::Present) => Ok("present"),
        Err(EventFault::OutOfMemory) => Err(OutOfMemory),
    }
}

// Leaves these fields alone, or all others.
fn restricted(
    alloc: Global,
    fields: &mut Fields,
    names: &str,
    keep: bool,
) -> Result<&'static str, OutOfMemory> {
    let mut keys = Vec::new(alloc);
    for name in names.split(' ') {
        keys.push(Text::from(String::from_str(alloc, name)?))?;
    }
    *fields = fields.restrict(alloc, &TextList::from(keys), keep)?;
    Ok("done")
}

fn copied(alloc: Global, fields: &mut Fields) -> Result<&'static str, OutOfMemory> {
    *fields = fields.copy(alloc)?;
    Ok("done")
}

// The fields of a line of JSON in place of those that are there.
fn read(alloc: Global, fields: &mut Fields, line: &str) -> Result<&'static str, OutOfMemory> {
    match clean_message(alloc, line.as_bytes()) {
        Ok(message) => {
            *fields = message.fields;
            Ok("done")
        }
        Err(_) => Ok("no message"),
    }
}
