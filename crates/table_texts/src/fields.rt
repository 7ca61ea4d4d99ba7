//! Fields: their kinds, and what is kept of values.
use base_types::{OutOfMemory, Text};
use field_types::{
    FieldFault, FieldType, Item, ItemList, Value, push_value, sanitise, sanitise_own, type_of,
    type_of_bytes,
};
use std::alloc::Global;
use table_lines::{escaped, push_escaped};

/// The kind of the field of a name, by its bytes and by its text.
pub fn kind(alloc: Global, name: &[u8]) -> Result<String, OutOfMemory> {
    let found = type_of_bytes(name);
    if let Ok(name) = std::str::from_utf8(name) {
        if type_of(&Text::from(String::from_str(alloc, name)?)) != found {
            return Ok(String::from_str(alloc, "another by its text")?);
        }
    }
    match found {
        Some(kind) => Ok(format!(in alloc; "{kind:?}")?),
        None => Ok(String::from_str(alloc, "no field")?),
    }
}

// A value that is no list, as an item.
fn item(alloc: Global, sort: &str, text: &str) -> Result<Option<Item>, OutOfMemory> {
    match sort {
        "text" => Ok(Some(Item::Text(Text::from(String::from_str(alloc, text)?)))),
        "whole" => Ok(text.parse().ok().map(Item::Whole)),
        "decimal" => Ok(text.parse().ok().map(Item::Decimal)),
        "flag" => Ok(Some(Item::Flag(text == "true"))),
        _ => Ok(None),
    }
}

// Items, as `whole 1 | text a`. Nothing is no items.
fn list(alloc: Global, text: &str) -> Result<ItemList, OutOfMemory> {
    let mut items = Vec::new(alloc);
    for part in text.split(" | ") {
        if let Some((sort, text)) = part.split_once(' ') {
            if let Some(item) = item(alloc, sort, text)? {
                items.push(item)?;
            }
        }
    }
    Ok(ItemList::from(items))
}

fn value(alloc: Global, sort: &str, text: &str) -> Result<Option<Value>, OutOfMemory> {
    if sort == "list" {
        return Ok(Some(Value::List(list(alloc, text)?)));
    }
    Ok(match item(alloc, sort, text)? {
        Some(Item::Text(text)) => Some(Value::Text(text)),
        Some(Item::Whole(n)) => Some(Value::Whole(n)),
        Some(Item::Flag(flag)) => Some(Value::Flag(flag)),
        Some(Item::Decimal(n)) => Some(Value::Decimal(n)),
        None => None,
    })
}

/// The JSON of what a field, as `NAME=VALUE`, keeps of a value of the sort that the call names. Decimals are in millionths.
pub fn clean(alloc: Global, call: &str, text: &str) -> Result<String, OutOfMemory> {
    let sort = call.strip_prefix("clean ").unwrap_or(call);
    let Some((name, text)) = text.split_once('=') else {
        return Ok(String::from_str(alloc, "no pair")?);
    };
    match (type_of_bytes(name.as_bytes()), value(alloc, sort, text)?) {
        (Some(kind), Some(given)) => cleaned(alloc, kind, given),
        _ => Ok(String::from_str(alloc, "no field or no value")?),
    }
}

// What is kept of a value, in further lines what is kept of it where it is given away, and what is kept of that, if they are others.
fn cleaned(alloc: Global, kind: FieldType, given: Value) -> Result<String, OutOfMemory> {
    let kept = sanitise(alloc, kind, &given);
    let mut answer = json_of(alloc, &kept)?;
    let own = json_of(alloc, &sanitise_own(alloc, kind, given))?;
    if own != answer {
        answer.push_str("\nand given away ")?;
        answer.push_str(own.as_str())?;
    }
    if let Ok(kept) = &kept {
        push_again(alloc, &mut answer, kind, kept)?;
    }
    Ok(answer)
}

fn json_of(alloc: Global, answer: &Result<Value, FieldFault>) -> Result<String, OutOfMemory> {
    match answer {
        Ok(value) => {
            let mut json = Vec::new(alloc);
            push_value(&mut json, value)?;
            Ok(escaped(alloc, &json)?)
        }
        Err(FieldFault::BadValue) => Ok(String::from_str(alloc, "bad")?),
        Err(FieldFault::OutOfMemory) => Err(OutOfMemory),
    }
}

fn push_again(
    alloc: Global,
    answer: &mut String,
    kind: FieldType,
    kept: &Value,
) -> Result<(), OutOfMemory> {
    let again = sanitise(alloc, kind, kept);
    if again.as_ref() == Ok(kept) {
        return Ok(());
    }
    answer.push_str("\nand then ")?;
    answer.push_str(json_of(alloc, &again)?.as_str())?;
    Ok(())
}

/// Puts a value's JSON behind a text of one line.
pub fn push_json(alloc: Global, line: &mut String, value: &Value) -> Result<(), OutOfMemory> {
    let mut json = Vec::new(alloc);
    push_value(&mut json, value)?;
    push_escaped(line, &json)?;
    Ok(())
}
