//! The items of a sieve as texts, with `; ` between.
use crate::conditions::push_condition;
use crate::texts::{push_json, push_text};
use base_types::{OutOfMemory, Text};
use field_types::FieldName;
use sieve_tree::{How, PutSource, SieveItem};

#[cycle(items)]
pub fn push_items(out: &mut String, items: &[SieveItem]) -> Result<(), OutOfMemory> {
    for (i, item) in items.iter().enumerate() {
        out.push_str(if i == 0 { "" } else { "; " })?;
        push_item(out, item)?;
    }
    Ok(())
}

// The loop over the cases stands here, so that what is behind a condition is seen to be a part of the item.
#[cycle(items)]
fn push_item(out: &mut String, item: &SieveItem) -> Result<(), OutOfMemory> {
    let SieveItem::Choice { cases, otherwise } = item else {
        return push_action(out, item);
    };
    for (i, case) in cases.as_slice().iter().enumerate() {
        out.push_str(if i == 0 { "if " } else { " elif " })?;
        push_condition(out, &case.0)?;
        out.push_str(" {")?;
        push_items(out, case.1.as_slice())?;
        out.push_str("}")?;
    }
    if !otherwise.is_empty() {
        out.push_str(" else {")?;
        push_items(out, otherwise.as_slice())?;
        out.push_str("}")?;
    }
    Ok(())
}

fn push_action(out: &mut String, item: &SieveItem) -> Result<(), OutOfMemory> {
    match item {
        SieveItem::Choice { .. } => out.push_str("a choice")?,
        SieveItem::Keep => out.push_str("keep")?,
        SieveItem::Drop => out.push_str("drop")?,
        SieveItem::Path { names } => push_path(out, names.as_slice())?,
        SieveItem::Put {
            key,
            how,
            source,
            at,
        } => push_put(out, key, *how, source, *at)?,
        SieveItem::Remove { key } => push_removal(out, key)?,
    }
    Ok(())
}

fn push_path(out: &mut String, names: &[Text]) -> Result<(), OutOfMemory> {
    out.push_str("path")?;
    for name in names {
        out.push_str(" ")?;
        push_text(out, name)?;
    }
    Ok(())
}

fn push_put(
    out: &mut String,
    key: &FieldName,
    how: How,
    source: &PutSource,
    at: u32,
) -> Result<(), OutOfMemory> {
    out.push_str(word_of(how))?;
    out.push_str(key.as_str())?;
    out.push_str(" = ")?;
    push_source(out, source)?;
    write!(out, " at {at}")?;
    Ok(())
}

fn word_of(how: How) -> &'static str {
    match how {
        How::Add => "add ",
        How::Force => "add! ",
        How::Update => "update ",
    }
}

fn push_source(out: &mut String, source: &PutSource) -> Result<(), OutOfMemory> {
    match source {
        PutSource::Fixed(value) => push_json(out, value),
        PutSource::Copy(key) => {
            out.push_str(key.as_str())?;
            Ok(())
        }
    }
}

fn push_removal(out: &mut String, key: &FieldName) -> Result<(), OutOfMemory> {
    out.push_str("remove ")?;
    out.push_str(key.as_str())?;
    Ok(())
}
