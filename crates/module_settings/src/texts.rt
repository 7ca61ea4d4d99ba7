//! Lists of texts.
ghost use Rattle.std.specs.Prelude.{◌≡◌, ◌==◌, map, option_map, IfOk};
ghost use Rattle.std.specs.List.{slice_split};
ghost use Rattle.serde_json.specs.View.{view, items_view};
ghost use Rattle.module_settings.specs.Parameters.{between_commas, texts_in, texts_of};
ghost use Rattle.module_settings.specs.declared.setting.Setting.TheVariants as setting;

use crate::Setting;
use base_types::{OutOfMemory, Text, TextList};
use serde_json::Value as Tree;
use std::alloc::{AllocError, Global};

pub fn text_of(alloc: Global, text: &str) -> Result<Text, OutOfMemory>
    ensures { IfOk result (λ copied. copied ≡ text.now) }
{
    Ok(Text::from(String::from_str(alloc, text)?))
}

// The parts of a text between its commas.
fn parts_of(alloc: Global, text: &str) -> Result<Vec<&str>, AllocError>
    ensures { IfOk result (λ parts. map (λ part. part.now) parts.items ≡ slice_split (λ b. b == 44) text.now) }
{
    text.split(',').collect(alloc)
}

/// Texts of these parts.
pub fn copies_of(alloc: Global, parts: &[&str]) -> Result<TextList, OutOfMemory>
    ensures { IfOk result (λ texts. texts ≡ map (λ part. part.now) parts.now) }
{
    let mut texts = Vec::with_capacity(alloc, parts.len())?;
    'parts: for part in parts {
        texts.push(text_of(alloc, part)?)?;
    }
    Ok(TextList::from(texts))
}

fn between_commas(alloc: Global, text: &str) -> Result<TextList, OutOfMemory>
    ensures { IfOk result (λ texts. texts ≡ between_commas text.now) }
{
    let parts = parts_of(alloc, text)?;
    copies_of(alloc, &parts)
}

/// The texts of a list of texts.
pub fn texts_in(alloc: Global, trees: &[Tree]) -> Result<Option<TextList>, OutOfMemory>
    ensures { IfOk result (λ texts. texts ≡ texts_in (items_view trees.now)) }
{
    let mut texts = Vec::with_capacity(alloc, trees.len())?;
    'trees: for tree in trees {
        let Some(text) = tree.as_str() else {
            return Ok(None);
        };
        texts.push(text_of(alloc, text)?)?;
    }
    Ok(Some(TextList::from(texts)))
}

// A list of texts, or one text with commas.
pub fn texts_of(alloc: Global, tree: &Tree) -> Result<Option<TextList>, OutOfMemory>
    ensures { IfOk result (λ texts. texts ≡ texts_of (view tree.now)) }
{
    match tree {
        Tree::String(text) => Ok(Some(between_commas(alloc, text.as_str())?)),
        Tree::Array(trees) => texts_in(alloc, trees),
        _ => Ok(None),
    }
}
