ghost use Rattle.std.specs.Prelude.{◌≡◌, IfOk, IfSome, option_and_then};
ghost use Rattle.std.specs.Option.{option_copied};
ghost use Rattle.std.specs.FinMap.{get, insert};
ghost use Rattle.field_types.specs.declared.value.Value.TheVariants as value;
ghost use Rattle.event_model.specs.Fields.{IsField};
ghost use Rattle.expert_rules.specs.Taxonomy.{taxonomy_key, taxonomy_of, type_key, with_taxonomy};

use crate::word::text_of;
use base_types::{OutOfMemory, Text};
use event_model::Fields;
use field_types::Value;
use scalar_text::taxonomy_of as taxonomy_of_type;
use std::alloc::Global;

// The taxonomy of the type of incident that a value is.
fn taxonomy_of(class: &Value) -> Option<&'static str>
    ensures word { option_copied result ≡ taxonomy_of class.now }
    ensures field { IfSome result (λ word. IsField taxonomy_key (value.Text word.now)) }
{
    match class {
        Value::Text(class) => taxonomy_of_type(class),
        _ => None,
    }
}

// The taxonomy of the event's type.
fn taxonomy_for(alloc: Global, fields: &Fields) -> Result<Option<&'static str>, OutOfMemory>
    ensures word { IfOk result (λ word. option_copied word ≡ option_and_then taxonomy_of (get fields.now type_key)) }
    ensures field { IfOk result (λ word. IfSome word (λ w. IsField taxonomy_key (value.Text w.now))) }
{
    let key = text_of(alloc, "classification.type")?;
    match fields.get(&key) {
        Some(class) => Ok(taxonomy_of(class)),
        None => Ok(None),
    }
}

fn with_word(alloc: Global, fields: &Fields, key: Text, word: &str) -> Result<Fields, OutOfMemory>
    requires { IsField key (value.Text word.now) }
    ensures { IfOk result (λ classified. classified ≡ insert fields.now key (value.Text word.now)) }
{
    let mut classified = fields.copy(alloc)?;
    let word = Value::Text(text_of(alloc, word)?);
    classified.put(key, word)?;
    Ok(classified)
}

/// The fields, and the taxonomy of their `classification.type` where they have no `classification.taxonomy`.
pub fn taxonomy(alloc: Global, fields: &Fields) -> Result<Fields, OutOfMemory>
    ensures { IfOk result (λ classified. classified ≡ with_taxonomy fields.now) }
{
    let key = text_of(alloc, "classification.taxonomy")?;
    if fields.get(&key).is_some() {
        return fields.copy(alloc);
    }
    match taxonomy_for(alloc, fields)? {
        Some(word) => with_word(alloc, fields, key, word),
        None => fields.copy(alloc),
    }
}
