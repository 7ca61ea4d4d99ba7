//! A message, put together field by field.
ghost use Rattle.std.specs.Prelude.{◌≡◌, true, IfOk, OnOk};
ghost use Rattle.std.specs.List.{list_all};
ghost use Rattle.std.specs.Str.{is_utf8};
ghost use Rattle.field_types.specs.Writing.{is_utf8_item, is_utf8_value};
ghost use Rattle.event_model.specs.Fields.{IsField};
ghost use Rattle.event_model.specs.Lenient.{type_key};
ghost use Rattle.event_text.specs.Decode.{opening};
ghost use Rattle.event_json.specs.Direct.{ended, PutsPair};
ghost use Rattle.event_text.specs.Strict.{IsTyped};
ghost use Rattle.event_text.specs.Text.{message_text};

use base_types::{OutOfMemory, Text};
use event_model::{Fields, Kind, Message};
use field_types::{FieldKey, FieldName, Item, Value};
use std::alloc::Global;
use std::marker::Model;

/// A message so far: names rise. Contracts see its text without the closing brace, and the last name, as those of a
/// `TextLine`.
#[derive(Drop)]
pub struct MessageLine {
    kind: Kind,
    fields: Fields,
}

impl Model for MessageLine {
    ghost use Rattle.std.specs.Prelude.{List, ℕ};
    ghost use Rattle.std.specs.Coded.{coded_ℕ, coded_list, coded×};
    ghost use Rattle.std.specs.FinMap.{entries};
    ghost use Rattle.event_json.specs.Direct.{written};
    ghost use Rattle.event_text.specs.Strict.{AreTyped};

    ghost Value = { List ℕ × List ℕ };

    ghost coded = { coded× (coded_list coded_ℕ) (coded_list coded_ℕ) };

    ghost view = { λ l. written l.kind l.fields };

    ghost invariant = { λ l. AreTyped (entries l.fields) };
}

// A text is UTF-8 by its type: this says so, and has nothing to look at. The same of the texts of items, and of a value.
fn prove_utf8_text(text: &Text)
    ensures { is_utf8 text.now ≡ true }
{
    let _ = text.as_str();
}

fn prove_utf8_items(items: &[Item])
    ensures { list_all is_utf8_item items.now ≡ true }
{
    'items: for item in items {
        if let Item::Text(text) = item {
            prove_utf8_text(text);
        }
    }
}

fn prove_utf8_value(value: &Value)
    ensures { is_utf8_value value.now ≡ true }
{
    match value {
        Value::Text(text) => prove_utf8_text(text),
        Value::List(items) => prove_utf8_items(items.as_slice()),
        Value::Whole(_) | Value::Flag(_) | Value::Decimal(_) => {}
    }
}

impl MessageLine {
    /// An event without fields. It takes no memory.
    pub fn new(alloc: Global) -> Self {
        MessageLine {
            kind: Kind::Event,
            fields: Fields::new(alloc),
        }
    }

    /// Begins a message of this kind, with room for so many fields.
    pub fn begin(&mut self, alloc: Global, kind: Kind, fields: usize) -> Result<(), OutOfMemory>
        ensures { OnOk result (self.new ≡ (opening kind, type_key)) }
    {
        self.fields = Fields::with_capacity(alloc, fields)?;
        self.kind = kind;
        Ok(())
    }

    /// Puts a field and its canonical value, if its name is above the last.
    pub fn push(
        &mut self,
        alloc: Global,
        name: &FieldKey<'_>,
        value: Value,
    ) -> Result<bool, OutOfMemory>
        requires { IsField name.now value }
        ensures { IfOk result (λ is_above. is_above ≡ true → PutsPair (name.now, value) self.old self.new) }
    {
        prove_utf8_value(&value);
        let name = FieldName::new(alloc, name.as_str())?;
        self.fields.push(name, value)
    }

    /// The message.
    pub fn into_message(self) -> Message
        ensures text { message_text result ≡ ended self }
        ensures typed { IsTyped result }
    {
        let MessageLine { kind, fields } = self;
        Message { kind, fields }
    }
}
