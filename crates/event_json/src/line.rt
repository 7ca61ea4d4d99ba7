//! What the pairs of a message are put into, one behind the other.
ghost use Rattle.std.specs.Prelude.{◌≡◌, true, flat_map, IfOk, IfSome, OnOk};
ghost use Rattle.base_types.specs.JsonText.{escaped};
ghost use Rattle.field_types.specs.declared.value.Value.TheVariants as as_value;
ghost use Rattle.event_model.specs.Fields.{IsField};
ghost use Rattle.event_model.specs.Lenient.{type_key};
ghost use Rattle.event_text.specs.Decode.{opening};
ghost use Rattle.event_json.specs.Direct.{ended, PutsPair};
ghost use Rattle.event_text.specs.Strict.{IsTyped};
ghost use Rattle.event_text.specs.Text.{message_text};

use crate::message_line::MessageLine;
use crate::text_line::TextLine;
use base_types::{OutOfMemory, Text};
use event_model::{Kind, Message};
use field_types::{FieldKey, Value};
use std::alloc::Global;
use std::marker::Model;

#[derive(Drop)]
enum Pairs {
    Text(TextLine),
    Whole(MessageLine),
}

/// The text of a message, or the message itself, as far as it is put together: names rise. Contracts see the text without
/// its closing brace, and the last name.
#[derive(Drop)]
pub struct Line {
    pairs: Pairs,
}

impl Model for Line {
    ghost use Rattle.std.specs.Prelude.{List, ℕ};
    ghost use Rattle.std.specs.Coded.{coded_ℕ, coded_list, coded×};
    ghost use Rattle.event_json.specs.Put.{line_written};

    ghost Value = { List ℕ × List ℕ };

    ghost coded = { coded× (coded_list coded_ℕ) (coded_list coded_ℕ) };

    ghost view = { λ l. line_written l.pairs };
}

impl Line {
    /// No text yet. It takes no memory.
    pub fn of_text(alloc: Global) -> Self {
        Line {
            pairs: Pairs::Text(TextLine::new(alloc)),
        }
    }

    /// No message yet. It takes no memory.
    pub fn of_message(alloc: Global) -> Self {
        Line {
            pairs: Pairs::Whole(MessageLine::new(alloc)),
        }
    }

    /// Begins a message of this kind, of about so many fields.
    pub fn begin(&mut self, alloc: Global, kind: Kind, fields: usize) -> Result<(), OutOfMemory>
        ensures { OnOk result (self.new ≡ (opening kind, type_key)) }
    {
        match &mut self.pairs {
            Pairs::Text(line) => line.begin(kind),
            Pairs::Whole(line) => line.begin(alloc, kind, fields),
        }
    }

    /// Puts a field and its canonical value, a text, if its name is above the last. A name that stands in a JSON string as
    /// it is is said to be plain.
    pub fn push_text(
        &mut self,
        alloc: Global,
        name: &FieldKey<'_>,
        plain: bool,
        text: &str,
    ) -> Result<bool, OutOfMemory>
        requires plain { plain ≡ true → flat_map escaped name.now ≡ name.now }
        requires field { IsField name.now (as_value.Text text.now) }
        ensures { IfOk result (λ is_above. is_above ≡ true → PutsPair (name.now, as_value.Text text.now) self.old self.new) }
    {
        match &mut self.pairs {
            Pairs::Text(line) => line.push_text(name, plain, text),
            Pairs::Whole(line) => {
                let text = Text::from(String::from_str(alloc, text)?);
                line.push(alloc, name, Value::Text(text))
            }
        }
    }

    /// Puts a field and its canonical value, as `push_text`.
    pub fn push(
        &mut self,
        alloc: Global,
        name: &FieldKey<'_>,
        plain: bool,
        value: Value,
    ) -> Result<bool, OutOfMemory>
        requires plain { plain ≡ true → flat_map escaped name.now ≡ name.now }
        requires field { IsField name.now value }
        ensures { IfOk result (λ is_above. is_above ≡ true → PutsPair (name.now, value) self.old self.new) }
    {
        match &mut self.pairs {
            Pairs::Text(line) => line.push(name, plain, &value),
            Pairs::Whole(line) => line.push(alloc, name, value),
        }
    }

    /// The text, if it is one that is put together.
    pub fn text(&self) -> Option<&[u8]>
        ensures { IfSome result (λ text. text.now ≡ self.now.0) }
    {
        match &self.pairs {
            Pairs::Text(line) => Some(line.text()),
            Pairs::Whole(_) => None,
        }
    }

    /// The message, if it is one that is put together.
    pub fn into_message(self) -> Option<Message>
        ensures text { IfSome result (λ message. message_text message ≡ ended self) }
        ensures typed { IfSome result IsTyped }
    {
        match self.pairs {
            Pairs::Text(_) => None,
            Pairs::Whole(line) => Some(line.into_message()),
        }
    }
}
