//! The canonical text of a message, put together pair by pair, without its closing brace.
ghost use Rattle.std.specs.Prelude.{◌≡◌, ◌++◌, ◌∷◌, [], true, flat_map, IfOk, OnOk};
ghost use Rattle.std.specs.Ordering.{nat_cmp, is_lt};
ghost use Rattle.std.specs.Cmp.Lexicographic.{slice_cmp};
ghost use Rattle.std.specs.Str.{is_utf8};
ghost use Rattle.base_types.specs.JsonText.{escaped, quoted};
ghost use Rattle.field_types.specs.declared.value.Value.TheVariants as as_value;
ghost use Rattle.event_model.specs.Lenient.{type_key};
ghost use Rattle.event_text.specs.Decode.{opening};
ghost use Rattle.event_json.specs.Direct.{PutsName, PutsPair};

use base_types::{OutOfMemory, push_quoted};
use event_model::Kind;
use event_text::opening;
use field_types::{FieldKey, Value, push_value};
use std::alloc::Global;
use std::marker::Model;

const TYPE_KEY: &[u8] = b"__type";

/// The text of a message so far, and the last name in it: names rise. Contracts see these two. Its memory is kept from
/// message to message.
#[derive(Drop)]
pub struct TextLine {
    text: Vec<u8>,
    // The last name where it is known as one of the table of fields, which takes no copy of it.
    known: Option<FieldKey<'static>>,
    // The last name, where it isn't.
    last: Vec<u8>,
}

impl Model for TextLine {
    ghost use Rattle.std.specs.Prelude.{List, ℕ};
    ghost use Rattle.std.specs.Coded.{coded_ℕ, coded_list, coded×};
    ghost use Rattle.event_json.specs.Direct.{last_name};

    ghost Value = { List ℕ × List ℕ };

    ghost coded = { coded× (coded_list coded_ℕ) (coded_list coded_ℕ) };

    ghost view = { λ l. (l.text.items, last_name l.known l.last.items) };
}

// Makes a buffer these bytes.
fn overwrite(buffer: &mut Vec<u8>, bytes: &[u8]) -> Result<(), OutOfMemory>
    ensures { OnOk result (buffer.new.items ≡ bytes.now) }
{
    buffer.clear();
    buffer.extend_from_slice(bytes)?;
    Ok(())
}

// Puts a text as a JSON string behind `out`. One that is said to be plain stands there as it is.
fn push_string(out: &mut Vec<u8>, text: &[u8], plain: bool) -> Result<(), OutOfMemory>
    requires { plain ≡ true → flat_map escaped text.now ≡ text.now }
    ensures { OnOk result (out.new.items ≡ out.old.items ++ quoted text.now) }
{
    if !plain {
        return push_quoted(out, text);
    }
    push_plain(out, text)
}

#[tactic(auto, unfolding(base_types::specs::JsonText::quoted))]
fn push_plain(out: &mut Vec<u8>, text: &[u8]) -> Result<(), OutOfMemory>
    requires { flat_map escaped text.now ≡ text.now }
    ensures { OnOk result (out.new.items ≡ out.old.items ++ quoted text.now) }
{
    out.push(b'"')?;
    out.extend_from_slice(text)?;
    out.push(b'"')?;
    Ok(())
}

fn is_below(name: &[u8], other: &[u8]) -> bool
    ensures { result ≡ is_lt (slice_cmp nat_cmp name.now other.now) }
{
    name.cmp(other).is_lt()
}

impl TextLine {
    /// The empty text. It takes no memory.
    pub fn new(alloc: Global) -> Self
        ensures { result ≡ ([], []) }
    {
        TextLine {
            text: Vec::new(alloc),
            known: None,
            last: Vec::new(alloc),
        }
    }

    /// The text.
    pub fn text(&self) -> &[u8]
        ensures { result.now ≡ self.now.0 }
    {
        &self.text
    }

    /// Begins the text of a message of this kind.
    pub fn begin(&mut self, kind: Kind) -> Result<(), OutOfMemory>
        ensures { OnOk result (self.new ≡ (opening kind, type_key)) }
    {
        overwrite(&mut self.text, opening(kind))?;
        self.known = None;
        overwrite(&mut self.last, TYPE_KEY)
    }

    // Whether the last name is below this one.
    fn is_below(&self, name: &FieldKey<'_>) -> bool
        ensures { result ≡ is_lt (slice_cmp nat_cmp self.now.1 name.now) }
    {
        match &self.known {
            Some(last) => last.compare(name).is_lt(),
            None => is_below(&self.last, name.as_str().as_bytes()),
        }
    }

    // Makes this the last name.
    fn keep_name(&mut self, name: &FieldKey<'_>) -> Result<(), OutOfMemory>
        ensures { OnOk result (self.new ≡ (self.old.0, name.now)) }
    {
        match name.known() {
            Some(known) => {
                self.known = Some(known);
                Ok(())
            }
            None => {
                self.known = None;
                overwrite(&mut self.last, name.as_str().as_bytes())
            }
        }
    }

    // Puts the name of a pair, if it is above the last.
    fn enter(&mut self, name: &FieldKey<'_>, plain: bool) -> Result<bool, OutOfMemory>
        requires { plain ≡ true → flat_map escaped name.now ≡ name.now }
        ensures name { IfOk result (λ is_above. is_above ≡ true → PutsName name.now self.old self.new) }
        ensures utf8 { OnOk result (is_utf8 name.now ≡ true) }
    {
        let text = name.as_str().as_bytes();
        if !self.is_below(name) {
            return Ok(false);
        }
        self.keep_name(name)?;
        self.text.push(b',')?;
        push_string(&mut self.text, text, plain)?;
        self.text.push(b':')?;
        Ok(true)
    }

    /// Puts a field and its value, a text, if its name is above the last. A name that stands in a JSON string as it is is
    /// said to be plain.
    pub fn push_text(
        &mut self,
        name: &FieldKey<'_>,
        plain: bool,
        text: &str,
    ) -> Result<bool, OutOfMemory>
        requires { plain ≡ true → flat_map escaped name.now ≡ name.now }
        ensures { IfOk result (λ is_above. is_above ≡ true → PutsPair (name.now, as_value.Text text.now) self.old self.new) }
    {
        if !self.enter(name, plain)? {
            return Ok(false);
        }
        push_quoted(&mut self.text, text.as_bytes())?;
        Ok(true)
    }

    /// Puts a field and its value, as `push_text`.
    pub fn push(
        &mut self,
        name: &FieldKey<'_>,
        plain: bool,
        value: &Value,
    ) -> Result<bool, OutOfMemory>
        requires { plain ≡ true → flat_map escaped name.now ≡ name.now }
        ensures { IfOk result (λ is_above. is_above ≡ true → PutsPair (name.now, value.now) self.old self.new) }
    {
        if !self.enter(name, plain)? {
            return Ok(false);
        }
        push_value(&mut self.text, value)?;
        Ok(true)
    }
}
