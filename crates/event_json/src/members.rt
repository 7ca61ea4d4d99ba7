//! The members of the object that a JSON text is.
ghost use Rattle.std.specs.Prelude.{◌≡◌, ◌<◌, [], length, Some, IfOk, IfSome};
ghost use Rattle.json.specs.Json.{members, object, value};
ghost use Rattle.json.specs.Lex.{tokens};
ghost use Rattle.json.specs.Value.{members_view, value_view};

use base_types::OutOfMemory;
use json::{Error, Reader, Scratch, Token, Value};
use std::alloc::Global;

// The members of the text nest so deep at most: with them nearly as deep as `serde_json` reads, since a decimal under
// quotes nests once more.
const MEMBER_DEPTH: usize = 125;

// Room for the members of most objects at once, in 1,008 bytes.
const USUAL_MEMBERS: usize = 21;

/// Names and values of members, as they stand in a text.
pub type Members<'t> = Vec<(&'t str, Value<'t>)>;

// The next value: nothing where there is none.
fn next_value<'t>(alloc: Global, reader: &mut Reader<'t>) -> Result<Option<Value<'t>>, OutOfMemory>
    ensures value { IfOk result (λ found. IfSome found (λ v. value 125 reader.old ≡ Some (value_view v, reader.new))) }
    ensures shorter { IfOk result (λ found. IfSome found (λ _. length reader.new < length reader.old)) }
{
    match Value::read(alloc, reader, MEMBER_DEPTH) {
        Ok(value) => Ok(Some(value)),
        Err(Error::OutOfMemory) => Err(OutOfMemory),
        Err(_) => Ok(None),
    }
}

// The members up to the brace that closes an object: nothing where there is none.
fn members_ahead<'t>(
    alloc: Global,
    reader: &mut Reader<'t>,
) -> Result<Option<Members<'t>>, OutOfMemory>
    ensures { IfOk result (λ found. IfSome found (λ ms. members (value 125) (length reader.old) reader.old ≡ Some (members_view ms.items, reader.new))) }
{
    let mut found = Vec::with_capacity(alloc, USUAL_MEMBERS)?;
    'members: loop {
        let Ok(next) = reader.next_key() else {
            return Ok(None);
        };
        let Some(name) = next else {
            return Ok(Some(found));
        };
        let Some(value) = next_value(alloc, reader)? else {
            return Ok(None);
        };
        found.push((name, value))?;
    }
}

/// The members of the object that a text is: nothing where it is none.
pub fn object_in<'t>(
    alloc: Global,
    text: &'t str,
    scratch: &'t mut Scratch,
) -> Result<Option<Members<'t>>, OutOfMemory>
    ensures { IfOk result (λ found. IfSome found (λ ms. value 126 (tokens text.now) ≡ Some (object (members_view ms.items), []))) }
{
    let Ok(mut reader) = Reader::new(text, scratch) else {
        return Err(OutOfMemory);
    };
    let Some(Token::BeginObject) = reader.next() else {
        return Ok(None);
    };
    let Some(members) = members_ahead(alloc, &mut reader)? else {
        return Ok(None);
    };
    match reader.next() {
        Some(_) => Ok(None),
        None => Ok(Some(members)),
    }
}
