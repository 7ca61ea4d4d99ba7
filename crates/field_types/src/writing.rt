ghost use Rattle.std.specs.Prelude.{◌≡◌, ◌∷◌, ◌++◌, [], flat_map, map, true, OnOk};
ghost use Rattle.std.specs.Fmt.{signed_decimal};
ghost use Rattle.std.specs.List.{join_with_byte, list_all};
ghost use Rattle.std.specs.Str.{is_utf8};
ghost use Rattle.scalar_text.specs.Number.{decimal_text};
ghost use Rattle.base_types.specs.JsonText.{quoted};
ghost use Rattle.field_types.specs.Writing.{item_text, value_text, is_utf8_item, is_utf8_value};

use crate::{FieldName, Item, Value};
use base_types::{OutOfMemory, Text, push_flag, push_quoted};
use itoa::Buffer;
use scalar_text::print_decimal;

fn push_whole(out: &mut Vec<u8>, n: i64) -> Result<(), OutOfMemory>
    ensures { OnOk result (out.new.items ≡ out.old.items ++ signed_decimal n) }
{
    out.extend_from_slice(Buffer::new().format(n).as_bytes())?;
    Ok(())
}

fn push_decimal(out: &mut Vec<u8>, n: i64) -> Result<(), OutOfMemory>
    ensures { OnOk result (out.new.items ≡ out.old.items ++ decimal_text n) }
{
    let text = print_decimal(*out.allocator(), n)?;
    out.extend_from_slice(text.bytes())?;
    Ok(())
}

/// Puts a text as a JSON string (RFC 8259, section 7) behind `out`. Without memory, a part of it may stand there.
pub fn push_text(out: &mut Vec<u8>, text: &Text) -> Result<(), OutOfMemory>
    ensures text { OnOk result (out.new.items ≡ out.old.items ++ quoted text.now) }
    ensures utf8 { is_utf8 text.now ≡ true }
{
    push_quoted(out, text.as_str().as_bytes())
}

/// Puts the name of a field as a JSON string behind `out`. Without memory, a part of it may stand there.
pub fn push_name(out: &mut Vec<u8>, name: &FieldName) -> Result<(), OutOfMemory>
    ensures text { OnOk result (out.new.items ≡ out.old.items ++ quoted name.now) }
    ensures utf8 { is_utf8 name.now ≡ true }
{
    push_quoted(out, name.as_str().as_bytes())
}

fn push_item(out: &mut Vec<u8>, item: &Item) -> Result<(), OutOfMemory>
    ensures text { OnOk result (out.new.items ≡ out.old.items ++ item_text item.now) }
    ensures utf8 { is_utf8_item item.now ≡ true }
{
    match item {
        Item::Text(text) => push_text(out, text),
        Item::Whole(n) => push_whole(out, *n),
        Item::Flag(flag) => push_flag(out, *flag),
        Item::Decimal(n) => push_decimal(out, *n),
    }
}

// The items, each behind a comma.
fn push_more_items(out: &mut Vec<u8>, items: &[Item]) -> Result<(), OutOfMemory>
    ensures text { OnOk result (out.new.items ≡ out.old.items ++ flat_map (λ item. 44 ∷ item_text item) items.now) }
    ensures utf8 { OnOk result (list_all is_utf8_item items.now ≡ true) }
{
    'items: for item in items {
        out.push(b',')?;
        push_item(out, item)?;
    }
    Ok(())
}

fn push_items(out: &mut Vec<u8>, items: &[Item]) -> Result<(), OutOfMemory>
    ensures text { OnOk result (out.new.items ≡ out.old.items ++ join_with_byte 44 (map item_text items.now)) }
    ensures utf8 { OnOk result (list_all is_utf8_item items.now ≡ true) }
{
    let [first, more @ ..] = items else {
        return Ok(());
    };
    push_item(out, first)?;
    push_more_items(out, more)
}

fn push_list(out: &mut Vec<u8>, items: &[Item]) -> Result<(), OutOfMemory>
    ensures text { OnOk result (out.new.items ≡ out.old.items ++ 91 ∷ join_with_byte 44 (map item_text items.now) ++ 93 ∷ []) }
    ensures utf8 { OnOk result (list_all is_utf8_item items.now ≡ true) }
{
    out.push(b'[')?;
    push_items(out, items)?;
    out.push(b']')?;
    Ok(())
}

/// Puts the canonical JSON text of a value behind `out`. Without memory, a part of it may stand there.
#[tactic(auto, unfolding(crate::specs::Writing::value_text))]
pub fn push_value(out: &mut Vec<u8>, value: &Value) -> Result<(), OutOfMemory>
    ensures text { OnOk result (out.new.items ≡ out.old.items ++ value_text value.now) }
    ensures utf8 { OnOk result (is_utf8_value value.now ≡ true) }
{
    match value {
        Value::Text(text) => push_text(out, text),
        Value::Whole(n) => push_whole(out, *n),
        Value::Flag(flag) => push_flag(out, *flag),
        Value::Decimal(n) => push_decimal(out, *n),
        Value::List(items) => push_list(out, items.as_slice()),
    }
}
