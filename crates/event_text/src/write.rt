//! The canonical text of a message.
ghost use Rattle.std.specs.Prelude.{◌≡◌, true, ◌++◌, IfOk, OnOk};
ghost use Rattle.std.specs.List.{list_all};
ghost use Rattle.event_text.specs.Text.{pair_text, message_text};
ghost use Rattle.event_text.specs.Decode.{opening, pairs_text};
ghost use Rattle.event_text.specs.Strict.{is_utf8_pair, IsTyped};

use base_types::{Blob, OutOfMemory};
use event_model::{Kind, Message};
use field_types::{FieldName, Value, push_name, push_value};
use std::alloc::Global;

fn push_pair(out: &mut Vec<u8>, pair: &(FieldName, Value)) -> Result<(), OutOfMemory>
    ensures text { OnOk result (out.new.items ≡ out.old.items ++ pair_text pair.now) }
    ensures utf8 { OnOk result (is_utf8_pair pair.now ≡ true) }
{
    push_name(out, &pair.0)?;
    out.push(b':')?;
    push_value(out, &pair.1)
}

// The pairs, each behind a comma.
fn push_pairs(out: &mut Vec<u8>, pairs: &[(FieldName, Value)]) -> Result<(), OutOfMemory>
    ensures text { OnOk result (out.new.items ≡ out.old.items ++ pairs_text pairs.now) }
    ensures utf8 { OnOk result (list_all is_utf8_pair pairs.now ≡ true) }
{
    'pairs: for pair in pairs {
        out.push(b',')?;
        push_pair(out, pair)?;
    }
    Ok(())
}

/// Where the text of a message of this kind begins: no name of a field is below that of the kind.
#[tactic(auto, unfolding(crate::specs::Decode::opening))]
pub fn opening(kind: Kind) -> &'static [u8]
    ensures { result.now ≡ opening kind }
{
    match kind {
        Kind::Report => b"{\"__type\":\"Report\"",
        Kind::Event => b"{\"__type\":\"Event\"",
    }
}

/// Puts the canonical text of a message behind `out`. Without memory, a part of it may stand there.
pub fn push_message(out: &mut Vec<u8>, message: &Message) -> Result<(), OutOfMemory>
    ensures text { OnOk result (out.new.items ≡ out.old.items ++ message_text message.now) }
    ensures typed { OnOk result (IsTyped message.now) }
{
    out.extend_from_slice(opening(message.kind))?;
    push_pairs(out, message.fields.pairs())?;
    out.push(b'}')?;
    Ok(())
}

// Most texts have fewer bytes, and grow no more than once.
const USUAL_LENGTH: usize = 1024;

/// The canonical text of a message: one line of JSON without its newline.
pub fn write_message(alloc: Global, message: &Message) -> Result<Blob, OutOfMemory>
    ensures text { IfOk result (λ text. text ≡ message_text message.now) }
    ensures typed { OnOk result (IsTyped message.now) }
{
    let mut out = Vec::with_capacity(alloc, USUAL_LENGTH)?;
    push_message(&mut out, message)?;
    Ok(Blob::from(out))
}
