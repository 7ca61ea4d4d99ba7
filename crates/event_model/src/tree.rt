ghost use Rattle.std.specs.Prelude.{◌≡◌, option_and_then};
ghost use Rattle.std.specs.Option.{option_copied};
ghost use Rattle.serde_json.specs.Find.{as_str, get_member};
ghost use Rattle.serde_json.specs.View.{number_view, members_view};
ghost use Rattle.event_model.specs.Trees.{dec_key, lexeme_in, whole_of};

use serde_json::{Map, Number, Value as Tree};

const DEC_KEY: &str = "$dec";

// A whole number of more than 18 digits is none that a field takes.
const TOO_LONG: u64 = 1_000_000_000_000_000_000;

// The text under `$dec`.
fn dec_text(members: &Map<String, Tree>) -> Option<&str>
    ensures { option_copied result ≡ option_and_then as_str (get_member dec_key (members_view members.now.entries)) }
{
    match members.get(DEC_KEY) {
        Some(value) => value.as_str(),
        None => None,
    }
}

/// The number that an object stands for: its one key is `$dec`, with a text.
pub fn lexeme_in(members: &Map<String, Tree>) -> Option<&str>
    ensures { option_copied result ≡ lexeme_in (members_view members.now.entries) }
{
    if members.len() == 1 {
        dec_text(members)
    } else {
        None
    }
}

/// A whole number of at most 18 digits.
pub fn whole_of(number: &Number) -> Option<i64>
    ensures { result ≡ whole_of (number_view number.now) }
{
    match number.as_i64() {
        Some(n) if n.unsigned_abs() < TOO_LONG => Some(n),
        _ => None,
    }
}
