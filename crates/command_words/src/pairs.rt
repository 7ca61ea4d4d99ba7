//! Pairs of a name and a value.
ghost use Rattle.std.specs.Prelude.{◌≡◌, ◌&&◌, is_none};
ghost use Rattle.std.specs.Option.{option_copied};
ghost use Rattle.command_words.specs.Asked.{is_one_of};
ghost use Rattle.command_words.specs.Words.{are_pairs, value_of};

use base_types::Text;

/// The value behind the first such name.
pub fn value_of<'w>(pairs: &'w [Text], name: &str) -> Option<&'w Text>
    ensures { option_copied result ≡ value_of name.now pairs.now }
{
    let mut rest = pairs;
    'pairs: while let [other, value, more @ ..] = rest {
        if other.as_str() == name {
            return Some(value);
        }
        rest = more;
    }
    None
}

fn is_one_of(name: &Text, names: &[&str]) -> bool
    ensures { result ≡ is_one_of names.now name.now }
{
    names.iter().any(|other| name.as_str() == *other)
}

// Whether the name is one of these, and doesn't stand among the words that follow.
fn is_new(name: &Text, names: &[&str], more: &[Text]) -> bool
    ensures { result ≡ (is_one_of names.now name.now && is_none (value_of name.now more.now)) }
{
    is_one_of(name, names) && value_of(more, name.as_str()).is_none()
}

/// Whether the words are pairs, each name is one of these, and none stands twice.
pub fn are_pairs(words: &[Text], names: &[&str]) -> bool
    ensures { result ≡ are_pairs (is_one_of names.now) words.now }
{
    let mut rest = words;
    'pairs: while let [name, _, more @ ..] = rest {
        if !is_new(name, names, more) {
            return false;
        }
        rest = more;
    }
    rest.is_empty()
}
