ghost use Rattle.std.specs.Prelude.{◌≡◌, codes, true, None, is_some, option_map};
ghost use Rattle.std.specs.Option.{option_copied};
ghost use Rattle.base_types.specs.Number.{last_u64};
ghost use Rattle.command_words.specs.Asked.{ask_of, asked_of, run_asked};
ghost use Rattle.command_words.specs.Values.{name_in, number_within};
ghost use Rattle.command_words.specs.Words.{alone, ask_in, command_of, command_with, drain, drill, file_named, optional, redo, run, run_of, value_of, is_given};

use crate::command::{Ask, Command, Run};
use crate::pairs::{are_pairs, value_of};
use crate::value::{name_in, number_in, number_within};
use base_types::Text;

const MOST_LINES: u64 = 1_000_000;

// The file of a command whose one pair has this name.
fn file_of<'w>(pairs: &'w [Text], name: &str) -> Option<&'w Text>
    ensures { option_copied result ≡ file_named name.now pairs.now }
{
    if !are_pairs(pairs, &[name]) {
        return None;
    }
    name_in(value_of(pairs, name)?)
}

fn redo(pairs: &[Text]) -> Option<Command<'_>>
    ensures { option_map asked_of result ≡ redo pairs.now }
{
    if !are_pairs(pairs, &["--dump"]) {
        return None;
    }
    let dump = number_in(value_of(pairs, "--dump")?)?;
    Some(Command::Redo { dump })
}

fn drill(pairs: &[Text]) -> Option<Command<'_>>
    ensures { option_map asked_of result ≡ drill pairs.now }
{
    if !are_pairs(pairs, &["--lines", "--number"]) {
        return None;
    }
    let lines = number_within(value_of(pairs, "--lines")?, 1, MOST_LINES)? as u32;
    let number = number_in(value_of(pairs, "--number")?)?;
    Some(Command::Drill { lines, number })
}

fn steps_of(pairs: &[Text]) -> Option<Option<u64>>
    ensures { result ≡ optional (number_within 1 last_u64) (value_of (codes "--steps") pairs.now) }
{
    match value_of(pairs, "--steps") {
        Some(text) => Some(Some(number_within(text, 1, u64::MAX)?)),
        None => Some(None),
    }
}

fn reload_of(pairs: &[Text]) -> Option<Option<&Text>>
    ensures { option_map option_copied result ≡ optional name_in (value_of (codes "--reload") pairs.now) }
{
    match value_of(pairs, "--reload") {
        Some(text) => Some(Some(name_in(text)?)),
        None => Some(None),
    }
}

// Whether the pair of this name has this word.
fn is_given(pairs: &[Text], name: &str, word: &str) -> Option<bool>
    ensures { result ≡ is_given word.now (value_of name.now pairs.now) }
{
    match value_of(pairs, name) {
        Some(text) if text.as_str() == word => Some(true),
        Some(_) => None,
        None => Some(false),
    }
}

// What pairs ask of bots that are to run, whose names are right.
fn ask_in(pairs: &[Text]) -> Option<Ask<'_>>
    ensures { option_map ask_of result ≡ ask_in pairs.now }
{
    Some(Ask {
        steps: steps_of(pairs)?,
        reload: reload_of(pairs)?,
        round: is_given(pairs, "--round", "new")?,
    })
}

fn drain(pairs: &[Text]) -> Option<Command<'_>>
    ensures { option_map asked_of result ≡ drain pairs.now }
{
    if !are_pairs(pairs, &["--steps", "--reload", "--round"]) {
        return None;
    }
    Some(Command::Drain(ask_in(pairs)?))
}

fn run(pairs: &[Text]) -> Option<Run<'_>>
    ensures { option_map run_asked result ≡ run pairs.now }
{
    if !are_pairs(pairs, &["--steps", "--reload", "--round", "--stay"]) {
        return None;
    }
    Some(Run {
        ask: ask_in(pairs)?,
        stay: is_given(pairs, "--stay", "yes")?,
    })
}

fn alone<'w>(pairs: &[Text], command: Command<'w>) -> Option<Command<'w>>
    ensures { option_map asked_of result ≡ alone (asked_of command.entry) pairs.now }
{
    if pairs.is_empty() {
        Some(command)
    } else {
        None
    }
}

// The command of this word with these pairs.
fn command_with<'w>(word: &str, pairs: &'w [Text]) -> Option<Command<'w>>
    ensures { option_map asked_of result ≡ command_with word.now pairs.now }
{
    match word {
        "convert" => Some(Command::Convert {
            feed: file_of(pairs, "--feed")?,
        }),
        "check" => Some(Command::Check {
            bundle: file_of(pairs, "--bundle")?,
        }),
        "init" => Some(Command::Init {
            bundle: file_of(pairs, "--bundle")?,
        }),
        "drain" => drain(pairs),
        "status" => alone(pairs, Command::Status),
        "dumps" => alone(pairs, Command::Dumps),
        "audit" => alone(pairs, Command::Audit),
        "redo" => redo(pairs),
        "drill" => drill(pairs),
        _ => None,
    }
}

/// The command that the words are, or nothing where they are none. No file is looked at.
pub fn command_of(words: &[Text]) -> Option<Command<'_>>
    ensures { option_map asked_of result ≡ command_of words.now }
{
    match words {
        [] => None,
        [word, pairs @ ..] => command_with(word.as_str(), pairs),
    }
}

/// What bots are asked for that run on threads, or nothing where the words are others than `run` and its pairs. They are no command.
/// No file is looked at.
pub fn run_of(words: &[Text]) -> Option<Run<'_>>
    ensures asked { option_map run_asked result ≡ run_of words.now }
    ensures apart { is_some (run_of words.now) ≡ true → command_of words.now ≡ None }
{
    match words {
        [] => None,
        [word, pairs @ ..] => {
            if word.as_str() == "run" {
                run(pairs)
            } else {
                None
            }
        }
    }
}
