//! Cases: a book, a worker, and what it does.
ghost use Rattle.std.specs.Prelude.{◌≤◌, IfOk, IfSome};
ghost use Rattle.table_holds.specs.Playing.{IsPlaying};

use crate::playing::{MoveFault, Play};
use crate::texts::turned_text;
use base_types::{Blob, BotName, Text};
use edge_memory::MemDisk;
use journal_book::{Book, Move};
use locked_book::Locked;
use std::alloc::{AllocError, Global};
use table_lines::unescaped;
use tests_rules::TinyRules;
use worker_turns::Turned;

/// The answer to a case: the bundle with which a store begins, how many bytes its steps may have in a generation and how many steps may be
/// made, each as a word of its own; and behind a colon what is done, with a semicolon between two of them. `as BOT N FILE` says who the
/// worker is; `start`, `round BOT` and `reload BUNDLE` are steps that are made outright, and `stop` marks the round; `hold` and `work` are
/// those of an instance; `gather` is a hold of a collector, and `read TEXT` reads its feed. Each is answered in words.
pub fn answer(alloc: Global, case: &str) -> Result<String, AllocError> {
    let Some((head, actions)) = case.split_once(": ") else {
        return "no case".to_string(alloc);
    };
    match opened(alloc, head)? {
        Some(play) => played(alloc, play, actions),
        None => "no book".to_string(alloc),
    }
}

// What all is done, one behind the other.
fn played(alloc: Global, play: Play, actions: &str) -> Result<String, AllocError>
    requires { IsPlaying play }
{
    let mut play = play;
    let mut text = String::new(alloc);
    'actions: for action in actions.split("; ") {
        let word = done(alloc, &mut play, action)?;
        if !text.is_empty() {
            text.push_str("; ")?;
        }
        text.push_str(word.as_str())?;
    }
    Ok(text)
}

fn number(word: &str) -> Option<u64> {
    word.parse().ok()
}

// The book of a case.
fn opened(alloc: Global, head: &str) -> Result<Option<Play>, AllocError>
    ensures { IfOk result (λ play. IfSome play IsPlaying) }
{
    let Some((bundle, rest)) = head.split_once(' ') else {
        return Ok(None);
    };
    let Some((limit, left)) = rest.split_once(' ') else {
        return Ok(None);
    };
    let Some(limit) = number(limit) else {
        return Ok(None);
    };
    let Ok(bundle) = Blob::new(alloc, bundle.as_bytes()) else {
        return Err(AllocError);
    };
    begun(alloc, &bundle, limit.min(1_000_000), number(left))
}

fn begun(
    alloc: Global,
    bundle: &Blob,
    limit: u64,
    left: Option<u64>,
) -> Result<Option<Play>, AllocError>
    requires { limit ≤ 1000000 }
    ensures { IfOk result (λ play. IfSome play IsPlaying) }
{
    let Ok(book) = Book::create(alloc, MemDisk::new(alloc), TinyRules, bundle, limit) else {
        return Ok(None);
    };
    let (Ok(bot), Ok(file)) = (BotName::new(b"none"), Text::new(alloc, b"none")) else {
        return Err(AllocError);
    };
    Ok(Some(Play::new(alloc, Locked::open(book), bot, file, left)))
}

// What is done, and what it comes to.
fn done(alloc: Global, play: &mut Play, action: &str) -> Result<String, AllocError>
    requires { IsPlaying play.old }
    ensures { IsPlaying play.new }
{
    let (verb, rest) = action.split_once(' ').unwrap_or((action, ""));
    match verb {
        "as" => followed(alloc, play, rest),
        "start" => made(alloc, play.make(Move::Start)),
        "round" => match BotName::new(rest.as_bytes()) {
            Ok(bot) => made(alloc, play.make(Move::Round { bot })),
            Err(_) => "no bot".to_string(alloc),
        },
        "reload" => match Blob::new(alloc, rest.as_bytes()) {
            Ok(bundle) => made(alloc, play.make(Move::Reload { bundle })),
            Err(_) => Err(AllocError),
        },
        "stop" => {
            play.stop();
            "stopped".to_string(alloc)
        }
        "hold" => held(alloc, play),
        "work" => worked(alloc, play),
        "gather" => play.gather(alloc),
        "read" => read(alloc, play, rest),
        _ => "no word".to_string(alloc),
    }
}

// Another worker.
fn followed(alloc: Global, play: &mut Play, words: &str) -> Result<String, AllocError>
    requires { IsPlaying play.old }
    ensures { IsPlaying play.new }
{
    let Some((bot, rest)) = words.split_once(' ') else {
        return "no worker".to_string(alloc);
    };
    let Some((instance, file)) = rest.split_once(' ') else {
        return "no worker".to_string(alloc);
    };
    let (Ok(bot), Ok(instance), Ok(file)) = (
        BotName::new(bot.as_bytes()),
        instance.parse(),
        Text::new(alloc, file.as_bytes()),
    ) else {
        return "no worker".to_string(alloc);
    };
    play.follow(alloc, bot, instance, file);
    "so".to_string(alloc)
}

fn made(alloc: Global, made: Result<u64, MoveFault>) -> Result<String, AllocError> {
    match made {
        Ok(number) => format!(in alloc; "step {number}"),
        Err(MoveFault::Marked) => "marked".to_string(alloc),
        Err(MoveFault::Half) => "half".to_string(alloc),
        Err(MoveFault::Disk) => "disk".to_string(alloc),
        Err(MoveFault::Refused(_)) => "refused".to_string(alloc),
    }
}

fn held(alloc: Global, play: &mut Play) -> Result<String, AllocError>
    requires { IsPlaying play.old }
    ensures { IsPlaying play.new }
{
    let turned = play.hold(alloc);
    let text = turned_text(alloc, &turned);
    if let Turned::Holds(job) = turned {
        play.keep(job);
    }
    text
}

fn worked(alloc: Global, play: &mut Play) -> Result<String, AllocError>
    requires { IsPlaying play.old }
    ensures { IsPlaying play.new }
{
    match play.work(alloc) {
        Ok(true) => "worked".to_string(alloc),
        Ok(false) => "nothing to work on".to_string(alloc),
        Err(_) => Err(AllocError),
    }
}

fn read(alloc: Global, play: &mut Play, text: &str) -> Result<String, AllocError>
    requires { IsPlaying play.old }
    ensures { IsPlaying play.new }
{
    let bytes = unescaped(alloc, text)?;
    play.read(alloc, bytes)
}
