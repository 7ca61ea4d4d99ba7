//! Statuses, their numbers and their printed texts.
use crate::faults::fault;
use base_types::{BotName, OutOfMemory, Text};
use status_texts::{FeedWhy, Status, status_text};
use std::alloc::Global;

/// The number and the text of a status, which is given by the name of its variant and by what it holds. A number that isn't there is 0.
pub fn status(alloc: Global, text: &str) -> Result<String, OutOfMemory> {
    match made(alloc, text)? {
        Some(status) => shown(alloc, &status),
        None => Ok(String::from_str(alloc, "no status")?),
    }
}

fn shown(alloc: Global, status: &Status) -> Result<String, OutOfMemory> {
    let number = status.number();
    let text = status_text(alloc, status)?;
    let text = text.as_str();
    Ok(format!(in alloc; "{number}, {text}")?)
}

fn made(alloc: Global, text: &str) -> Result<Option<Status>, OutOfMemory> {
    let (word, rest) = text.split_once(' ').unwrap_or((text, ""));
    match word {
        "Config" => Ok(fault(alloc, rest)?.map(Status::Config)),
        "Feed" => feed(alloc, rest),
        "Halted" | "LongLine" | "LongFeed" => Ok(of_bot(word, rest)),
        _ => Ok(of_numbers(word, rest)),
    }
}

fn of_numbers(word: &str, rest: &str) -> Option<Status> {
    let (first, second) = rest.split_once(' ').unwrap_or((rest, ""));
    let first = first.parse().unwrap_or(0);
    let second = second.parse().unwrap_or(0);
    match word {
        "Done" => Some(Status::Done),
        "Memory" => Some(Status::Memory),
        "Words" => Some(Status::Words),
        "Disk" => Some(Status::Disk),
        "Sink" => Some(Status::Sink),
        "Damaged" => Some(Status::Damaged {
            file: first,
            at: second,
        }),
        "Stopped" => Some(Status::Stopped { steps: first }),
        "Full" => Some(Status::Full { bytes: first }),
        "Short" => Some(Status::Short {
            have: first,
            need: second,
        }),
        "Store" => Some(Status::Store { have: first }),
        "NoDump" => Some(Status::NoDump { no: first }),
        "Illegal" => Some(Status::Illegal { step: first }),
        "BadLine" => Some(Status::BadLine { line: first }),
        "Spent" => Some(Status::Spent { next: first }),
        _ => None,
    }
}

fn of_bot(word: &str, rest: &str) -> Option<Status> {
    let (name, at) = rest.split_once(' ').unwrap_or((rest, ""));
    let bot = BotName::new(name.as_bytes()).ok()?;
    match word {
        "Halted" => Some(Status::Halted { bot }),
        "LongLine" => Some(Status::LongLine {
            bot,
            at: at.parse().unwrap_or(0),
        }),
        _ => Some(Status::LongFeed { bot }),
    }
}

fn feed(alloc: Global, rest: &str) -> Result<Option<Status>, OutOfMemory> {
    let (word, name) = rest.split_once(' ').unwrap_or((rest, ""));
    let name = Text::from(String::from_str(alloc, name)?);
    let why = match word {
        "Absent" => FeedWhy::Absent,
        _ => FeedWhy::Failed,
    };
    Ok(Some(Status::Feed { name, why }))
}
