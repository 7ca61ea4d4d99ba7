//! What holds come to, in words.
use collector_feeds::Found;
use locked_book::EndMark;
use std::alloc::{AllocError, Global};
use table_lines::push_escaped;
use worker_turns::{FeedFault, HoldEnd, Job, Looked, Turned};

fn mark(mark: EndMark) -> &'static str {
    match mark {
        EndMark::Stop => "found stop",
        EndMark::Half => "found half",
        EndMark::Broken => "found broken",
    }
}

/// Why a worker's part ends.
pub fn end_text(end: HoldEnd) -> &'static str {
    match end {
        HoldEnd::Found(found) => mark(found),
        HoldEnd::Half => "half",
        HoldEnd::Left => "left",
        HoldEnd::Disk => "disk",
        HoldEnd::Refused(_) => "refused",
        HoldEnd::OutOfMemory => "out of memory",
    }
}

fn nothing(alloc: Global, at: u64, idle: bool) -> Result<String, AllocError> {
    let word = if idle { "idle" } else { "nothing" };
    format!(in alloc; "{word} {at}")
}

/// A message in a hand, and the bundle under which it is.
pub fn job_text(alloc: Global, job: &Job) -> Result<String, AllocError> {
    let mut text = format!(in alloc; "holds {} of bundle {} ", job.message.no, job.bundle)?;
    push_escaped(&mut text, job.message.body.bytes())?;
    Ok(text)
}

/// What a hold of an instance came to.
pub fn turned_text(alloc: Global, turned: &Turned) -> Result<String, AllocError> {
    match turned {
        Turned::Holds(job) => job_text(alloc, job),
        Turned::Retried { delay } => format!(in alloc; "retried {delay}"),
        Turned::Nothing { at, idle } => nothing(alloc, *at, *idle),
        Turned::Ended(end) => end_text(*end).to_string(alloc),
    }
}

fn fault_text(alloc: Global, fault: FeedFault) -> Result<String, AllocError> {
    match fault {
        FeedFault::Short { have, need } => format!(in alloc; "short {have} {need}"),
        FeedFault::LongLine { at } => format!(in alloc; "long line {at}"),
        FeedFault::LongFeed => "long feed".to_string(alloc),
    }
}

/// What a hold of a collector came to.
pub fn looked_text(alloc: Global, looked: &Looked) -> Result<String, AllocError> {
    match looked {
        Looked::Looks(place) => format!(in alloc;
            "looks {} under bundle {}",
            place.at, place.bundle
        ),
        Looked::Waits { at, sight: _ } => format!(in alloc; "waits {at}"),
        Looked::Nothing { at, idle } => nothing(alloc, *at, *idle),
        Looked::Unreadable(fault) => fault_text(alloc, *fault),
        Looked::Ended(end) => end_text(*end).to_string(alloc),
    }
}

/// What was found in a feed.
pub fn found_text(alloc: Global, found: &Found) -> Result<String, AllocError> {
    match found {
        Found::Piece { cut } => format!(in alloc; "found a piece up to {}", cut.upto),
        Found::End => "found the end".to_string(alloc),
        Found::Absent => "found nothing".to_string(alloc),
        Found::Short { have } => format!(in alloc; "found {have} bytes"),
        Found::LongLine { at } => format!(in alloc; "found a long line at {at}"),
        Found::LongFeed => "found too much".to_string(alloc),
    }
}
