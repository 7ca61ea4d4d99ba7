//! `each-call WORDS; AGAIN`: a command is tried on the store as it is, where the disk stops after each number of calls, and where one
//! call fails. After that the disk crashes just before the call that failed or just after it, in three ways, or doesn't crash. What
//! is left has to be a store whose steps are a front of those that the undisturbed command makes, with all that were there before or
//! were answered for, and no line of an output before its step. Then the command is made again, or AGAIN where steps had been made
//! already: the outputs and the dumps have to be the undisturbed ones, in spite of any crash. AGAIN is `drain` where none is named.
//! `each-stop` is the same without the calls that fail alone.
ghost use Rattle.std.specs.Prelude.{◌<◌, length, IfSome};

use crate::command::call;
use crate::crashes::{TRIED, copy_of, crashed};
use crate::files::files_of;
use crate::outside::{Outside, empty_disk, push_number};
use crate::playing::words_of;
use crate::store::{OUT, Store, printed, store_of};
use base_types::{OutOfMemory, Text, TextList};
use std::alloc::Global;
use std::mem;

// What is tried, and what it comes to where nothing goes wrong.
#[derive(Drop)]
struct Trial {
    words: TextList,
    again: TextList,
    before: Store,
    after: Store,
    status: String,
    /// How many calls of the disk it makes.
    calls: u64,
    dumps: Vec<u8>,
}

// What was found of a disk that a crash left, by its files.
#[derive(Drop)]
struct Found {
    is_done: bool,
    files: Vec<u8>,
    steps: String,
    fault: &'static str,
}

// A row: the status first. The command ended as the undisturbed one, or not; and the first thing that is wrong, if anything.
#[derive(Drop)]
struct Row {
    text: String,
    is_done: bool,
    fault: &'static str,
}

/// The trouble of the disk: it stops after so many calls, or the next call alone fails.
#[derive(Clone, Copy)]
pub enum DiskTrouble {
    Stops,
    Fails,
}

/// The rows of a trial. The disk is as it was after it.
pub fn each_call(
    alloc: Global,
    outside: &mut Outside,
    line: &str,
    troubles: &[DiskTrouble],
) -> Result<String, OutOfMemory> {
    outside.start = copy_of(alloc, &outside.disk)?;
    let trial = trial_of(alloc, outside, line)?;
    let mut text = String::new(alloc);
    put_undisturbed(&mut text, &trial)?;
    for trouble in troubles {
        put_rows(alloc, outside, &trial, *trouble, &mut text)?;
    }
    outside.disk = mem::replace(&mut outside.start, empty_disk(alloc));
    Ok(text)
}

fn trial_of(alloc: Global, outside: &mut Outside, line: &str) -> Result<Trial, OutOfMemory> {
    let (first, again) = line.split_once("; ").unwrap_or((line, "drain"));
    let words = words_of(alloc, first)?;
    let again = words_of(alloc, again)?;
    let before = store_of(alloc, outside)?;
    outside.disk = copy_of(alloc, &outside.start)?;
    let status = status_of(alloc, outside, words.as_slice())?;
    let calls = outside.disk.calls();
    let after = store_of(alloc, outside)?;
    let dumps = printed(alloc, outside, "dumps")?;
    Ok(Trial {
        words,
        again,
        before,
        after,
        status,
        calls,
        dumps,
    })
}

fn status_of(alloc: Global, outside: &mut Outside, words: &[Text]) -> Result<String, OutOfMemory> {
    let played = call(alloc, outside, words)?;
    Ok(String::from_str(alloc, played.status.as_str())?)
}

fn put_undisturbed(text: &mut String, trial: &Trial) -> Result<(), OutOfMemory> {
    write!(
        text,
        "undisturbed {}, {} calls, steps {} to {}\n",
        trial.status.as_str(),
        trial.calls,
        trial.before.steps.as_str(),
        trial.after.steps.as_str()
    )?;
    Ok(())
}

// The rows of a trouble after each number of calls, those that are the same as one.
fn put_rows(
    alloc: Global,
    outside: &mut Outside,
    trial: &Trial,
    trouble: DiskTrouble,
    text: &mut String,
) -> Result<(), OutOfMemory> {
    let mut found = Vec::new(alloc);
    let mut first = 0;
    let mut last = 0;
    let mut shown = row_of(alloc, outside, trial, trouble, 0, &mut found)?;
    for calls in 1..=trial.calls {
        let next = row_of(alloc, outside, trial, trouble, calls, &mut found)?;
        if next != shown {
            put_row(text, trouble, first, last, shown.as_str())?;
            first = calls;
            shown = next;
        }
        last = calls;
    }
    put_row(text, trouble, first, last, shown.as_str())
}

fn put_row(
    text: &mut String,
    trouble: DiskTrouble,
    first: u64,
    last: u64,
    row: &str,
) -> Result<(), OutOfMemory> {
    let word = match trouble {
        DiskTrouble::Stops => "stops",
        DiskTrouble::Fails => "fails once",
    };
    if first == last {
        write!(text, "{word} after {first}: {row}\n")?;
    } else {
        write!(text, "{word} after {first} to {last}: {row}\n")?;
    }
    Ok(())
}

// What comes of the command where the disk has this trouble after so many calls.
fn row_of(
    alloc: Global,
    outside: &mut Outside,
    trial: &Trial,
    trouble: DiskTrouble,
    calls: u64,
    found: &mut Vec<Found>,
) -> Result<String, OutOfMemory> {
    outside.disk = copy_of(alloc, &outside.start)?;
    set_trouble(outside, trouble, calls)?;
    let status = status_of(alloc, outside, trial.words.as_slice())?;
    outside.left = mem::replace(&mut outside.disk, empty_disk(alloc));
    let mut row = Row {
        is_done: status == trial.status,
        text: status,
        fault: "",
    };
    row.text.push_str("; steps")?;
    put_crashes(alloc, outside, trial, calls, &mut row, found)?;
    let behind = outside.left.calls();
    put_crashes(alloc, outside, trial, behind, &mut row, found)?;
    put_mended(alloc, outside, trial, &mut row)?;
    put_further(&mut row, behind.saturating_sub(calls))?;
    put_verdict(&mut row)?;
    Ok(row.text)
}

// The crashes of the disk that the command left, after so many of its calls. What comes of one is found once for the same files.
fn put_crashes(
    alloc: Global,
    outside: &mut Outside,
    trial: &Trial,
    after: u64,
    row: &mut Row,
    found: &mut Vec<Found>,
) -> Result<(), OutOfMemory> {
    for choice in &TRIED {
        outside.disk = crashed(alloc, &outside.left, after, choice)?;
        let files = files_of(alloc, &outside.disk)?;
        match place_of(found.as_slice(), row.is_done, &files) {
            Some(place) => put_found(row, &found[place])?,
            None => {
                let finding = find(alloc, outside, trial, row.is_done, files)?;
                put_found(row, &finding)?;
                found.push(finding)?;
            }
        }
    }
    row.text.push(',')?;
    Ok(())
}

fn place_of(found: &[Found], is_done: bool, files: &[u8]) -> Option<usize>
    ensures { IfSome result (λ place. place < length found.now) }
{
    found.iter().position(|one| one.is_done == is_done && one.files.as_slice() == files)
}

// The same of the disk itself, which fails no more.
fn put_mended(
    alloc: Global,
    outside: &mut Outside,
    trial: &Trial,
    row: &mut Row,
) -> Result<(), OutOfMemory> {
    outside.disk = mem::replace(&mut outside.left, empty_disk(alloc));
    let finding = find(alloc, outside, trial, row.is_done, Vec::new(alloc))?;
    put_found(row, &finding)
}

fn put_found(row: &mut Row, found: &Found) -> Result<(), OutOfMemory> {
    write!(row.text, " {}", found.steps.as_str())?;
    if row.fault.is_empty() {
        row.fault = found.fault;
    }
    Ok(())
}

// Calls of the disk that were made after the one that failed: there are none, and nothing is put.
fn put_further(row: &mut Row, calls: u64) -> Result<(), OutOfMemory> {
    if calls > 1 {
        write!(row.text, ", {} further calls", calls - 1)?;
    }
    Ok(())
}

fn put_verdict(row: &mut Row) -> Result<(), OutOfMemory> {
    let word = if row.fault.is_empty() {
        "the same"
    } else {
        row.fault
    };
    write!(row.text, "; {word}")?;
    Ok(())
}

fn set_trouble(outside: &mut Outside, trouble: DiskTrouble, calls: u64) -> Result<(), OutOfMemory> {
    match trouble {
        DiskTrouble::Stops => {
            outside.trouble.stop = Some(calls);
            Ok(())
        }
        DiskTrouble::Fails => push_number(&mut outside.trouble.calls, calls.saturating_add(1)),
    }
}

// What is found of the disk: the number of its steps, and what is wrong with it, if anything.
fn find(
    alloc: Global,
    outside: &mut Outside,
    trial: &Trial,
    is_done: bool,
    files: Vec<u8>,
) -> Result<Found, OutOfMemory> {
    let store = store_of(alloc, outside)?;
    let fault = match fault_of(trial, &store, is_done) {
        "" => again_fault(alloc, outside, trial, &store)?,
        fault => fault,
    };
    Ok(Found {
        is_done,
        files,
        steps: store.steps,
        fault,
    })
}

// The command again, or what is made where steps had been made already.
fn again_fault(
    alloc: Global,
    outside: &mut Outside,
    trial: &Trial,
    store: &Store,
) -> Result<&'static str, OutOfMemory> {
    let words = if store.steps == trial.before.steps {
        trial.words.as_slice()
    } else {
        trial.again.as_slice()
    };
    let status = status_of(alloc, outside, words)?;
    if status != trial.status {
        return Ok("not ended again");
    }
    end_fault(alloc, outside, trial)
}

// What is wrong with a store that was left.
fn fault_of(trial: &Trial, store: &Store, is_done: bool) -> &'static str {
    let is_whole = store.steps == trial.after.steps;
    if store.steps.as_str() == "none" {
        return if trial.before.steps == store.steps && !is_done {
            ""
        } else {
            "no store"
        };
    }
    if !store.journal.starts_with(&trial.before.journal) {
        return "steps lost";
    }
    if !trial.after.journal.starts_with(&store.journal) {
        return "other steps";
    }
    if store.output != trial.before.output && !is_whole {
        return "lines ahead of their steps";
    }
    if is_done && !(is_whole && store.output == trial.after.output) {
        return "answered and lost";
    }
    ""
}

// What is wrong with the outputs and dumps in the end.
fn end_fault(
    alloc: Global,
    outside: &mut Outside,
    trial: &Trial,
) -> Result<&'static str, OutOfMemory> {
    for choice in &TRIED {
        let left = crashed(alloc, &outside.disk, u64::MAX, choice)?;
        if left.file(alloc, OUT)? != trial.after.output {
            return Ok("another output");
        }
    }
    if printed(alloc, outside, "dumps")? != trial.dumps {
        return Ok("other dumps");
    }
    Ok("")
}
