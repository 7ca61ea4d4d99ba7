//! The lines of a script. Texts have the escapes `\n`, `\r`, `\t`, `\\` and `\xHH`; numbers of calls are counted from 1.
//!
//! - `new`: an empty shelf and an empty disk, and nothing is to fail.
//! - `file NAME TEXT`: a file on the shelf. `repeat NAME TIMES TEXT` puts the text so many times behind what it has, `feed NAME LINES
//!   NUMBER` puts a drill's feed in its place, and `forget NAME` takes it off the shelf.
//! - `clock SECONDS`: the moment that the clock shows.
//! - `fail shelf|disk|sink CALLS`, `fail read NAME CALLS`: the calls, by number, that are to fail in the next command: fetches, calls of the
//!   disk, writes, or reads of the file.
//! - `stop disk N`: the disk stops after so many calls of the next command.
//! - `crash kept|short closed|long closed|short open|long open|long large`: what a crash leaves of the disk.
//! - `keep`, `back`: the disk is kept, and is as it was kept.
//! - `put FILE AT HEX`, `fill FILE TIMES HEX`, `cut FILE LENGTH`: damage to a file of the disk.
//! - `disk`, `out FILE`: the files of the disk, and the lines of one.
//! - `> WORDS`: a command, with the number and the text of its status, what it prints, and by how much the counts of faults of files rose.
//! - `each-call WORDS; AGAIN`, `each-stop WORDS; AGAIN`: the command with a disk that stops, fails or crashes at each call (see `trials`).
use crate::command::command;
use crate::crashes::{copy_of, crash};
use crate::files::{
    cut, disk_text, file_text, fill_file, forget, place_of, put_bytes, put_feed, put_text, repeat,
};
use crate::outside::{Outside, push_number};
use crate::trials::{DiskTrouble, each_call};
use base_types::{NumberList, OutOfMemory};
use std::alloc::{AllocError, Global};

/// What came of a line, in lines.
pub fn answer(alloc: Global, outside: &mut Outside, line: &str) -> Result<String, AllocError> {
    match came_of(alloc, outside, line) {
        Ok(text) => Ok(text),
        Err(OutOfMemory) => Err(AllocError),
    }
}

fn came_of(alloc: Global, outside: &mut Outside, line: &str) -> Result<String, OutOfMemory> {
    let (call, rest) = line.split_once(' ').unwrap_or((line, ""));
    match call {
        ">" => command(alloc, outside, rest),
        "each-call" => each_call(
            alloc,
            outside,
            rest,
            &[DiskTrouble::Stops, DiskTrouble::Fails],
        ),
        "each-stop" => each_call(alloc, outside, rest, &[DiskTrouble::Stops]),
        "disk" => disk_text(alloc, &outside.disk),
        "out" => out(alloc, outside, rest),
        _ => said(alloc, set(alloc, outside, call, rest)?),
    }
}

const UNREAD: &str = "no such line";

fn said(alloc: Global, word: &str) -> Result<String, OutOfMemory> {
    Ok(String::from_str(alloc, word)?)
}

// The lines that only set something. They answer nothing where they are in order.
fn set(
    alloc: Global,
    outside: &mut Outside,
    call: &str,
    rest: &str,
) -> Result<&'static str, OutOfMemory> {
    match call {
        "new" => *outside = Outside::new(alloc),
        "keep" => outside.kept = copy_of(alloc, &outside.disk)?,
        "back" => outside.disk = copy_of(alloc, &outside.kept)?,
        "file" => put_text(alloc, outside, rest)?,
        "forget" => forget(outside, rest),
        "repeat" => return repeated(alloc, outside, rest),
        "feed" => return feed(alloc, outside, rest),
        "clock" => return Ok(clock(outside, rest)),
        "fail" => return fail(alloc, outside, rest),
        "stop" => return Ok(stop(outside, rest)),
        "crash" => return crash(alloc, outside, rest),
        "put" => return put(alloc, outside, rest),
        "fill" => return fill(alloc, outside, rest),
        "cut" => return Ok(cut_file(outside, rest)),
        _ => return Ok(UNREAD),
    }
    Ok("")
}

fn number(word: Option<&str>) -> Option<u64> {
    word?.parse::<u64>().ok()
}

// The numbers that blanks part.
fn numbers(alloc: Global, text: &str) -> Result<NumberList, OutOfMemory> {
    let mut list = NumberList::new(alloc);
    for word in text.split(' ') {
        if let Some(n) = number(Some(word)) {
            push_number(&mut list, n)?;
        }
    }
    Ok(list)
}

fn out(alloc: Global, outside: &Outside, rest: &str) -> Result<String, OutOfMemory> {
    match number(Some(rest)) {
        Some(file) => file_text(alloc, &outside.disk, file),
        None => said(alloc, UNREAD),
    }
}

// FILE AT HEX
fn put(alloc: Global, outside: &mut Outside, rest: &str) -> Result<&'static str, OutOfMemory> {
    let mut words = rest.splitn(3, ' ');
    match (number(words.next()), number(words.next()), words.next()) {
        (Some(file), Some(at), Some(hex)) => put_bytes(alloc, &mut outside.disk, file, at, hex),
        _ => Ok(UNREAD),
    }
}

// FILE TIMES HEX
fn fill(alloc: Global, outside: &mut Outside, rest: &str) -> Result<&'static str, OutOfMemory> {
    let mut words = rest.splitn(3, ' ');
    match (number(words.next()), number(words.next()), words.next()) {
        (Some(file), Some(times), Some(hex)) => {
            fill_file(alloc, &mut outside.disk, file, times, hex)
        }
        _ => Ok(UNREAD),
    }
}

// FILE LENGTH
fn cut_file(outside: &mut Outside, rest: &str) -> &'static str {
    let mut words = rest.split(' ');
    match (number(words.next()), number(words.next())) {
        (Some(file), Some(len)) => cut(&mut outside.disk, file, len),
        _ => UNREAD,
    }
}

// NAME TIMES TEXT
fn repeated(alloc: Global, outside: &mut Outside, rest: &str) -> Result<&'static str, OutOfMemory> {
    let mut words = rest.splitn(3, ' ');
    match (words.next(), number(words.next()), words.next()) {
        (Some(name), Some(times), Some(text)) => {
            repeat(alloc, outside, name, times, text)?;
            Ok("")
        }
        _ => Ok(UNREAD),
    }
}

// NAME LINES NUMBER
fn feed(alloc: Global, outside: &mut Outside, rest: &str) -> Result<&'static str, OutOfMemory> {
    let mut words = rest.split(' ');
    match (words.next(), number(words.next()), number(words.next())) {
        (Some(name), Some(lines), Some(seed)) => {
            put_feed(alloc, outside, name, lines.min(1_000_000) as u32, seed)?;
            Ok("")
        }
        _ => Ok(UNREAD),
    }
}

fn clock(outside: &mut Outside, rest: &str) -> &'static str {
    match number(Some(rest)) {
        Some(now) => {
            outside.now = now;
            ""
        }
        None => UNREAD,
    }
}

// shelf|disk|sink NUMBERS, or read NAME NUMBERS.
fn fail(alloc: Global, outside: &mut Outside, rest: &str) -> Result<&'static str, OutOfMemory> {
    let (what, rest) = rest.split_once(' ').unwrap_or((rest, ""));
    let list = numbers(alloc, rest)?;
    match what {
        "shelf" => outside.trouble.fetches = list,
        "disk" => outside.trouble.calls = list,
        "sink" => outside.trouble.writes = list,
        "read" => return Ok(fail_reads(outside, rest, list)),
        _ => return Ok(UNREAD),
    }
    Ok("")
}

fn fail_reads(outside: &mut Outside, rest: &str, list: NumberList) -> &'static str {
    let (name, _) = rest.split_once(' ').unwrap_or((rest, ""));
    match place_of(&outside.held, name) {
        Some(place) => {
            outside.held[place].reads = list;
            ""
        }
        None => UNREAD,
    }
}

// disk CALLS
fn stop(outside: &mut Outside, rest: &str) -> &'static str {
    match rest.split_once(' ') {
        Some(("disk", calls)) => {
            outside.trouble.stop = number(Some(calls));
            ""
        }
        _ => UNREAD,
    }
}
