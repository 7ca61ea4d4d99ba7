//! Plays the lines of a case over a disk in memory, with a book of a limit, and compares what limits make of it.
//!
//! `bundle NAME` makes the store. `feed ..` puts a feed on the shelf (`feeds.rt`). `ACT -> ANSWER` opens the store, does what it says
//! (`stores.rt`), and answers that. `each N -> ANSWER` is `drain N` over and over, each over the store opened anew, until one ends
//! otherwise than for its bound. `limit N -> ..` comes last: all is the same with this limit; and which generation is in force at the
//! end, and behind which steps an act ended where the next step begins a generation.

use crate::feeds::put_feed;
use crate::recount::{Place, is_due, place_behind};
use crate::same::{same, same_in};
use crate::stores::{Seen, act_on, new_store};
use base_types::{Blob, NumberList};
use edge_memory::{MemDisk, MemShelf};
use std::alloc::Global;
use std::process::Abort;
use std::test::Fail;
use tests_book_fixtures::{GENERATION, OUT, Stored, changed, front_codes, stored_in};
use tests_rules::TinyRules;
use tests_tables::unreadable;

// The greatest limit of a store here: no case has steps for half of it.
const LARGE: u16 = 65_535;

// The feeds, and what was seen of a store.
#[derive(Drop)]
struct Stage {
    limit: u16,
    shelf: MemShelf,
    // The lines that were played, each with its answer.
    told: String,
    // The state behind the last act.
    state: String,
    // How far the book was behind each act.
    places: Vec<Place>,
    // The sealed state behind each act.
    sealed: String,
}

fn new_stage(alloc: Global, limit: u16) -> Stage {
    Stage {
        limit,
        shelf: MemShelf::new(alloc, NumberList::new(alloc)),
        told: String::new(alloc),
        state: String::new(alloc),
        places: Vec::new(alloc),
        sealed: String::new(alloc),
    }
}

fn made(alloc: Global, stage: &mut Stage, bundle: &str) -> Result<MemDisk, Fail> {
    let bundle = Blob::new(alloc, bundle.as_bytes())?;
    let (state, disk) = new_store(alloc, MemDisk::new(alloc), TinyRules, &bundle, stage.limit)?;
    stage.state = state;
    Ok(disk)
}

// The store opened with the state that the last act left. Answers how this one ended.
fn noted(rt: &impl Abort, stage: &mut Stage, act: &str, seen: Seen) -> Result<String, Fail> {
    let Seen {
        before,
        answer,
        after,
        sealed,
        place,
    } = seen;
    same_in(rt, act, before.as_str(), stage.state.as_str());
    stage.places.push(place)?;
    writeln!(stage.sealed, "{sealed}")?;
    stage.state = after;
    Ok(answer)
}

fn act_once(
    rt: &(impl Abort + Alloc<A = Global>),
    stage: &mut Stage,
    disk: MemDisk,
    act: &str,
) -> Result<(String, MemDisk), Fail> {
    let (seen, disk) = act_on(
        rt.alloc(),
        disk,
        TinyRules,
        stage.limit,
        &mut stage.shelf,
        act,
    );
    let answer = noted(rt, stage, act, seen?)?;
    Ok((answer, disk))
}

// Drains of so many steps, until one ends otherwise.
fn act_each(
    rt: &(impl Abort + Alloc<A = Global>),
    stage: &mut Stage,
    disk: MemDisk,
    many: &str,
) -> Result<(String, MemDisk), Fail> {
    let drain = format!(in rt.alloc(); "drain {many}")?;
    let mut disk = disk;
    'drains: for _ in 0..10_000 {
        let (answer, left) = act_once(rt, stage, disk, drain.as_str())?;
        if !answer.starts_with("left") {
            return Ok((answer, left));
        }
        disk = left;
    }
    Err(Fail::from("drains without an end"))
}

fn play_act(
    rt: &(impl Abort + Alloc<A = Global>),
    stage: &mut Stage,
    disk: MemDisk,
    act: &str,
) -> Result<MemDisk, Fail> {
    let (answer, disk) = match act.strip_prefix("each ") {
        Some(many) => act_each(rt, stage, disk, many)?,
        None => act_once(rt, stage, disk, act)?,
    };
    writeln!(stage.told, "{act} -> {answer}")?;
    Ok(disk)
}

// A line that sets a case up.
fn set_up(alloc: Global, stage: &mut Stage, disk: MemDisk, text: &str) -> Result<MemDisk, Fail> {
    writeln!(stage.told, "{text}")?;
    let (word, rest) = text.split_once(' ').unwrap_or((text, ""));
    match word {
        "bundle" => made(alloc, stage, rest),
        "feed" => {
            put_feed(alloc, &mut stage.shelf, rest)?;
            Ok(disk)
        }
        "#" => Ok(disk),
        _ => Err(unreadable()),
    }
}

fn play_line(
    rt: &(impl Abort + Alloc<A = Global>),
    stage: &mut Stage,
    disk: MemDisk,
    text: &str,
) -> Result<MemDisk, Fail> {
    if text.starts_with("limit ") {
        return Ok(disk);
    }
    match text.split_once(" -> ") {
        Some((act, _)) => play_act(rt, stage, disk, act),
        None => set_up(rt.alloc(), stage, disk, text),
    }
}

fn play(
    rt: &(impl Abort + Alloc<A = Global>),
    case: &str,
    limit: u16,
) -> Result<(Stage, MemDisk), Fail> {
    let alloc = rt.alloc();
    let mut stage = new_stage(alloc, limit);
    let mut disk = MemDisk::new(alloc);
    'lines: for text in case.lines() {
        disk = play_line(rt, &mut stage, disk, text)?;
    }
    Ok((stage, disk))
}

// What a book of a large limit, whose steps are all in the first generation, makes of a case.
#[derive(Drop)]
struct Whole {
    stage: Stage,
    disk: MemDisk,
    stored: Stored,
}

fn whole_of(rt: &(impl Abort + Alloc<A = Global>), case: &str) -> Result<Whole, Fail> {
    let (stage, disk) = play(rt, case, LARGE)?;
    let stored = stored_in(rt.alloc(), &disk.file(rt.alloc(), GENERATION)?)?;
    Ok(Whole {
        stage,
        disk,
        stored,
    })
}

// Behind each act the book is where the recount of its steps is.
fn check_places(rt: &impl Abort, stage: &Stage, stored: &Stored) {
    'places: for place in &stage.places {
        let want = place_behind(&stored.steps, stage.limit, place.steps);
        same_in(rt, stage.limit, *place, want);
    }
}

// The generation in force at the end, and the steps behind which an act ended where the next one begins a generation.
fn found_text(alloc: Global, stage: &Stage) -> Result<String, Fail> {
    let last = last_generation(stage);
    let mut text = String::new(alloc);
    write!(text, "generation {last}, due behind")?;
    'places: for place in &stage.places {
        if is_due(place, stage.limit) {
            let steps = place.steps;
            write!(text, " {steps}")?;
        }
    }
    Ok(text)
}

// The last byte of a generation's number in the heading of its file. The recount of a file's records knows the number 0 alone.
const NUMBER_AT: usize = 15;

// The codes of the steps in the file of a generation, one behind the other.
fn codes_in(alloc: Global, disk: &MemDisk, generation: u64) -> Result<Vec<u8>, Fail> {
    let file = GENERATION.saturating_add(generation.saturating_mul(2));
    let file = changed(alloc, &disk.file(alloc, file)?, NUMBER_AT, 0)?;
    let held = stored_in(alloc, &file)?;
    front_codes(alloc, &held.steps, held.steps.len() as u64)
}

// The files of the generations up to this one hold all steps, one behind the other.
fn check_steps(
    rt: &(impl Abort + Alloc<A = Global>),
    disk: &MemDisk,
    last: u64,
    stored: &Stored,
) -> Result<(), Fail> {
    let alloc = rt.alloc();
    let mut codes = Vec::new(alloc);
    'generations: for generation in 0..=last {
        codes.extend_from_slice(&codes_in(alloc, disk, generation)?)?;
    }
    let want = front_codes(alloc, &stored.steps, stored.steps.len() as u64)?;
    same(rt, codes.as_slice(), want.as_slice());
    Ok(())
}

// The files of the first outputs.
const OUTS: [u64; 4] = [OUT, OUT + 2, OUT + 4, OUT + 6];

fn check_outputs(
    rt: &(impl Abort + Alloc<A = Global>),
    disk: &MemDisk,
    whole: &MemDisk,
) -> Result<(), Fail> {
    let alloc = rt.alloc();
    'outputs: for file in &OUTS {
        let want = whole.file(alloc, *file)?;
        same_in(
            rt,
            *file,
            disk.file(alloc, *file)?.as_slice(),
            want.as_slice(),
        );
    }
    Ok(())
}

fn last_generation(stage: &Stage) -> u64 {
    match stage.places.last() {
        Some(place) => place.generation,
        None => 0,
    }
}

// A case with a limit is as it is with a large one. Answers what is found of its generations.
fn check_limit(
    rt: &(impl Abort + Alloc<A = Global>),
    case: &str,
    whole: &Whole,
    limit: u16,
) -> Result<String, Fail> {
    let (stage, disk) = play(rt, case, limit)?;
    same_in(rt, limit, stage.told.as_str(), whole.stage.told.as_str());
    same_in(
        rt,
        limit,
        stage.sealed.as_str(),
        whole.stage.sealed.as_str(),
    );
    check_places(rt, &stage, &whole.stored);
    check_steps(rt, &disk, last_generation(&stage), &whole.stored)?;
    check_outputs(rt, &disk, &whole.disk)?;
    found_text(rt.alloc(), &stage)
}

fn limit_of(word: &str) -> Result<u16, Fail> {
    match word.parse() {
        Ok(limit) => Ok(limit),
        Err(_) => Err(unreadable()),
    }
}

fn check_limits(
    rt: &(impl Abort + Alloc<A = Global>),
    case: &str,
    whole: &Whole,
) -> Result<String, Fail> {
    let mut told = String::from_str(rt.alloc(), whole.stage.told.as_str())?;
    'lines: for text in case.lines() {
        if let Some(row) = text.strip_prefix("limit ") {
            let (limit, _) = row.split_once(" -> ").unwrap_or((row, ""));
            let found = check_limit(rt, case, whole, limit_of(limit)?)?;
            writeln!(told, "limit {limit} -> {found}")?;
        }
    }
    Ok(told)
}

/// Plays a case with a large limit, and then with each of its own. Its lines are the answers that are wanted.
pub fn check(rt: &(impl Abort + Alloc<A = Global>), case: &str) -> Result<(), Fail> {
    let whole = whole_of(rt, case)?;
    check_places(rt, &whole.stage, &whole.stored);
    let told = check_limits(rt, case, &whole)?;
    same(rt, told.as_str(), case);
    Ok(())
}
