//! The files of the run, opened after each byte of a header, a gate or a length was changed, and cut within each of these.

use crate::runs::{Ran, forty_steps, no_steps};
use crate::same::{holds_in, same_in};
use crate::stores::{Files, check_store, disk_with, files_of};
use edge_memory::MemDisk;
use std::alloc::Global;
use std::process::Abort;
use std::test::Fail;
use tests_book_fixtures::{Found, GENERATION, ROOT, changed, first_bytes, frames, front, row_text};

// How often opening found damage, fewer steps, and all of them.
#[derive(Clone, Copy)]
struct Tally {
    damaged: u32,
    fewer: u32,
    all: u32,
}

const NONE: Tally = Tally {
    damaged: 0,
    fewer: 0,
    all: 0,
};

impl Tally {
    fn count(&mut self, found: Found, all: u64) {
        match found {
            Found::Damaged { .. } => self.damaged = self.damaged.saturating_add(1),
            Found::Steps(steps) if steps < all => self.fewer = self.fewer.saturating_add(1),
            Found::Steps(_) => self.all = self.all.saturating_add(1),
        }
    }
}

// What a byte is changed to.
const BYTES: [(&str, u8); 5] = [("0", 0), ("1", 1), ("2", 2), ("30", 30), ("255", 255)];

// Which file of a store has another byte.
#[derive(Clone, Copy)]
enum Changed {
    Root,
    Generation,
}

// The store with this byte in this place of the file.
fn changed_store(
    alloc: Global,
    files: &Files,
    file: Changed,
    place: usize,
    byte: u8,
) -> Result<MemDisk, Fail> {
    match file {
        Changed::Root => disk_with(
            alloc,
            &changed(alloc, &files.root, place, byte)?,
            &files.generation,
        ),
        Changed::Generation => disk_with(
            alloc,
            &files.root,
            &changed(alloc, &files.generation, place, byte)?,
        ),
    }
}

// Each of these bytes in these places of the file, which has so many steps where nothing is changed.
fn check_places(
    rt: &(impl Abort + Alloc<A = Global>),
    ran: &Ran,
    files: &Files,
    (file, all): (Changed, u64),
    places: &[usize],
) -> Result<Tally, Fail> {
    let alloc = rt.alloc();
    let mut tally = NONE;
    for place in places {
        for (name, byte) in &BYTES {
            let row = row_text(alloc, "the changed byte", *place as u64, *name)?;
            let disk = changed_store(alloc, files, file, *place, *byte)?;
            tally.count(check_store(rt, &row, ran, disk)?, all);
        }
    }
    Ok(tally)
}

#[test]
fn each_byte_of_a_frame_is_changed(rt: HostRuntime) -> Result<(), Fail> {
    let ran = forty_steps(rt.alloc())?;
    check_frames(&rt, &ran, &files_of(rt.alloc(), &ran.disk)?)
}

fn check_frames(
    rt: &(impl Abort + Alloc<A = Global>),
    ran: &Ran,
    files: &Files,
) -> Result<(), Fail> {
    let places = frames(rt.alloc(), &files.generation)?;
    let tally = check_places(rt, ran, files, (Changed::Generation, 40), &places)?;

    // Each of ten gates is closed by four of the bytes.
    assert!(rt; tally.fewer >= 40);
    assert!(rt; tally.damaged > 0);
    assert!(rt; tally.all > 0);
    Ok(())
}

#[test]
fn each_byte_of_the_frames_of_the_root_is_changed(rt: HostRuntime) -> Result<(), Fail> {
    let ran = no_steps(rt.alloc())?;
    check_root_frames(&rt, &ran, &files_of(rt.alloc(), &ran.disk)?)
}

fn check_root_frames(
    rt: &(impl Abort + Alloc<A = Global>),
    ran: &Ran,
    files: &Files,
) -> Result<(), Fail> {
    let places = frames(rt.alloc(), &files.root)?;
    let tally = check_places(rt, ran, files, (Changed::Root, 0), &places)?;
    assert!(rt; tally.damaged > 0);
    assert!(rt; tally.all > 0);
    Ok(())
}

#[test]
fn a_generation_is_cut_within_each_frame(rt: HostRuntime) -> Result<(), Fail> {
    let ran = forty_steps(rt.alloc())?;
    check_cuts(&rt, &ran, &files_of(rt.alloc(), &ran.disk)?)
}

fn check_cuts(rt: &(impl Abort + Alloc<A = Global>), ran: &Ran, files: &Files) -> Result<(), Fail> {
    let alloc = rt.alloc();
    'places: for place in &frames(alloc, &files.generation)? {
        let row = row_text(alloc, "the generation cut to", *place as u64, "bytes")?;
        let disk = disk_with(alloc, &files.root, front(&files.generation, *place))?;
        let found = check_store(rt, &row, ran, disk)?;
        holds_in(rt, row.as_str(), matches!(found, Found::Damaged { .. }));
    }
    Ok(())
}

// A root without bytes is none.
#[test]
fn a_root_is_cut(rt: HostRuntime) -> Result<(), Fail> {
    let ran = no_steps(rt.alloc())?;
    check_root_cuts(&rt, &ran, &files_of(rt.alloc(), &ran.disk)?)
}

fn check_root_cuts(
    rt: &(impl Abort + Alloc<A = Global>),
    ran: &Ran,
    files: &Files,
) -> Result<(), Fail> {
    let alloc = rt.alloc();
    'lengths: for len in 1..files.root.len() {
        let row = row_text(alloc, "the root cut to", len as u64, "bytes")?;
        let disk = disk_with(alloc, front(&files.root, len), &files.generation)?;
        let found = check_store(rt, &row, ran, disk)?;
        let at = if len < 16 { 0 } else { 16 };
        same_in(rt, row.as_str(), found, Found::Damaged { file: ROOT, at });
    }
    Ok(())
}

#[test]
fn no_kind_of_step_is_0(rt: HostRuntime) -> Result<(), Fail> {
    let ran = forty_steps(rt.alloc())?;
    check_kinds(&rt, &ran, &files_of(rt.alloc(), &ran.disk)?)
}

fn check_kinds(
    rt: &(impl Abort + Alloc<A = Global>),
    ran: &Ran,
    files: &Files,
) -> Result<(), Fail> {
    let alloc = rt.alloc();
    'places: for place in &first_bytes(alloc, &files.generation, &ran.stored)? {
        let at = *place as u64;
        let row = row_text(alloc, "no kind in byte", at, "0")?;
        let disk = changed_store(alloc, files, Changed::Generation, *place, 0)?;
        let found = check_store(rt, &row, ran, disk)?;
        let file = GENERATION;
        same_in(rt, row.as_str(), found, Found::Damaged { file, at });
    }
    Ok(())
}
