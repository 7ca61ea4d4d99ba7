//! Files on the shelf and on the disk.
ghost use Rattle.std.specs.Prelude.{◌<◌, length, IfSome};

use crate::command::push_printed;
use crate::outside::{Held, Outside};
use crate::playing::text_of;
use base_types::{Blob, NumberList, OutOfMemory, Text};
use edge_memory::{MemDisk, MemSink};
use edge_traits::Disk;
use feed_maker::make_feed;
use std::alloc::Global;
use table_lines::{bytes_of, push_escaped, unescaped};

/// Files of the disk have numbers below this one.
const FILES: u64 = 64;

/// A file with more bytes is shown by its length alone.
const MOST: usize = 200;

/// The place of a file on the shelf.
pub fn place_of(held: &[Held], name: &str) -> Option<usize>
    ensures { IfSome result (λ place. place < length held.now) }
{
    held.iter().position(|file| file.name.as_str() == name)
}

/// Puts bytes behind those of a file on the shelf, which is made where it isn't there.
pub fn append(
    alloc: Global,
    outside: &mut Outside,
    name: &str,
    bytes: &[u8],
) -> Result<(), OutOfMemory> {
    match place_of(&outside.held, name) {
        Some(place) => outside.held[place].content.append(bytes),
        None => {
            let name = text_of(alloc, name)?;
            hold(alloc, outside, name, Blob::new(alloc, bytes)?)
        }
    }
}

fn hold(
    alloc: Global,
    outside: &mut Outside,
    name: Text,
    content: Blob,
) -> Result<(), OutOfMemory> {
    let reads = NumberList::new(alloc);
    outside.held.push(Held {
        name,
        content,
        reads,
    })?;
    Ok(())
}

/// Takes a file off the shelf, if it is there.
pub fn forget(outside: &mut Outside, name: &str) {
    if let Some(place) = place_of(&outside.held, name) {
        outside.held.remove(place);
    }
}

/// A file with this text on the shelf, in the place of one that is there.
pub fn put_text(alloc: Global, outside: &mut Outside, rest: &str) -> Result<(), OutOfMemory> {
    let (name, text) = rest.split_once(' ').unwrap_or((rest, ""));
    forget(outside, name);
    append(alloc, outside, name, &unescaped(alloc, text)?)
}

/// The text, so many times, behind what a file on the shelf has.
pub fn repeat(
    alloc: Global,
    outside: &mut Outside,
    name: &str,
    times: u64,
    text: &str,
) -> Result<(), OutOfMemory> {
    let piece = unescaped(alloc, text)?;
    append(alloc, outside, name, &repeated(alloc, times, &piece)?)
}

fn repeated(alloc: Global, times: u64, piece: &[u8]) -> Result<Vec<u8>, OutOfMemory> {
    let mut bytes = Vec::new(alloc);
    for _ in 0..times {
        bytes.extend_from_slice(piece)?;
    }
    Ok(bytes)
}

/// The feed of so many lines that the number gives, as a file on the shelf.
pub fn put_feed(
    alloc: Global,
    outside: &mut Outside,
    name: &str,
    lines: u32,
    number: u64,
) -> Result<(), OutOfMemory> {
    let mut feed = MemSink::new(alloc, NumberList::new(alloc));
    if make_feed(alloc, lines, number, &mut feed).is_err() {
        return Err(OutOfMemory);
    }
    forget(outside, name);
    append(alloc, outside, name, feed.bytes())
}

/// Each file of the disk: its number, its length, and its bytes where they are few.
pub fn disk_text(alloc: Global, disk: &MemDisk) -> Result<String, OutOfMemory> {
    let mut text = String::new(alloc);
    for file in 0..FILES {
        let bytes = disk.file(alloc, file)?;
        if !bytes.is_empty() {
            push_file(&mut text, file, &bytes)?;
        }
    }
    Ok(text)
}

/// The lengths and the bytes of all files of the disk.
pub fn files_of(alloc: Global, disk: &MemDisk) -> Result<Vec<u8>, OutOfMemory> {
    let mut all = Vec::new(alloc);
    for file in 0..FILES {
        let bytes = disk.file(alloc, file)?;
        all.extend_from_slice(&bytes.len().to_be_bytes())?;
        all.extend_from_slice(&bytes)?;
    }
    Ok(all)
}

fn push_file(text: &mut String, file: u64, bytes: &[u8]) -> Result<(), OutOfMemory> {
    write!(text, "file {file}, {} bytes", bytes.len())?;
    if bytes.len() <= MOST {
        text.push_str(": ")?;
        push_escaped(text, bytes)?;
    }
    text.push('\n')?;
    Ok(())
}

/// The lines of a file of the disk.
pub fn file_text(alloc: Global, disk: &MemDisk, file: u64) -> Result<String, OutOfMemory> {
    let mut text = String::new(alloc);
    push_printed(&mut text, &disk.file(alloc, file)?)?;
    Ok(text)
}

/// Writes bytes in hex at an offset of a file of the disk.
pub fn put_bytes(
    alloc: Global,
    disk: &mut MemDisk,
    file: u64,
    at: u64,
    hex: &str,
) -> Result<&'static str, OutOfMemory> {
    match bytes_of(alloc, hex)? {
        Some(bytes) => Ok(written(disk, file, at, &bytes)),
        None => Ok("no bytes"),
    }
}

fn written<D: Disk>(disk: &mut D, file: u64, at: u64, bytes: &[u8]) -> &'static str {
    match disk.len(file) {
        Ok(len) if at <= len && len < 1 << 32 && bytes.len() < 1 << 32 => {
            match disk.write_at(file, at, bytes) {
                Ok(()) => "",
                Err(_) => "the disk failed",
            }
        }
        _ => "no such place",
    }
}

/// Writes bytes in hex, so many times, from the beginning of a file of the disk on.
pub fn fill_file(
    alloc: Global,
    disk: &mut MemDisk,
    file: u64,
    times: u64,
    hex: &str,
) -> Result<&'static str, OutOfMemory> {
    let Some(piece) = bytes_of(alloc, hex)? else {
        return Ok("no bytes");
    };
    let bytes = repeated(alloc, times, &piece)?;
    Ok(written(disk, file, 0, &bytes))
}

/// Cuts a file of the disk.
pub fn cut<D: Disk>(disk: &mut D, file: u64, to: u64) -> &'static str {
    match disk.len(file) {
        Ok(len) if to <= len => match disk.cut(file, to) {
            Ok(()) => "",
            Err(_) => "the disk failed",
        },
        _ => "no such place",
    }
}
