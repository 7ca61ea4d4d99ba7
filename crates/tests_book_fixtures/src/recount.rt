//! A plain recount of what opening a store finds in its files, by the rules of these: first the gates of the root and the number
//! that it has, then the gates of the generation, its state, and its steps.

use base_types::{Blob, BlobList, OutOfMemory};
use std::alloc::Global;

/// The file of the root, that of the first output, and that of the first generation.
pub const ROOT: u64 = 0;

pub const OUT: u64 = 16;

pub const GENERATION: u64 = 17;

const HEADER: &[u8] = b"IMQJ\0\0\0\x01\0\0\0\0\0\0\0\0";

// The number of the first generation, as it stands in the root.
const NUMBER: &[u8] = b"\0\0\0\0\0\0\0\0";

// A gate and a length.
const FRAME: usize = 9;

/// What opening finds.
#[derive(Clone, Copy, Debug, PartialEq, Eq)]
pub enum Found {
    Damaged { file: u64, at: u64 },
    /// So many steps are durable.
    Steps(u64),
}

/// What was stored: the code of a state that has no steps, and those of the steps behind it.
#[derive(Drop)]
pub struct Stored {
    pub base: Vec<u8>,
    pub steps: BlobList,
}

/// A body: its offset in the file, and that behind it.
#[derive(Clone, Copy)]
pub struct Body {
    pub at: usize,
    pub end: usize,
}

/// The bodies of a file up to the first gate that isn't open, and where the file is damaged, if it is.
#[derive(Drop)]
pub struct Records {
    pub bodies: Vec<Body>,
    pub damaged: Option<usize>,
}

// The body behind an open gate at this offset, where another gate stands behind it.
fn body_at(file: &[u8], gate: usize) -> Option<Body> {
    let [_, a, b, c, d, e, f, g, h, ..] = file.get(gate..)? else {
        return None;
    };
    let len = u64::from_be_bytes([*a, *b, *c, *d, *e, *f, *g, *h]) as usize;
    let at = gate.checked_add(FRAME)?;
    let end = at.checked_add(len)?;
    if end < file.len() {
        Some(Body { at, end })
    } else {
        None
    }
}

/// The records of a file.
pub fn records_of(alloc: Global, file: &[u8]) -> Result<Records, OutOfMemory> {
    let mut records = Records {
        bodies: Vec::new(alloc),
        damaged: None,
    };
    if !file.starts_with(HEADER) {
        records.damaged = Some(0);
    } else if file.len() == HEADER.len() {
        records.damaged = Some(HEADER.len());
    } else {
        read_bodies(file, &mut records)?;
    }
    Ok(records)
}

fn read_bodies(file: &[u8], records: &mut Records) -> Result<(), OutOfMemory> {
    let mut gate = HEADER.len();
    'records: for _ in 0..file.len() {
        if file.get(gate) != Some(&1) {
            return Ok(());
        }
        let Some(body) = body_at(file, gate) else {
            records.damaged = Some(gate);
            return Ok(());
        };
        records.bodies.push(body)?;
        gate = body.end;
    }
    Ok(())
}

pub(crate) fn bytes_of(file: &[u8], body: Body) -> &[u8] {
    file.get(body.at..body.end).unwrap_or(&[])
}

// Where the root is damaged, if it is: it names the first generation alone.
fn root_damage(alloc: Global, file: &[u8]) -> Result<Option<usize>, OutOfMemory> {
    let records = records_of(alloc, file)?;
    if records.damaged.is_some() {
        return Ok(records.damaged);
    }
    'bodies: for body in &records.bodies {
        if bytes_of(file, *body) != NUMBER {
            return Ok(Some(body.at.saturating_sub(FRAME)));
        }
    }
    if records.bodies.is_empty() {
        Ok(Some(HEADER.len()))
    } else {
        Ok(None)
    }
}

// The steps of these with which the bytes don't begin, and how many bytes are left behind those with which they do.
fn behind<'a>(bytes: &[u8], steps: &'a [Blob]) -> (usize, &'a [Blob]) {
    match steps {
        [] => (bytes.len(), steps),
        [step, others @ ..] => match bytes.strip_prefix(step.bytes()) {
            Some(rest) => behind(rest, others),
            None => (bytes.len(), steps),
        },
    }
}

// The steps that the bodies hold, each some of those that are left.
fn steps_in(file: &[u8], bodies: &[Body], stored: &Stored) -> Found {
    let mut left = stored.steps.as_slice();
    'bodies: for body in bodies {
        let (rest, others) = behind(bytes_of(file, *body), left);
        if rest > 0 || body.at == body.end {
            return Found::Damaged {
                file: GENERATION,
                at: body.end.saturating_sub(rest) as u64,
            };
        }
        left = others;
    }
    Found::Steps(stored.steps.len().saturating_sub(left.len()) as u64)
}

fn found_in_generation(alloc: Global, file: &[u8], stored: &Stored) -> Result<Found, OutOfMemory> {
    let records = records_of(alloc, file)?;
    let at = match (records.damaged, records.bodies.as_slice()) {
        (Some(at), _) => at,
        (None, []) => HEADER.len(),
        (None, [base, bodies @ ..]) => {
            if bytes_of(file, *base) == stored.base.as_slice() {
                return Ok(steps_in(file, bodies, stored));
            }
            base.at
        }
    };
    Ok(Found::Damaged {
        file: GENERATION,
        at: at as u64,
    })
}

/// What opening finds in these two files.
pub fn found_in(
    alloc: Global,
    root: &[u8],
    generation: &[u8],
    stored: &Stored,
) -> Result<Found, OutOfMemory> {
    match root_damage(alloc, root)? {
        Some(at) => Ok(Found::Damaged {
            file: ROOT,
            at: at as u64,
        }),
        None => found_in_generation(alloc, generation, stored),
    }
}
