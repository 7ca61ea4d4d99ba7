//! Files with damage.

use crate::recount::{Body, Stored, records_of};
use std::alloc::Global;
use std::test::Fail;

// The offsets in front of this one, at most nine, from a gate on.
fn push_frame(places: &mut Vec<usize>, end: usize) -> Result<(), Fail> {
    'bytes: for place in end.saturating_sub(9)..end {
        places.push(place)?;
    }
    Ok(())
}

/// The offsets of the bytes of a file's header, of each gate and of each length.
pub fn frames(alloc: Global, file: &[u8]) -> Result<Vec<usize>, Fail> {
    let mut places = Vec::new(alloc);
    'header: for place in 0..16 {
        places.push(place)?;
    }
    'bodies: for body in &records_of(alloc, file)?.bodies {
        push_frame(&mut places, body.at)?;
    }
    places.push(file.len().saturating_sub(1))?;
    Ok(places)
}

/// The offsets of the first bytes of all steps in the file of a generation.
pub fn first_bytes(alloc: Global, file: &[u8], stored: &Stored) -> Result<Vec<usize>, Fail> {
    let mut places = Vec::new(alloc);
    let records = records_of(alloc, file)?;
    let mut bodies = records.bodies.iter().skip(1);
    let mut body = Body { at: 0, end: 0 };
    'steps: for step in stored.steps.as_slice() {
        if body.at == body.end {
            body = *bodies.next().ok_or("no further record")?;
        }
        places.push(body.at)?;
        body.at = body.at.saturating_add(step.bytes().len());
    }
    Ok(places)
}

/// A copy of a file with another byte in this place.
pub fn changed(alloc: Global, file: &[u8], place: usize, byte: u8) -> Result<Vec<u8>, Fail> {
    let mut file = file.to_vec(alloc)?;
    match file.get_mut(place) {
        Some(old) => *old = byte,
        None => return Err(Fail::from("a place behind the file")),
    }
    Ok(file)
}

/// The first so many bytes of a file, or all.
pub fn front(file: &[u8], len: usize) -> &[u8] {
    file.get(..len).unwrap_or(file)
}
