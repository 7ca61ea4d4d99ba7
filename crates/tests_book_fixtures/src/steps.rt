//! The codes of the steps that stand in a generation's file.

use crate::recount::{Stored, bytes_of, records_of};
use base_types::{Blob, BlobList};
use std::alloc::Global;
use std::test::Fail;
use step_code::decode_step;

// The code of the step in front of these bytes, and what stands behind it.
fn first_code(alloc: Global, bytes: &[u8]) -> Result<(&[u8], &[u8]), Fail> {
    let (_step, len) = decode_step(alloc, bytes)?;
    let code = bytes.get(..len).ok_or("a step behind its record")?;
    let rest = bytes.get(len..).ok_or("a step behind its record")?;
    Ok((code, rest))
}

fn push(alloc: Global, codes: &mut BlobList, code: &[u8]) -> Result<(), Fail> {
    match codes.push(Blob::new(alloc, code)?) {
        Ok(()) => Ok(()),
        Err(_) => Err(Fail::from("memory")),
    }
}

// Adds the codes of the steps of a body, each of which has some bytes.
fn add_codes(alloc: Global, codes: &mut BlobList, body: &[u8]) -> Result<(), Fail> {
    let mut rest = body;
    'steps: for _ in 0..body.len() {
        if rest.is_empty() {
            return Ok(());
        }
        let (code, behind) = first_code(alloc, rest)?;
        push(alloc, codes, code)?;
        rest = behind;
    }
    Ok(())
}

/// What is stored in the file of a generation.
pub fn stored_in(alloc: Global, file: &[u8]) -> Result<Stored, Fail> {
    let records = records_of(alloc, file)?;
    let [base, bodies @ ..] = records.bodies.as_slice() else {
        return Err(Fail::from("a generation without a state"));
    };
    let mut steps = BlobList::new(alloc);
    'bodies: for body in bodies {
        add_codes(alloc, &mut steps, bytes_of(file, *body))?;
    }
    Ok(Stored {
        base: bytes_of(file, *base).to_vec(alloc)?,
        steps,
    })
}

/// The codes of the first so many of these steps, one behind the other.
pub fn front_codes(alloc: Global, steps: &BlobList, many: u64) -> Result<Vec<u8>, Fail> {
    if many > steps.len() as u64 {
        return Err(Fail::from("fewer steps than that"));
    }
    let mut codes = Vec::new(alloc);
    'steps: for step in steps.as_slice().iter().take(many as usize) {
        codes.extend_from_slice(step.bytes())?;
    }
    Ok(codes)
}
