//! The calls, by their words.
use crate::changes::{fronts, lengths, turns};
use crate::marked::with_marks;
use crate::states::state_text;
use crate::steps::step_text;
use base_types::Blob;
use std::alloc::{AllocError, Global};
use step_code::{Base, Step, decode_base, decode_step, encode_base, encode_step};
use stored_types::CodeFault;

/// What a code is of.
#[derive(Clone, Copy)]
pub enum Kind {
    Step,
    State,
}

/// The answer to a case: a call and a code. `step` and `state` tell what is read from the code, and whether that is written as the bytes
/// that were read. `fronts` counts the shorter fronts that are bad. `turns` counts what is read where the lowest or the highest bit of
/// one byte is turned. `lengths` counts what is bad where one of the marked lengths is wrong.
pub fn answer(alloc: Global, case: &str) -> Result<String, AllocError> {
    let Some((call, text)) = case.split_once(": ") else {
        return "no case".to_string(alloc);
    };
    let Some(code) = with_marks(alloc, text)? else {
        return "no bytes".to_string(alloc);
    };
    match call {
        "step" => read_step(alloc, &code.bytes),
        "state" => read_state(alloc, &code.bytes),
        "fronts of a step" => fronts(alloc, Kind::Step, &code.bytes),
        "fronts of a state" => fronts(alloc, Kind::State, &code.bytes),
        "turns of a step" => turns(alloc, Kind::Step, &code.bytes),
        "turns of a state" => turns(alloc, Kind::State, &code.bytes),
        "lengths of a step" => lengths(alloc, Kind::Step, &code),
        "lengths of a state" => lengths(alloc, Kind::State, &code),
        _ => "no call".to_string(alloc),
    }
}

fn read_step(alloc: Global, bytes: &[u8]) -> Result<String, AllocError> {
    match decode_step(alloc, bytes) {
        Ok((step, len)) => told_step(alloc, &step, len, bytes),
        Err(CodeFault::Bad) => "bad".to_string(alloc),
        Err(CodeFault::OutOfMemory) => Err(AllocError),
    }
}

fn told_step(alloc: Global, step: &Step, len: usize, bytes: &[u8]) -> Result<String, AllocError> {
    let Ok(code) = encode_step(alloc, step) else {
        return Err(AllocError);
    };
    let text = step_text(alloc, step)?;
    format!(in alloc; "{len} bytes, written {}: {text}", again(&code, bytes))
}

fn read_state(alloc: Global, bytes: &[u8]) -> Result<String, AllocError> {
    match decode_base(alloc, bytes) {
        Ok((state, len)) => told_state(alloc, &state, len, bytes),
        Err(CodeFault::Bad) => "bad".to_string(alloc),
        Err(CodeFault::OutOfMemory) => Err(AllocError),
    }
}

fn told_state(alloc: Global, state: &Base, len: usize, bytes: &[u8]) -> Result<String, AllocError> {
    let Ok(code) = encode_base(alloc, state) else {
        return Err(AllocError);
    };
    let text = state_text(alloc, state)?;
    format!(in alloc; "{len} bytes, written {}: {text}", again(&code, bytes))
}

// Whether the bytes begin with the code.
fn again(code: &Blob, bytes: &[u8]) -> &'static str {
    if bytes.starts_with(code.bytes()) {
        "again"
    } else {
        "otherwise"
    }
}
