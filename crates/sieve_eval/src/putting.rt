ghost use Rattle.std.specs.Prelude.{◌≡◌, IfOk, OnOk};
ghost use Rattle.std.specs.FinMap.{get, entries};
ghost use Rattle.base_types.specs.Place.{IsPlace};
ghost use Rattle.event_model.specs.Fields.{value_for, IsField};
ghost use Rattle.sieve_eval.specs.Outcome.{GoesOn};
ghost use Rattle.sieve_eval.specs.Putting.{IsCleanedAt, IsSound};
ghost use Rattle.sieve_eval.specs.Runs.{is_set, put, set_to, set_to_other, with_value};

use crate::fault::EvalFault;
use crate::state::State;
use base_types::OutOfMemory;
use field_types::{FieldFault, FieldName, Value, sanitise};
use sieve_tree::{How, PutSource};
use std::alloc::Global;

fn is_set(how: How, present: bool) -> bool
    ensures { result ≡ is_set how present }
{
    match how {
        How::Add => !present,
        How::Force => true,
        How::Update => present,
    }
}

// The canonical value of a field for a value, or the fault of a copy at that offset.
fn cleaned(alloc: Global, key: &FieldName, value: &Value, at: u32) -> Result<Value, EvalFault>
    ensures cleaned { IsCleanedAt (value_for key.now value.now) at result }
    ensures field { IfOk result (IsField key.now) }
{
    let Some(kind) = key.kind() else {
        return Err(EvalFault::BadValue { at });
    };
    match sanitise(alloc, kind, value) {
        Ok(value) => Ok(value),
        Err(FieldFault::BadValue) => Err(EvalFault::BadValue { at }),
        Err(FieldFault::OutOfMemory) => Err(EvalFault::OutOfMemory),
    }
}

// Sets a field, at its place, to a value that is canonical for it.
fn set(
    alloc: Global,
    state: &mut State,
    place: Result<usize, usize>,
    key: &FieldName,
    value: Value,
) -> Result<(), OutOfMemory>
    requires place { IsPlace key.now (entries state.old.fields) place }
    requires field { IsField key.now value }
    ensures { OnOk result (state.new ≡ with_value key.now state.old value) }
{
    let key = key.copy(alloc)?;
    state.fields.put_at(place, key, value, &mut state.place)
}

// Sets a field, at its place, to the value of another field.
fn copy_from(
    alloc: Global,
    state: &mut State,
    place: Result<usize, usize>,
    key: &FieldName,
    other: &FieldName,
    at: u32,
) -> Result<(), EvalFault>
    requires { IsPlace key.now (entries state.old.fields) place }
    ensures { GoesOn (set_to_other key.now at state.old (get state.old.fields other.now)) result state.new }
{
    match state.fields.get_named(other) {
        Some(value) => {
            let value = cleaned(alloc, key, value, at)?;
            set(alloc, state, place, key, value)?;
            Ok(())
        }
        None => Ok(()),
    }
}

fn set_to(
    alloc: Global,
    state: &mut State,
    place: Result<usize, usize>,
    key: &FieldName,
    source: &PutSource,
    at: u32,
) -> Result<(), EvalFault>
    requires place { IsPlace key.now (entries state.old.fields) place }
    requires sound { IsSound key.now source.now }
    ensures { GoesOn (set_to key.now source.now at state.old) result state.new }
{
    match source {
        PutSource::Fixed(value) => {
            let value = value.copy(alloc)?;
            set(alloc, state, place, key, value)?;
            Ok(())
        }
        PutSource::Copy(other) => copy_from(alloc, state, place, key, other, at),
    }
}

/// Sets a field to a source, which stands at that offset, where the action sets the field at all.
pub fn put(
    alloc: Global,
    state: &mut State,
    key: &FieldName,
    how: How,
    source: &PutSource,
    at: u32,
) -> Result<(), EvalFault>
    requires { IsSound key.now source.now }
    ensures { GoesOn (put key.now how source.now at state.old) result state.new }
{
    let place = state.fields.place_near(key, &mut state.place);
    if !is_set(how, place.is_ok()) {
        return Ok(());
    }
    set_to(alloc, state, place, key, source, at)
}
