ghost use Rattle.std.specs.Prelude.{◌≡◌, ◌↔◌, ◌<◌, length, slice_set, filter, is_ok, is_some, IfOk, IfSome, IsTrue, OnOk, OnErr};
ghost use Rattle.std.specs.Str.{bytes_eq};
ghost use Rattle.std.specs.List.{list_any, remove as without_item};
ghost use Rattle.std.specs.Option.{option_copied};
ghost use Rattle.base_types.specs.Place.{IsPlace};
ghost use Rattle.event_model.specs.Fields.{IsField, AreFieldsInOrder};
ghost use Rattle.event_model.specs.Edits.{wanted, set_to, added, updated, is_kept, restricted, IsEdit, IsPush, IsWanted};

use crate::EventFault;
use crate::place::{PlaceHint, is_above_all, place_near, place_of};
use base_types::{OutOfMemory, Text, TextList};
use field_types::{FieldFault, FieldKey, FieldName, Value, is_canonical, sanitise, type_of};
use std::alloc::Global;
use std::marker::Model;

/// The fields of a message. Contracts see a finite map from the names to the values.
#[derive(Debug, Drop)]
pub struct Fields {
    // In byte order of the names.
    pairs: Vec<(FieldName, Value)>,
}

impl Model for Fields {
    ghost use Rattle.std.specs.Coded.{coded_ℕ, coded_list};
    ghost use Rattle.std.specs.FinMap as map;
    ghost use Rattle.field_types.specs.contracts.value.Value as value;
    ghost use Rattle.event_model.specs.Fields.{FieldMap, AreFieldsInOrder};

    ghost Value = { FieldMap };

    ghost coded = { map.code (coded_list coded_ℕ) value.the_row.coded };

    ghost view = { λ f. map.from_entries f.pairs.items };

    ghost invariant = { λ f. AreFieldsInOrder f.pairs.items };
}

// Puts a pair in place of the one that stands there.
fn overwrite(pairs: &mut Vec<(FieldName, Value)>, i: usize, pair: (FieldName, Value))
    requires { i < length pairs.old.items }
    ensures { pairs.new.items ≡ slice_set pairs.old.items i pair }
{
    pairs[i] = pair;
}

// Takes the pair out that stands there.
fn take_out(pairs: &mut Vec<(FieldName, Value)>, i: usize)
    requires { i < length pairs.old.items }
    ensures { pairs.new.items ≡ without_item pairs.old.items i }
{
    pairs.remove(i);
}

fn copy_pair(alloc: Global, pair: &(FieldName, Value)) -> Result<(FieldName, Value), OutOfMemory>
    ensures { IfOk result (λ copied. copied ≡ pair.now) }
{
    Ok((pair.0.copy(alloc)?, pair.1.copy(alloc)?))
}

// Copies of the pairs, and room for so many more.
fn copied_pairs(
    alloc: Global,
    pairs: &[(FieldName, Value)],
    more: usize,
) -> Result<Vec<(FieldName, Value)>, OutOfMemory>
    ensures { IfOk result (λ copied. copied.items ≡ pairs.now) }
{
    let mut copied = Vec::with_capacity(alloc, pairs.len().saturating_add(more))?;
    'pairs: for pair in pairs {
        copied.push(copy_pair(alloc, pair)?)?;
    }
    Ok(copied)
}

fn is_one_of(keys: &TextList, key: &FieldName) -> bool
    ensures { result ≡ list_any (bytes_eq key.now) keys.now }
{
    keys.as_slice()
        .iter()
        .any(|other| key.as_str() == other.as_str())
}

fn is_kept(keys: &TextList, keep: bool, key: &FieldName) -> bool
    ensures { result ≡ is_kept keys.now keep key.now }
{
    let found = is_one_of(keys, key);
    if keep { found } else { !found }
}

// The pairs that stay, one after the other.
fn kept_pairs(
    alloc: Global,
    pairs: &[(FieldName, Value)],
    keys: &TextList,
    keep: bool,
) -> Result<Vec<(FieldName, Value)>, OutOfMemory>
    ensures { IfOk result (λ kept. kept.items ≡ filter (λ pair. is_kept keys.now keep pair.0) pairs.now) }
{
    let mut kept = Vec::new(alloc);
    'pairs: for pair in pairs {
        if is_kept(keys, keep, &pair.0) {
            kept.push(copy_pair(alloc, pair)?)?;
        }
    }
    Ok(kept)
}

// The canonical value of a field for a value.
fn wanted(alloc: Global, key: &Text, value: &Value) -> Result<Value, EventFault>
    ensures wanted { IsWanted (wanted key.now value.now) result }
    ensures field { IfOk result (IsField key.now) }
{
    let Some(kind) = type_of(key) else {
        return Err(EventFault::NoField);
    };
    match sanitise(alloc, kind, value) {
        Ok(value) => Ok(value),
        Err(FieldFault::BadValue) => Err(EventFault::BadValue),
        Err(FieldFault::OutOfMemory) => Err(EventFault::OutOfMemory),
    }
}

/// Whether there is a field of this name, and the value is canonical for it.
#[tactic(auto, unfolding(crate::specs::Fields::value_for))]
pub fn is_field(alloc: Global, key: &FieldName, value: &Value) -> Result<bool, OutOfMemory>
    ensures { IfOk result (λ is. IsTrue is ↔ IsField key.now value.now) }
{
    match key.kind() {
        Some(kind) => is_canonical(alloc, kind, value),
        None => Ok(false),
    }
}

impl Fields {
    ghost use Rattle.std.specs.FinMap.{empty, get, insert, remove, entries, from_entries};

    /// No fields. It takes no memory.
    pub fn new(alloc: Global) -> Self
        ensures { result ≡ empty }
    {
        Fields {
            pairs: Vec::new(alloc),
        }
    }

    /// No fields, and room for so many.
    pub fn with_capacity(alloc: Global, fields: usize) -> Result<Self, OutOfMemory>
        ensures { IfOk result (λ none. none ≡ empty) }
    {
        Ok(Fields {
            pairs: Vec::with_capacity(alloc, fields)?,
        })
    }

    // The fields that stand there.
    pub(crate) fn of_pairs(pairs: Vec<(FieldName, Value)>) -> Self
        requires { AreFieldsInOrder pairs.items }
        ensures { result ≡ from_entries pairs.items }
    {
        Fields { pairs }
    }

    /// The value of a field, by its name.
    pub fn get_named(&self, key: &FieldName) -> Option<&Value>
        ensures { option_copied result ≡ get self.now key.now }
    {
        self.get_near(key, &mut PlaceHint::new())
    }

    /// The same for a name that may stand where the last one was found, or right behind it.
    pub fn get_near(&self, key: &FieldName, hint: &mut PlaceHint) -> Option<&Value>
        ensures { option_copied result ≡ get self.now key.now }
    {
        match self.place_near(key, hint) {
            Ok(i) => Some(&self.pairs[i].1),
            Err(_) => None,
        }
    }

    /// Where a field stands, or else where it would stand. It may stand where the last one was found, or right behind it.
    pub fn place_near(&self, key: &FieldName, hint: &mut PlaceHint) -> Result<usize, usize>
        ensures place { IsPlace key.now (entries self.now) result }
        ensures there { is_ok result ≡ is_some (get self.now key.now) }
    {
        match place_near(&self.pairs, &key.as_key(), hint.at) {
            Ok(i) => {
                hint.at = i;
                Ok(i)
            }
            Err(i) => {
                hint.at = i.saturating_sub(1);
                Err(i)
            }
        }
    }

    /// The value of a field. It obeys the kind of the field.
    pub fn get(&self, key: &Text) -> Option<&Value>
        ensures value { option_copied result ≡ get self.now key.now }
        ensures field { IfSome result (λ value. IsField key.now value.now) }
    {
        match place_of(&self.pairs, &FieldKey::new(key.as_str())) {
            Ok(i) => Some(&self.pairs[i].1),
            Err(_) => None,
        }
    }

    /// Sets a field, by its name, to a value that is canonical for it, without a look at its kind. Without memory, nothing
    /// changes.
    pub fn put_named(&mut self, key: FieldName, value: Value) -> Result<(), OutOfMemory>
        requires { IsField key value }
        ensures ok { OnOk result (self.new ≡ insert self.old key value) }
        ensures err { OnErr result (self.new ≡ self.old) }
    {
        let mut hint = PlaceHint::new();
        let place = self.place_near(&key, &mut hint);
        self.put_at(place, key, value, &mut hint)
    }

    /// The same at the place of the name, which isn't looked for again. The next name may stand right behind it.
    pub fn put_at(
        &mut self,
        place: Result<usize, usize>,
        key: FieldName,
        value: Value,
        hint: &mut PlaceHint,
    ) -> Result<(), OutOfMemory>
        requires place { IsPlace key (entries self.old) place }
        requires field { IsField key value }
        ensures ok { OnOk result (self.new ≡ insert self.old key value) }
        ensures err { OnErr result (self.new ≡ self.old) }
    {
        match place {
            Ok(i) => {
                overwrite(&mut self.pairs, i, (key, value));
                hint.at = i;
            }
            Err(i) => {
                self.pairs.insert(i, (key, value))?;
                hint.at = i;
            }
        }
        Ok(())
    }

    /// Sets a field to a value that is canonical for it, without a look at its kind. Without memory, nothing changes.
    pub fn put(&mut self, key: Text, value: Value) -> Result<(), OutOfMemory>
        requires { IsField key value }
        ensures ok { OnOk result (self.new ≡ insert self.old key value) }
        ensures err { OnErr result (self.new ≡ self.old) }
    {
        self.put_named(FieldName::from(key), value)
    }

    // Takes the field of that key out, and answers whether it was there.
    fn take(&mut self, key: &FieldKey<'_>) -> bool
        ensures was_there { result ≡ is_some (get self.old key.now) }
        ensures map { self.new ≡ remove self.old key.now }
    {
        match place_of(&self.pairs, key) {
            Ok(i) => {
                take_out(&mut self.pairs, i);
                true
            }
            Err(_) => false,
        }
    }

    /// Takes a field out, by its name, and answers whether it was there. It takes no memory.
    pub fn remove_named(&mut self, key: &FieldName) -> bool
        ensures was_there { result ≡ is_some (get self.old key.now) }
        ensures map { self.new ≡ remove self.old key.now }
    {
        self.take(&key.as_key())
    }

    /// Takes a field out, and answers whether it was there. It takes no memory.
    pub fn remove(&mut self, key: &Text) -> bool
        ensures was_there { result ≡ is_some (get self.old key.now) }
        ensures map { self.new ≡ remove self.old key.now }
    {
        self.take(&FieldKey::new(key.as_str()))
    }

    /// Sets a field that is absent. 1 `NoField`, 2 `BadValue`, 3 `Present`, the first that holds; nothing changes then.
    pub fn add(&mut self, alloc: Global, key: &Text, value: &Value) -> Result<(), EventFault>
        ensures { IsEdit (added key.now value.now self.old) result self.old self.new }
    {
        let value = wanted(alloc, key, value)?;
        if self.get(key).is_some() {
            return Err(EventFault::Present);
        }
        self.put(key.copy(alloc)?, value)?;
        Ok(())
    }

    /// Sets a field, whether or not it is there. 1 `NoField`, 2 `BadValue`; nothing changes then.
    pub fn set(&mut self, alloc: Global, key: &Text, value: &Value) -> Result<(), EventFault>
        ensures { IsEdit (set_to key.now value.now self.old) result self.old self.new }
    {
        let value = wanted(alloc, key, value)?;
        self.put(key.copy(alloc)?, value)?;
        Ok(())
    }

    /// Sets a field that is there, as `set` does, and answers whether it was. An absent field stays absent, whatever
    /// its name.
    pub fn update(&mut self, alloc: Global, key: &Text, value: &Value) -> Result<bool, EventFault>
        ensures was_there { IfOk result (λ there. there ≡ is_some (get self.old key.now)) }
        ensures map { IsEdit (updated key.now value.now self.old) result self.old self.new }
    {
        if self.get(key).is_none() {
            return Ok(false);
        }
        self.set(alloc, key, value)?;
        Ok(true)
    }

    /// These fields alone, or with `keep` false all others.
    pub fn restrict(
        &self,
        alloc: Global,
        keys: &TextList,
        keep: bool,
    ) -> Result<Fields, OutOfMemory>
        ensures { IfOk result (λ fields. fields ≡ restricted keys.now keep self.now) }
    {
        Ok(Fields {
            pairs: kept_pairs(alloc, &self.pairs, keys, keep)?,
        })
    }

    /// Puts a field behind all others, or answers `false` where its name isn't above all of theirs.
    pub fn push(&mut self, key: FieldName, value: Value) -> Result<bool, OutOfMemory>
        requires field { IsField key value }
        ensures ok { IfOk result (λ pushed. IsPush pushed key value self.old self.new) }
        ensures err { OnErr result (self.new ≡ self.old) }
    {
        if !is_above_all(&self.pairs, &key) {
            return Ok(false);
        }
        self.pairs.push((key, value))?;
        Ok(true)
    }

    pub fn copy(&self, alloc: Global) -> Result<Fields, OutOfMemory>
        ensures { IfOk result (λ fields. fields ≡ self.now) }
    {
        self.copy_with_room(alloc, 0)
    }

    /// A copy with room for so many more fields.
    pub fn copy_with_room(&self, alloc: Global, more: usize) -> Result<Fields, OutOfMemory>
        ensures { IfOk result (λ fields. fields ≡ self.now) }
    {
        Ok(Fields {
            pairs: copied_pairs(alloc, &self.pairs, more)?,
        })
    }

    /// The fields in byte order of their names, with their values.
    pub fn pairs(&self) -> &[(FieldName, Value)]
        ensures pairs { result.now ≡ entries self.now }
        ensures fields { AreFieldsInOrder result.now }
    {
        &self.pairs
    }
}
