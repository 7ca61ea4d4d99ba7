ghost use Rattle.std.specs.Prelude.{◌≡◌, ◌&&◌, true, IfOk, OnOk, OnErr};
ghost use Rattle.std.specs.FinMap.{is_sorted};
ghost use Rattle.std.specs.Ordering.{nat_cmp};
ghost use Rattle.std.specs.Cmp.Lexicographic.{slice_cmp};
ghost use Rattle.std.specs.List.{dedup};
ghost use Rattle.std.specs.List.Sorted.{IsPermutation, IsSortedBy, IsStableBy};
ghost use Rattle.base_types.specs.Place.{is_above_all};
ghost use Rattle.event_model.specs.Fields.{IsField};
ghost use Rattle.event_model.specs.Built.{is_below, has_same_name, AreSettled};

use crate::Fields;
use crate::place::is_above_all;
use base_types::OutOfMemory;
use field_types::{FieldName, Value};
use std::alloc::Global;
use std::cmp::Ordering;
use std::marker::Model;

/// Fields that are set one after the other, where a later value of a field replaces an earlier one. Contracts see the
/// map of them. It takes one comparison for each field whose name is above all before it; where one isn't, the fields
/// are sorted once, at the end.
#[derive(Drop)]
pub struct FieldsBuilder {
    // In the order in which they were set.
    pairs: Vec<(FieldName, Value)>,
    // Whether each name is above all before it.
    rises: bool,
}

impl Model for FieldsBuilder {
    ghost use Rattle.std.specs.Coded.{coded_ℕ, coded_list};
    ghost use Rattle.std.specs.FinMap as map;
    ghost use Rattle.field_types.specs.contracts.value.Value as value;
    ghost use Rattle.event_model.specs.Fields.{FieldMap};
    ghost use Rattle.event_model.specs.Lenient.{set_all};
    ghost use Rattle.event_model.specs.Built.{AreBuilt};

    ghost Value = { FieldMap };

    ghost coded = { map.code (coded_list coded_ℕ) value.the_row.coded };

    ghost view = { λ b. set_all b.pairs.items };

    ghost invariant = { λ b. AreBuilt b.pairs.items b.rises };
}

fn compare_names(a: &(FieldName, Value), b: &(FieldName, Value)) -> Ordering
    ensures { result ≡ slice_cmp nat_cmp a.now.0 b.now.0 }
{
    a.0.compare(&b.0)
}

fn has_same_name(a: &(FieldName, Value), b: &(FieldName, Value)) -> bool
    ensures { result ≡ has_same_name a.now b.now }
{
    compare_names(a, b).is_eq()
}

// Whether the names still rise with this one behind them.
fn goes_on(pairs: &[(FieldName, Value)], rises: bool, key: &FieldName) -> bool
    requires { rises ≡ true → is_sorted (slice_cmp nat_cmp) pairs.now ≡ true }
    ensures { result ≡ (rises && is_above_all key.now pairs.now) }
{
    if rises {
        is_above_all(pairs, key)
    } else {
        false
    }
}

// Those of one name keep their order.
fn sort_by_name(pairs: &mut Vec<(FieldName, Value)>) -> Result<(), OutOfMemory>
    ensures sorted { OnOk result (IsSortedBy is_below pairs.new.items) }
    ensures stable { IsStableBy is_below pairs.old.items pairs.new.items }
    ensures permutation { IsPermutation pairs.old.items pairs.new.items }
{
    pairs.sort_by(|a, b| compare_names(a, b))?;
    Ok(())
}

// Of neighbours of one name the first stays.
fn keep_first(pairs: &mut Vec<(FieldName, Value)>)
    ensures { pairs.new.items ≡ dedup has_same_name pairs.old.items }
{
    pairs.dedup_by(|a, b| has_same_name(a, b));
}

// Puts pairs in byte order of their names, where of those of one name the last stays.
fn settle(pairs: &mut Vec<(FieldName, Value)>) -> Result<(), OutOfMemory>
    ensures { OnOk result (AreSettled pairs.old.items pairs.new.items) }
{
    // The last of one name then comes first, and the sort leaves it there.
    pairs.reverse();
    sort_by_name(pairs)?;
    keep_first(pairs);
    Ok(())
}

impl FieldsBuilder {
    ghost use Rattle.std.specs.FinMap.{empty, insert};

    /// No fields, and room for so many.
    pub fn with_capacity(alloc: Global, fields: usize) -> Result<Self, OutOfMemory>
        ensures { IfOk result (λ none. none ≡ empty) }
    {
        Ok(FieldsBuilder {
            pairs: Vec::with_capacity(alloc, fields)?,
            rises: true,
        })
    }

    /// Sets a field to a value that is canonical for it. Without memory, nothing changes.
    pub fn put(&mut self, key: FieldName, value: Value) -> Result<(), OutOfMemory>
        requires { IsField key value }
        ensures ok { OnOk result (self.new ≡ insert self.old key value) }
        ensures err { OnErr result (self.new ≡ self.old) }
    {
        let rises = goes_on(&self.pairs, self.rises, &key);
        self.pairs.push((key, value))?;
        self.rises = rises;
        Ok(())
    }

    /// The fields.
    pub fn build(self) -> Result<Fields, OutOfMemory>
        ensures { IfOk result (λ fields. fields ≡ self) }
    {
        let FieldsBuilder { mut pairs, rises } = self;
        if rises {
            return Ok(Fields::of_pairs(pairs));
        }
        settle(&mut pairs)?;
        Ok(Fields::of_pairs(pairs))
    }
}
