ghost use Rattle.std.specs.Prelude.{◌≡◌, IfOk};

use crate::boxed::Boxed;
use crate::sieve::PathSpots;
use crate::tree::{
    Case, CaseList, Cond, CondList, PutSource, SieveItem, SieveItemList, Test, ValueList,
};
use base_types::{OutOfMemory, Text, TextList};
use field_types::Value;
use std::alloc::Global;

pub fn copy_texts(alloc: Global, texts: &[Text]) -> Result<TextList, OutOfMemory>
    ensures { IfOk result (λ copied. copied ≡ texts.now) }
{
    let mut copied = Vec::with_capacity(alloc, texts.len())?;
    'texts: for text in texts {
        copied.push(text.copy(alloc)?)?;
    }
    Ok(TextList::from(copied))
}

fn copy_spot(alloc: Global, spot: &(Text, u32)) -> Result<(Text, u32), OutOfMemory>
    ensures { IfOk result (λ copied. copied ≡ spot.now) }
{
    Ok((spot.0.copy(alloc)?, spot.1))
}

pub fn copy_spots(alloc: Global, spots: &[(Text, u32)]) -> Result<PathSpots, OutOfMemory>
    ensures { IfOk result (λ copied. copied ≡ spots.now) }
{
    let mut copied = Vec::with_capacity(alloc, spots.len())?;
    'spots: for spot in spots {
        copied.push(copy_spot(alloc, spot)?)?;
    }
    Ok(PathSpots::from(copied))
}

fn copy_values(alloc: Global, values: &[Value]) -> Result<ValueList, OutOfMemory>
    ensures { IfOk result (λ copied. copied ≡ values.now) }
{
    let mut copied = Vec::with_capacity(alloc, values.len())?;
    'values: for value in values {
        copied.push(value.copy(alloc)?)?;
    }
    Ok(ValueList::from(copied))
}

fn copy_test(alloc: Global, test: &Test) -> Result<Test, OutOfMemory>
    ensures { IfOk result (λ copied. copied ≡ test.now) }
{
    Ok(match test {
        Test::Exists => Test::Exists,
        Test::Absent => Test::Absent,
        Test::Equal(value) => Test::Equal(value.copy(alloc)?),
        Test::Differs(value) => Test::Differs(value.copy(alloc)?),
        Test::Contains(text) => Test::Contains(text.copy(alloc)?),
        Test::Found { pattern } => Test::Found { pattern: *pattern },
        Test::NotFound { pattern } => Test::NotFound { pattern: *pattern },
        Test::Below(n) => Test::Below(*n),
        Test::AtMost(n) => Test::AtMost(*n),
        Test::Above(n) => Test::Above(*n),
        Test::AtLeast(n) => Test::AtLeast(*n),
        Test::Within(net) => Test::Within(*net),
        Test::In(values) => Test::In(copy_values(alloc, values.as_slice())?),
        Test::Before { span } => Test::Before { span: *span },
        Test::After { span } => Test::After { span: *span },
    })
}

#[cycle(cond_copies)]
fn copy_cond(alloc: Global, cond: &Cond) -> Result<Cond, OutOfMemory>
    ensures { IfOk result (λ copied. copied ≡ cond.now) }
{
    Ok(match cond {
        Cond::Any(inner) => Cond::Any(copy_conds(alloc, inner.as_slice())?),
        Cond::All(inner) => Cond::All(copy_conds(alloc, inner.as_slice())?),
        Cond::Not(inner) => Cond::Not(Boxed::new(alloc, copy_cond(alloc, inner.get())?)?),
        Cond::Test { key, test } => Cond::Test {
            key: key.copy(alloc)?,
            test: copy_test(alloc, test)?,
        },
    })
}

#[cycle(cond_copies)]
fn copy_conds(alloc: Global, conds: &[Cond]) -> Result<CondList, OutOfMemory>
    ensures { IfOk result (λ copied. copied ≡ conds.now) }
{
    let mut copied = Vec::with_capacity(alloc, conds.len())?;
    'conds: for cond in conds {
        copied.push(copy_cond(alloc, cond)?)?;
    }
    Ok(CondList::from(copied))
}

fn copy_source(alloc: Global, source: &PutSource) -> Result<PutSource, OutOfMemory>
    ensures { IfOk result (λ copied. copied ≡ source.now) }
{
    Ok(match source {
        PutSource::Fixed(value) => PutSource::Fixed(value.copy(alloc)?),
        PutSource::Copy(other) => PutSource::Copy(other.copy(alloc)?),
    })
}

#[cycle(item_copies)]
fn copy_item(alloc: Global, item: &SieveItem) -> Result<SieveItem, OutOfMemory>
    ensures { IfOk result (λ copied. copied ≡ item.now) }
{
    Ok(match item {
        SieveItem::Choice { cases, otherwise } => SieveItem::Choice {
            cases: copy_cases(alloc, cases.as_slice())?,
            otherwise: copy_items(alloc, otherwise.as_slice())?,
        },
        SieveItem::Keep => SieveItem::Keep,
        SieveItem::Drop => SieveItem::Drop,
        SieveItem::Path { names } => SieveItem::Path {
            names: copy_texts(alloc, names.as_slice())?,
        },
        SieveItem::Put {
            key,
            how,
            source,
            at,
        } => SieveItem::Put {
            key: key.copy(alloc)?,
            how: *how,
            source: copy_source(alloc, source)?,
            at: *at,
        },
        SieveItem::Remove { key } => SieveItem::Remove {
            key: key.copy(alloc)?,
        },
    })
}

#[cycle(item_copies)]
fn copy_cases(alloc: Global, cases: &[Case]) -> Result<CaseList, OutOfMemory>
    ensures { IfOk result (λ copied. copied ≡ cases.now) }
{
    let mut copied = Vec::with_capacity(alloc, cases.len())?;
    'cases: for case in cases {
        let cond = copy_cond(alloc, &case.0)?;
        let items = copy_items(alloc, case.1.as_slice())?;
        copied.push((cond, items))?;
    }
    Ok(CaseList::from(copied))
}

#[cycle(item_copies)]
pub fn copy_items(alloc: Global, items: &[SieveItem]) -> Result<SieveItemList, OutOfMemory>
    ensures { IfOk result (λ copied. copied ≡ items.now) }
{
    let mut copied = Vec::with_capacity(alloc, items.len())?;
    'items: for item in items {
        copied.push(copy_item(alloc, item)?)?;
    }
    Ok(SieveItemList::from(copied))
}
