ghost use Rattle.std.specs.Prelude.{◌≡◌, IfOk};

use base_types::{ListOf, OutOfMemory, Text};
use std::alloc::Global;

/// An item of a list.
#[derive(Debug, Drop, PartialEq)]
pub enum Item {
    Text(Text),
    Whole(i64),
    Flag(bool),
    /// In millionths.
    Decimal(i64),
}

pub type ItemList = ListOf<Item>;

/// The value of a field.
#[derive(Debug, Drop, PartialEq)]
pub enum Value {
    Text(Text),
    Whole(i64),
    Flag(bool),
    /// In millionths.
    Decimal(i64),
    List(ItemList),
}

impl Item {
    pub fn copy(&self, alloc: Global) -> Result<Item, OutOfMemory>
        ensures { IfOk result (λ item. item ≡ self.now) }
    {
        Ok(match self {
            Item::Text(text) => Item::Text(text.copy(alloc)?),
            Item::Whole(n) => Item::Whole(*n),
            Item::Flag(flag) => Item::Flag(*flag),
            Item::Decimal(n) => Item::Decimal(*n),
        })
    }
}

/// A copy of the items.
pub(crate) fn copy_items(alloc: Global, items: &[Item]) -> Result<ItemList, OutOfMemory>
    ensures { IfOk result (λ copied. copied ≡ items.now) }
{
    let mut copied = Vec::with_capacity(alloc, items.len())?;
    'items: for item in items {
        copied.push(item.copy(alloc)?)?;
    }
    Ok(ItemList::from(copied))
}

impl Value {
    pub fn copy(&self, alloc: Global) -> Result<Value, OutOfMemory>
        ensures { IfOk result (λ value. value ≡ self.now) }
    {
        Ok(match self {
            Value::Text(text) => Value::Text(text.copy(alloc)?),
            Value::Whole(n) => Value::Whole(*n),
            Value::Flag(flag) => Value::Flag(*flag),
            Value::Decimal(n) => Value::Decimal(*n),
            Value::List(items) => Value::List(copy_items(alloc, items.as_slice())?),
        })
    }
}
