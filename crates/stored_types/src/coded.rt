//! One trait for what is stored: its code, the code's length, writing, reading and copies.
ghost use Rattle.std.specs.Prelude.{◌≡◌, ◌++◌, ℕ, List, [], length, min, sum_by, take, OnOk, IfOk};
ghost use Rattle.std.specs.Int.{w32};
ghost use Rattle.std.specs.List.{flat_map, AllByRecursion};
ghost use Rattle.base_types.specs.Number.{last_u64};
ghost use Rattle.stored_types.specs.Code.{list, list_at, items_at, number_at, IsList};
ghost use Rattle.stored_types.specs.Coded.{Begins, Gives, Reader, both};

use crate::CodeFault;
use base_types::{Blob, ListOf, OutOfMemory, put_u32};
use std::alloc::Global;

/// What is stored: it has a code, which is read from the front of bytes.
pub trait Coded: Drop {
    ghost code: { Self → List ℕ };

    /// What can be written so that it is read again.
    ghost has_code: { Self → Type 0 };

    ghost read: { Reader Self };

    /// The length of the code in bytes. Where it passes the greatest number, that number stands for it.
    fn code_len(&self) -> u64
        ensures { result ≡ min (length (code self.now)) last_u64 };

    /// Appends the code. Where a length can't be written in its bytes, there is none, as where memory runs out. A part of
    /// the code may stand behind the bytes that were there then.
    fn put(&self, to: &mut Blob) -> Result<(), OutOfMemory>
        ensures code { OnOk result (to.new ≡ to.old ++ code self.now) }
        ensures writable { OnOk result (has_code self.now) }
        ensures kept { Begins to.old to.new };

    /// The value whose code stands in front, and the bytes behind it.
    fn take(alloc: Global, bytes: &[u8]) -> Result<(Self, &[u8]), CodeFault>
        ensures { Gives (λ x. (x.0, x.1.now)) result (read bytes.now) };

    fn copy(&self, alloc: Global) -> Result<Self, OutOfMemory>
        ensures { IfOk result (λ copy. copy ≡ self.now) };
}

/// The lengths of the codes of these items together.
pub fn codes_len<T: Coded>(items: &[T]) -> u64
    ensures { result ≡ min (sum_by (λ item. length (T.code item)) items.now) last_u64 }
{
    let mut length: u64 = 0;
    'items: for item in items {
        length = length.saturating_add(item.code_len());
    }
    length
}

/// Appends the codes of these items.
#[tactic(auto, using(crate::proofs::Begins::begins))]
pub fn put_all<T: Coded>(to: &mut Blob, items: &[T]) -> Result<(), OutOfMemory>
    ensures code { OnOk result (to.new ≡ to.old ++ flat_map T.code items.now) }
    ensures writable { OnOk result (AllByRecursion T.has_code items.now) }
    ensures kept { Begins to.old to.new }
{
    'items: for item in items {
        item.put(to)?;
    }
    Ok(())
}

/// Copies of these items behind those of a vector. Where memory runs out, some of them are there.
pub fn copy_all<T: Coded>(alloc: Global, to: &mut Vec<T>, items: &[T]) -> Result<(), OutOfMemory>
    ensures { OnOk result (to.new.items ≡ to.old.items ++ items.now) }
{
    'items: for item in items {
        to.push(item.copy(alloc)?)?;
    }
    Ok(())
}

/// Copies of these items.
pub fn copies<T: Coded>(alloc: Global, items: &[T]) -> Result<Vec<T>, OutOfMemory>
    ensures { IfOk result (λ copies. copies.items ≡ items.now) }
{
    let mut copies = Vec::with_capacity(alloc, items.len())?;
    copy_all(alloc, &mut copies, items)?;
    Ok(copies)
}

// So many items. Memory for one is taken once its code was read, so a count takes none.
fn items_of<T: Coded>(alloc: Global, count: u32, bytes: &[u8]) -> Result<(Vec<T>, &[u8]), CodeFault>
    ensures { Gives (λ x. (x.0.items, x.1.now)) result (items_at T.read count bytes.now) }
{
    let mut items = Vec::new(alloc);
    let mut rest = bytes;
    'items: for _ in 0..count {
        let (item, after) = T::take(alloc, rest)?;
        items.push(item)?;
        rest = after;
    }
    Ok((items, rest))
}

impl<T: Coded> Coded for ListOf<T> {
    ghost code = { list T.Coded.code };

    ghost has_code = { IsList T.has_code };

    ghost read = { list_at T.read };

    fn code_len(&self) -> u64 {
        codes_len(self.as_slice()).saturating_add(4)
    }

    #[tactic(auto, using(crate::proofs::Begins::begins))]
    fn put(&self, to: &mut Blob) -> Result<(), OutOfMemory> {
        let Ok(count) = u32::try_from(self.len()) else {
            return Err(OutOfMemory);
        };
        put_u32(to, count)?;
        put_all(to, self.as_slice())
    }

    #[tactic(auto, unfolding(crate::specs::Code::list_at))]
    fn take(alloc: Global, bytes: &[u8]) -> Result<(Self, &[u8]), CodeFault> {
        let (count, rest) = u32::take(alloc, bytes)?;
        let (items, rest) = items_of::<T>(alloc, count, rest)?;
        Ok((ListOf::from(items), rest))
    }

    fn copy(&self, alloc: Global) -> Result<Self, OutOfMemory> {
        Ok(ListOf::from(copies(alloc, self.as_slice())?))
    }
}

impl<A: Coded, B: Coded> Coded for (A, B) {
    ghost code = { λ p. A.Coded.code p.0 ++ B.Coded.code p.1 };

    ghost has_code = { λ p. A.has_code p.0 × B.has_code p.1 };

    ghost read = { both A.read B.read };

    fn code_len(&self) -> u64 {
        self.0.code_len().saturating_add(self.1.code_len())
    }

    #[tactic(auto, using(crate::proofs::Begins::begins))]
    fn put(&self, to: &mut Blob) -> Result<(), OutOfMemory> {
        self.0.put(to)?;
        self.1.put(to)
    }

    fn take(alloc: Global, bytes: &[u8]) -> Result<(Self, &[u8]), CodeFault> {
        let (first, rest) = A::take(alloc, bytes)?;
        let (second, rest) = B::take(alloc, rest)?;
        Ok(((first, second), rest))
    }

    fn copy(&self, alloc: Global) -> Result<Self, OutOfMemory> {
        Ok((self.0.copy(alloc)?, self.1.copy(alloc)?))
    }
}
