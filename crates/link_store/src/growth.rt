//! More slots, and more rings.
ghost use Rattle.std.specs.Prelude.{◌≡◌, ◌<◌, ◌≤◌, ◌+◌, ◌++◌, ◌∷◌, [], ℕ, length, IsOk, OnErr, OnOk, None};
ghost use Rattle.link_store.specs.Slots.{cells};
ghost use Rattle.link_store.specs.Rings.{at};
ghost use Rattle.link_store.specs.Kept.{AreLinked, AreNumbered, lists_in};

use crate::rings::attach_last;
use crate::slots::Slot;
use base_types::OutOfMemory;

// So many slots are never made, and lengths fit.
const MOST_SLOTS: usize = 1 << 62;

/// A slot that is joined to itself.
pub fn lone_slot<T>(at: usize, ring: usize) -> Slot<T>
    ensures { result ≡ record { next = at; prev = at; ring = ring; held = None } }
{
    Slot {
        next: at,
        prev: at,
        ring,
        held: None,
    }
}

/// Makes one more free slot.
fn add_free<T: Drop>(
    slots: &mut Vec<Slot<T>>,
    heads: &[usize],
    lens: &mut [usize],
) -> Result<(), OutOfMemory>
    requires linked { AreLinked slots.old.items heads.now lens.old }
    ensures linked { AreLinked slots.new.items heads.now lens.new }
    ensures lists { lists_in slots.new.items heads.now lens.new ≡ lists_in slots.old.items heads.now lens.old }
    ensures ok { OnOk result (at lens.new 0 ≡ at lens.old 0 + 1) }
    ensures err { OnErr result (at lens.new 0 ≡ at lens.old 0) }
    ensures numbered { (n : ℕ) → AreNumbered (cells slots.old.items) n → AreNumbered (cells slots.new.items) n }
{
    let x = slots.len();
    if x + 1 >= MOST_SLOTS {
        return Err(OutOfMemory);
    }
    slots.push(lone_slot(x, 0))?;
    attach_last(slots, heads, lens, 0, x);
    Ok(())
}

/// Makes free slots until there are so many. Without memory for all, some of them are there.
pub fn grow<T: Drop>(
    slots: &mut Vec<Slot<T>>,
    heads: &[usize],
    lens: &mut [usize],
    count: usize,
) -> Result<(), OutOfMemory>
    requires linked { AreLinked slots.old.items heads.now lens.old }
    ensures linked { AreLinked slots.new.items heads.now lens.new }
    ensures lists { lists_in slots.new.items heads.now lens.new ≡ lists_in slots.old.items heads.now lens.old }
    ensures ok { OnOk result (count ≤ at lens.new 0) }
    ensures more { at lens.old 0 ≤ at lens.new 0 }
    ensures succeeds { count ≤ at lens.old 0 → IsOk result }
    ensures numbered { (n : ℕ) → AreNumbered (cells slots.old.items) n → AreNumbered (cells slots.new.items) n }
{
    'slots: while lens[0] < count {
        add_free(slots, heads, lens)?;
    }
    Ok(())
}

/// Makes one more ring, without slots. Where memory runs out, all is as before.
pub fn add_ring<T: Drop>(
    slots: &mut Vec<Slot<T>>,
    heads: &mut Vec<usize>,
    lens: &mut Vec<usize>,
) -> Result<(), OutOfMemory>
    requires linked { AreLinked slots.old.items heads.old.items lens.old.items }
    ensures linked { AreLinked slots.new.items heads.new.items lens.new.items }
    ensures ok { OnOk result (lists_in slots.new.items heads.new.items lens.new.items ≡ lists_in slots.old.items heads.old.items lens.old.items ++ [] ∷ []) }
    ensures err { OnErr result (lists_in slots.new.items heads.new.items lens.new.items ≡ lists_in slots.old.items heads.old.items lens.old.items) }
    ensures free { at lens.new.items 0 ≡ at lens.old.items 0 }
    ensures numbered { (n : ℕ) → AreNumbered (cells slots.old.items) n → AreNumbered (cells slots.new.items) n }
{
    let head = slots.len();
    if head + 1 >= MOST_SLOTS {
        return Err(OutOfMemory);
    }
    let ring = heads.len();
    heads.push(head)?;
    if lens.push(0).is_err() {
        heads.pop();
        return Err(OutOfMemory);
    }
    if slots.push(lone_slot(head, ring)).is_err() {
        heads.pop();
        lens.pop();
        return Err(OutOfMemory);
    }
    Ok(())
}
