ghost use Rattle.std.specs.Prelude.{◌≡◌, [], ◌∷◌, ◌++◌, OnOk};

use base_types::{ListOf, OutOfMemory};

/// Puts an item at the end. Without memory for it, it is dropped: here, so that the drop is proved once for all types, and not
/// at each call over all variants of the item's.
pub fn push<T: Drop>(list: &mut ListOf<T>, item: T) -> Result<(), OutOfMemory>
    ensures { OnOk result (list.new ≡ list.old ++ item ∷ []) }
{
    match list.push(item) {
        Ok(()) => Ok(()),
        Err((e, _)) => Err(e),
    }
}
