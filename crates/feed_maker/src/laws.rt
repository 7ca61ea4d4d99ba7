//! Laws of the drill's shelf.
ghost use Rattle.std.specs.Prelude.{◌≡◌, List, ℕ};
ghost use Rattle.edge_traits.specs.Shelf.{count_on};

use crate::DrillShelf;
use edge_traits::Shelf;

/// No fetch of a drill's shelf and no read of its feed has ever failed.
pub fn drills_never_fail(shelf: &DrillShelf)
    ensures { (name : List ℕ) → count_on (⟦<DrillShelf as Shelf>⟧.shelf shelf.now) name ≡ 0 }
{}
