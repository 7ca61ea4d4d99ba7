//! Laws of the lists. Each is a clause of a function that does nothing.
ghost use Rattle.std.specs.Prelude.{◌≡◌, ◌<◌};
ghost use Rattle.link_store.specs.Links.{Item, Place, StandsAt};

use crate::links::Links;

/// Each item's number was given, and no two items have one: a node names one place.
pub fn numbers_differ<T>(links: &Links<T>)
    ensures given { (item : Item T) (place : Place T) → StandsAt item place links.now → item.node.number < links.now.pushed }
    ensures once { (one two : Item T) (here there : Place T) → StandsAt one here links.now → StandsAt two there links.now → one.node.number ≡ two.node.number → here ≡ there }
{
    let _ = &links.slots;
}
