//! One file of a bundle.
ghost use Rattle.std.specs.Prelude.{◌≡◌, ◌≢◌, ◌≤◌, List, ℕ, length, true, Some, Err, IfOk};
ghost use Rattle.edge_traits.specs.Count.{Rose};
ghost use Rattle.edge_traits.specs.Named.{find_named};
ghost use Rattle.edge_traits.specs.Shelf.{count_on, lacks};
ghost use Rattle.bundle_fetch.specs.Front.{IsFrontOf, IsShelfFault};

use crate::BundleFault;
use base_types::{Blob, OutOfMemory, Text};
use edge_traits::{Shelf, ShelfFault};
use feed_reader::{ReaderFault, read_front};
use std::alloc::Global;

fn failed(alloc: Global, name: &Text) -> BundleFault
    ensures { IsShelfFault ShelfFault.Failed name.now result }
{
    match name.copy(alloc) {
        Ok(name) => BundleFault::Failed { name },
        Err(OutOfMemory) => BundleFault::OutOfMemory,
    }
}

// What comes of a fault of the shelf at the file of this name.
fn of_shelf(alloc: Global, name: &Text, fault: ShelfFault) -> BundleFault
    ensures { IsShelfFault fault name.now result }
{
    match fault {
        ShelfFault::Absent => match name.copy(alloc) {
            Ok(name) => BundleFault::Absent { name },
            Err(OutOfMemory) => BundleFault::OutOfMemory,
        },
        ShelfFault::Failed => failed(alloc, name),
        ShelfFault::OutOfMemory => BundleFault::OutOfMemory,
    }
}

/// The first bytes of the file of this name: so many, or all where it has fewer.
pub(crate) fn fetch_front<H: Shelf>(
    alloc: Global,
    shelf: &mut H,
    name: &Text,
    most: usize,
) -> Result<Blob, BundleFault>
    ensures front { (files : List (List ℕ × List ℕ)) → (H.shelf shelf.old).told ≡ Some files → IsFrontOf (find_named name.now files) most name.now result }
    ensures within { IfOk result (λ front. length front ≤ most) }
    ensures absent { (other : List ℕ) → result ≡ Err (BundleFault.Absent other) → lacks (H.shelf shelf.old) other ≡ true }
    ensures failed { (other : List ℕ) → result ≡ Err (BundleFault.Failed other) → Rose (count_on (H.shelf shelf.old) other) (count_on (H.shelf shelf.new) other) }
    ensures told { (H.shelf shelf.new).told ≡ (H.shelf shelf.old).told }
    ensures counts { (other : List ℕ) → count_on (H.shelf shelf.old) other ≤ count_on (H.shelf shelf.new) other }
    ensures other_counts { (other : List ℕ) → other ≢ name.now → count_on (H.shelf shelf.new) other ≡ count_on (H.shelf shelf.old) other }
{
    let mut source = match shelf.fetch(alloc, name) {
        Ok(source) => source,
        Err(fault) => return Err(of_shelf(alloc, name, fault)),
    };
    let front = read_front(alloc, &mut source, most);
    shelf.take_back(name, source);
    match front {
        Ok(front) => Ok(Blob::from(front)),
        Err(ReaderFault::Failed) => Err(failed(alloc, name)),
        Err(ReaderFault::OutOfMemory) => Err(BundleFault::OutOfMemory),
    }
}
