ghost use Rattle.std.specs.Prelude.{◌≡◌, ◌≢◌, ◌≤◌, ◌⊎◌, List, ℕ, true, Some, IfOk, OnOk, IsErrOf};
ghost use Rattle.edge_traits.specs.Count.{Rose, count_sum};
ghost use Rattle.edge_traits.specs.Shelf.{ShelfView, count_on, content_of, lacks, IsListed};

use crate::Source;
use base_types::Text;
use std::alloc::Global;

/// Why a file wasn't fetched.
#[derive(Clone, Copy, Debug, PartialEq, Eq)]
pub enum ShelfFault {
    /// The shelf has nothing under the name.
    Absent,
    Failed,
    OutOfMemory,
}

/// Named files. A file is fetched, read and given back. The shelf has a count of faults for each name, and what a
/// fetched source counts comes to its name when the source is given back.
pub trait Shelf {
    /// What is fetched. It can't be dropped, so that each source is given back.
    type Src: Source;

    ghost shelf: { Self → ShelfView };

    /// Fetches the file of this name. A shelf that doesn't tell what it has never answers `Absent`.
    fn fetch(&mut self, alloc: Global, name: &Text) -> Result<Self::Src, ShelfFault>
        ensures absent { IsErrOf result ShelfFault.Absent → lacks (shelf self.old) name.now ≡ true }
        ensures lacking { lacks (shelf self.old) name.now ≡ true
            → IsErrOf result ShelfFault.Absent ⊎ IsErrOf result ShelfFault.OutOfMemory }
        ensures failed { IsErrOf result ShelfFault.Failed
            → Rose (count_on (shelf self.old) name.now) (count_on (shelf self.new) name.now) }

        // The source has the name and the content, and no fault yet.
        ensures name { IfOk result (λ src. (Self.Src.source src).name ≡ Some name.now) }
        ensures content { (content : List ℕ) → content_of (shelf self.old) name.now ≡ Some content
            → IfOk result (λ src. (Self.Src.source src).told ≡ Some content) }
        ensures no_fault { IfOk result (λ src. (Self.Src.source src).faults ≡ 0) }

        ensures told { (shelf self.new).told ≡ (shelf self.old).told }
        ensures count { count_on (shelf self.old) name.now ≤ count_on (shelf self.new) name.now }
        ensures other_counts { (other : List ℕ) → other ≢ name.now
            → count_on (shelf self.new) other ≡ count_on (shelf self.old) other }
        ensures listed { OnOk result (IsListed (shelf self.new) name.now) }
        ensures stay_listed { (other : List ℕ) → IsListed (shelf self.old) other → IsListed (shelf self.new) other };

    /// Takes a fetched source back under its name, and adds its count of faults to that of the name. It takes no
    /// memory.
    fn take_back(&mut self, name: &Text, source: Self::Src)
        requires fetched { (Self.Src.source source).name ≡ Some name.now }
        requires listed { IsListed (shelf self.old) name.now }

        ensures sum { count_on (shelf self.new) name.now
            ≡ count_sum (count_on (shelf self.old) name.now) (Self.Src.source source).faults }
        ensures count { count_on (shelf self.old) name.now ≤ count_on (shelf self.new) name.now }
        ensures other_counts { (other : List ℕ) → other ≢ name.now
            → count_on (shelf self.new) other ≡ count_on (shelf self.old) other }
        ensures told { (shelf self.new).told ≡ (shelf self.old).told }
        ensures stay_listed { (other : List ℕ) → IsListed (shelf self.old) other → IsListed (shelf self.new) other };
}
