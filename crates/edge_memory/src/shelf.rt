ghost use Rattle.std.specs.Prelude.{◌≡◌, ◌≢◌, ◌≤◌, ◌⊎◌, [], List, ℕ, true, false, position, Some, IfOk, OnOk, OnErr, IsErrOf, IsTrue};
ghost use Rattle.std.specs.Str.{bytes_eq};
ghost use Rattle.edge_traits.specs.Count.{Rose, count_sum};
ghost use Rattle.edge_traits.specs.Shelf.{count_on, content_of, lacks, IsListed};

use crate::MemSource;
use crate::calls::CallCount;
use base_types::{Blob, NumberList, OutOfMemory, Text};
use edge_traits::{Shelf, ShelfFault};
use std::alloc::Global;
use std::mem;

#[derive(Debug, Drop)]
struct Held {
    name: Text,
    content: Blob,
    reads_to_fail: NumberList,
    faults: u64,
}

/// A shelf of files in memory.
#[derive(Debug, Drop)]
pub struct MemShelf {
    held: Vec<Held>,
    calls: CallCount,
}

fn place_of(held: &[Held], name: &Text) -> Option<usize>
    ensures { result ≡ position (λ h. bytes_eq name.now h.name) held.now }
{
    held.iter().position(|h| *name == h.name)
}

fn copies_of(alloc: Global, held: &Held) -> Result<(Text, Blob), OutOfMemory>
    ensures name { IfOk result (λ copies. copies.0 ≡ held.now.name) }
    ensures content { IfOk result (λ copies. copies.1 ≡ held.now.content) }
{
    let name = held.name.copy(alloc)?;
    let content = held.content.copy(alloc)?;
    Ok((name, content))
}

impl MemShelf {
    ghost use Rattle.edge_memory.specs.Shelf.{shelf_view, fetches_of, reads_to_fail};

    /// An empty shelf. Its fetches with these numbers, from 1, are to fail.
    pub fn new(alloc: Global, fail: NumberList) -> Self
        ensures shelf { ⟦<MemShelf as Shelf>⟧.shelf result ≡ record { counts = []; told = Some [] } }
        ensures fetches { fetches_of result ≡ record { made = 0; fail = fail } }
    {
        MemShelf {
            held: Vec::new(alloc),
            calls: CallCount::new(fail),
        }
    }

    /// Puts a file under a name, in place of one that is there. Of the first source that is fetched of it, the reads
    /// with these numbers, from 1, are to fail. Without memory for it, the shelf stays as it is.
    pub fn put(
        &mut self,
        alloc: Global,
        name: &Text,
        content: &Blob,
        fail: NumberList,
    ) -> Result<(), OutOfMemory>
        ensures content { OnOk result (content_of (shelf_view self.new) name.now ≡ Some content.now) }
        ensures reads { OnOk result (reads_to_fail self.new name.now ≡ fail) }
        ensures listed { OnOk result (IsListed (shelf_view self.new) name.now) }
        ensures counts { (any : List ℕ) → count_on (shelf_view self.new) any ≡ count_on (shelf_view self.old) any }

        ensures other_contents { (other : List ℕ) → other ≢ name.now
            → content_of (shelf_view self.new) other ≡ content_of (shelf_view self.old) other }
        ensures other_lacks { (other : List ℕ) → other ≢ name.now
            → lacks (shelf_view self.new) other ≡ lacks (shelf_view self.old) other }
        ensures other_reads { (other : List ℕ) → other ≢ name.now
            → reads_to_fail self.new other ≡ reads_to_fail self.old other }
        ensures stay_listed { (any : List ℕ) → IsListed (shelf_view self.old) any
            → IsListed (shelf_view self.new) any }

        ensures fetches { fetches_of self.new ≡ fetches_of self.old }
        ensures err { OnErr result (shelf_view self.new ≡ shelf_view self.old) }
        ensures err_reads { OnErr result (reads_to_fail self.new name.now ≡ reads_to_fail self.old name.now) }
    {
        let content = content.copy(alloc)?;
        match place_of(&self.held, name) {
            Some(i) => {
                let held = &mut self.held[i];
                held.content = content;
                held.reads_to_fail = fail;
                Ok(())
            }
            None => {
                let held = Held {
                    name: name.copy(alloc)?,
                    content,
                    reads_to_fail: fail,
                    faults: 0,
                };
                self.held.push(held)?;
                Ok(())
            }
        }
    }

    /// The count of faults on a name.
    pub fn faults(&self, name: &Text) -> u64
        ensures { result ≡ count_on (shelf_view self.now) name.now }
    {
        match place_of(&self.held, name) {
            Some(i) => self.held[i].faults,
            None => 0,
        }
    }
}

impl Shelf for MemShelf {
    ghost use Rattle.edge_memory.specs.Calls.{counted, is_to_fail, faults_after};
    ghost use Rattle.edge_memory.specs.Source.{source_view, reads_of};
    ghost use Rattle.edge_memory.specs.Shelf.{shelf_view, fetches_of, reads_to_fail, has_failed};

    type Src = MemSource;

    ghost shelf = { shelf_view };

    fn fetch(&mut self, alloc: Global, name: &Text) -> Result<MemSource, ShelfFault>
        ensures absent { IsErrOf result ShelfFault.Absent → lacks (shelf_view self.old) name.now ≡ true }
        ensures lacking { lacks (shelf_view self.old) name.now ≡ true
            → IsErrOf result ShelfFault.Absent ⊎ IsErrOf result ShelfFault.OutOfMemory }
        ensures failed { IsErrOf result ShelfFault.Failed
            → Rose (count_on (shelf_view self.old) name.now) (count_on (shelf_view self.new) name.now) }
        ensures name { IfOk result (λ src. (source_view src).name ≡ Some name.now) }
        ensures content { (content : List ℕ) → content_of (shelf_view self.old) name.now ≡ Some content
            → IfOk result (λ src. (source_view src).told ≡ Some content) }
        ensures no_fault { IfOk result (λ src. (source_view src).faults ≡ 0) }
        ensures told { (shelf_view self.new).told ≡ (shelf_view self.old).told }
        ensures count { count_on (shelf_view self.old) name.now ≤ count_on (shelf_view self.new) name.now }
        ensures other_counts { (other : List ℕ) → other ≢ name.now
            → count_on (shelf_view self.new) other ≡ count_on (shelf_view self.old) other }
        ensures listed { OnOk result (IsListed (shelf_view self.new) name.now) }
        ensures stay_listed { (other : List ℕ) → IsListed (shelf_view self.old) other
            → IsListed (shelf_view self.new) other }

        // Of a file that is there, a fetch fails where it was told to, and nowhere else.
        ensures as_told { IsTrue (is_to_fail (fetches_of self.old)) → lacks (shelf_view self.old) name.now ≡ false
            → IsErrOf result ShelfFault.Failed }
        ensures only_as_told { IsErrOf result ShelfFault.Failed → IsTrue (is_to_fail (fetches_of self.old)) }
        ensures fetches { fetches_of self.new ≡ counted (fetches_of self.old) }
        ensures faults { count_on (shelf_view self.new) name.now
            ≡ faults_after (has_failed result) (count_on (shelf_view self.old) name.now) }

        // The first source has the reads that are to fail.
        ensures reads { IfOk result (λ src. reads_of src ≡ record { made = 0; fail = reads_to_fail self.old name.now }) }
        ensures reads_once { OnOk result (reads_to_fail self.new name.now ≡ []) }
        ensures other_reads { (other : List ℕ) → other ≢ name.now
            → reads_to_fail self.new other ≡ reads_to_fail self.old other }
        ensures reads_stay { OnErr result (reads_to_fail self.new name.now ≡ reads_to_fail self.old name.now) }
    {
        let fails = self.calls.next_fails();
        let Some(i) = place_of(&self.held, name) else {
            return Err(ShelfFault::Absent);
        };
        let held = &mut self.held[i];
        if fails {
            held.faults = held.faults.saturating_add(1);
            return Err(ShelfFault::Failed);
        }
        let Ok((name, content)) = copies_of(alloc, held) else {
            return Err(ShelfFault::OutOfMemory);
        };
        let reads_to_fail = mem::replace(&mut held.reads_to_fail, NumberList::new(alloc));
        Ok(MemSource::fetched(name, content, reads_to_fail))
    }

    fn take_back(&mut self, name: &Text, source: MemSource)
        requires fetched { (source_view source).name ≡ Some name.now }
        requires listed { IsListed (shelf_view self.old) name.now }
        ensures sum { count_on (shelf_view self.new) name.now
            ≡ count_sum (count_on (shelf_view self.old) name.now) (source_view source).faults }
        ensures count { count_on (shelf_view self.old) name.now ≤ count_on (shelf_view self.new) name.now }
        ensures other_counts { (other : List ℕ) → other ≢ name.now
            → count_on (shelf_view self.new) other ≡ count_on (shelf_view self.old) other }
        ensures told { (shelf_view self.new).told ≡ (shelf_view self.old).told }
        ensures stay_listed { (other : List ℕ) → IsListed (shelf_view self.old) other
            → IsListed (shelf_view self.new) other }

        // No fetch is counted, and the reads that are to fail stay.
        ensures fetches { fetches_of self.new ≡ fetches_of self.old }
        ensures reads { (any : List ℕ) → reads_to_fail self.new any ≡ reads_to_fail self.old any }
    {
        let faults = source.into_faults();
        if let Some(i) = place_of(&self.held, name) {
            let held = &mut self.held[i];
            held.faults = held.faults.saturating_add(faults);
        }
    }
}
