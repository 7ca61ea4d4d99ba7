ghost use Rattle.std.specs.Prelude.{◌≡◌, ◌≢◌, ◌≤◌, ℕ, List, [], ◌∷◌, ◌++◌, position, OnOk, OnErr};
ghost use Rattle.std.specs.Str.{bytes_eq};
ghost use Rattle.edge_traits.specs.Count.{count_sum};
ghost use Rattle.edge_traits.specs.Shelf.{count_on, IsListed};
ghost use Rattle.system_run.specs.Counts.{untold};

use base_types::{OutOfMemory, Text};
use std::alloc::Global;
use std::marker::Model;

// A count with faults added. It stands still at its last value.
fn raised(count: u64, faults: u64) -> u64
    ensures sum { result ≡ count_sum count faults }
    ensures grows { count ≤ result }
{
    count.saturating_add(faults)
}

/// Counts of faults by name. Contracts see the names with their counts.
#[derive(Debug, Drop)]
pub struct Counts {
    pairs: Vec<(Text, u64)>,
}

impl Model for Counts {
    ghost use Rattle.std.specs.Prelude.{ℕ, List};

    ghost Value = { List (List ℕ × ℕ) };

    ghost view = { λ c. c.pairs.items };
}

impl Counts {
    /// No name is listed. It takes no memory.
    pub fn new(alloc: Global) -> Self
        ensures { result ≡ [] }
    {
        Counts {
            pairs: Vec::new(alloc),
        }
    }

    /// Lists a name, with the count 0 where it wasn't listed. No count changes.
    pub fn list(&mut self, alloc: Global, name: &Text) -> Result<(), OutOfMemory>
        ensures listed { OnOk result (IsListed (untold self.new) name.now) }
        ensures counts { (other : List ℕ) → count_on (untold self.new) other ≡ count_on (untold self.old) other }
        ensures stay_listed { (other : List ℕ) → IsListed (untold self.old) other → IsListed (untold self.new) other }
    {
        match self.place_of(name) {
            Some(_) => Ok(()),
            None => {
                self.push(name.copy(alloc)?)?;
                Ok(())
            }
        }
    }

    // Puts a name with the count 0 at the end.
    fn push(&mut self, name: Text) -> Result<(), OutOfMemory>
        ensures ok { OnOk result (self.new ≡ self.old ++ (name, 0) ∷ []) }
        ensures err { OnErr result (self.new ≡ self.old) }
    {
        self.pairs.push((name, 0))?;
        Ok(())
    }

    /// Adds faults to the count on a listed name.
    pub fn add(&mut self, name: &Text, faults: u64)
        requires { IsListed (untold self.old) name.now }
        ensures sum { count_on (untold self.new) name.now ≡ count_sum (count_on (untold self.old) name.now) faults }
        ensures count { count_on (untold self.old) name.now ≤ count_on (untold self.new) name.now }
        ensures others { (other : List ℕ) → other ≢ name.now
            → count_on (untold self.new) other ≡ count_on (untold self.old) other }
        ensures stay_listed { (other : List ℕ) → IsListed (untold self.old) other → IsListed (untold self.new) other }
    {
        if let Some(place) = self.place_of(name) {
            let count = &mut self.pairs[place].1;
            *count = raised(*count, faults);
        }
    }

    // Where the name is listed.
    fn place_of(&self, name: &Text) -> Option<usize>
        ensures { result ≡ position (λ pair. bytes_eq name.now pair.0) self.now }
    {
        self.pairs.iter().position(|pair| *name == pair.0)
    }
}
