ghost use Rattle.std.specs.Prelude.{◌≡◌, [], IfOk};
ghost use Rattle.sieve_tree.specs.Fixed.{all_fixed, AreCanonical};

use crate::copying::{copy_items, copy_spots, copy_texts};
use crate::tree::SieveItemList;
use base_types::{ListOf, OutOfMemory, Text, TextList};
use std::alloc::Global;
use std::marker::Model;

/// Path names with their offsets.
pub type PathList<'s> = &'s [(Text, u32)];

/// As `PathList`, in a list.
pub type PathSpots = ListOf<(Text, u32)>;

/// A sieve: its items, the texts of its patterns in the order in which they are written, and its paths.
#[derive(Debug, Drop)]
pub struct Sieve {
    items: SieveItemList,
    patterns: TextList,
    paths: PathSpots,
}

impl Model for Sieve {
    ghost use Rattle.std.specs.Coded.{codes};
    ghost use Rattle.sieve_tree.specs.Fixed.{all_fixed, AreCanonical};
    ghost use Rattle.sieve_tree.specs.SieveView.{SieveView};
    ghost use Rattle.sieve_tree.specs.contracts.tree.SieveItem as items_code;

    ghost Value = { SieveView };

    ghost coded = { Prim.hlevel (codes, items_code.the_row.coded) };

    ghost view = { λ s. record { items = s.items; patterns = s.patterns; paths = s.paths } };

    ghost invariant = { λ s. AreCanonical (all_fixed s.items) };
}

impl Sieve {
    /// The sieve of an empty text.
    pub fn new(alloc: Global) -> Sieve
        ensures { result ≡ record { items = []; patterns = []; paths = [] } }
    {
        Sieve {
            items: SieveItemList::new(alloc),
            patterns: TextList::new(alloc),
            paths: PathSpots::new(alloc),
        }
    }

    /// The sieve of these parts.
    pub fn of(items: SieveItemList, patterns: TextList, paths: PathSpots) -> Sieve
        requires { AreCanonical (all_fixed items) }
        ensures { result ≡ record { items = items; patterns = patterns; paths = paths } }
    {
        Sieve {
            items,
            patterns,
            paths,
        }
    }

    /// Its items, in the order in which they are written. Each value that they set as it stands is canonical for its field.
    pub fn items(&self) -> &SieveItemList
        ensures items { result.now ≡ self.now.items }
        ensures fixed { AreCanonical (all_fixed result.now) }
    {
        &self.items
    }

    /// The texts behind `=~` and `!~`, one for each sign.
    pub fn patterns(&self) -> &TextList
        ensures { result.now ≡ self.now.patterns }
    {
        &self.patterns
    }

    /// The path names, with the offsets at which they stand.
    pub fn paths(&self) -> PathList<'_>
        ensures { result.now ≡ self.now.paths }
    {
        self.paths.as_slice()
    }

    pub fn copy(&self, alloc: Global) -> Result<Sieve, OutOfMemory>
        ensures { IfOk result (λ sieve. sieve ≡ self.now) }
    {
        Ok(Sieve {
            items: copy_items(alloc, self.items.as_slice())?,
            patterns: copy_texts(alloc, self.patterns.as_slice())?,
            paths: copy_spots(alloc, self.paths.as_slice())?,
        })
    }
}
