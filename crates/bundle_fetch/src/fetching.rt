ghost use Rattle.std.specs.Prelude.{◌≡◌, ◌≤◌, ◌++◌, ◌∷◌, [], List, ℕ, map, true, Some, Err, IfOk, IsUtf8, OnOk};
ghost use Rattle.std.specs.List.{AllByRecursion};
ghost use Rattle.base_types.specs.Lists.{IsIn};
ghost use Rattle.config_bundle.specs.Bundle.{IsBundle};
ghost use Rattle.edge_traits.specs.Count.{Rose};
ghost use Rattle.edge_traits.specs.Shelf.{count_on, lacks};
ghost use Rattle.bundle_fetch.specs.Fetch.{bundle_from, files_from, names_from, IsFetched};
ghost use Rattle.bundle_fetch.specs.Front.{IsKeptFile};
ghost use Rattle.runtime_text.specs.Named.{named_files};

use crate::BundleFault;
use crate::front::fetch_front;
use base_types::{Blob, NamedList, OutOfMemory, Text, TextList};
use config_bundle::{Bundle, LONGEST_FILE, LONGEST_RUNTIME};
use edge_traits::Shelf;
use runtime_text::named_files;
use std::alloc::Global;

// One byte more is kept than a runtime text and a file may have, so that it shows that they are longer.
const KEPT_RUNTIME: usize = LONGEST_RUNTIME + 1;

const KEPT_FILE: usize = LONGEST_FILE + 1;

// So many files have no code.
const MOST_FILES: usize = 0x1_0000_0000;

fn push_file(
    alloc: Global,
    files: &mut NamedList,
    name: &Text,
    content: Blob,
) -> Result<(), OutOfMemory>
    ensures pushed { OnOk result (files.new ≡ files.old ++ (name.now, content) ∷ []) }
    ensures text { IsUtf8 name.now }
{
    let name = Text::from(String::from_str(alloc, name.as_str())?);
    match files.push((name, content)) {
        Ok(()) => Ok(()),
        Err(_) => Err(OutOfMemory),
    }
}

// The files of these names.
fn fetch_files<H: Shelf>(
    alloc: Global,
    shelf: &mut H,
    names: &TextList,
) -> Result<NamedList, BundleFault>
    ensures files { (files : List (List ℕ × List ℕ)) → (H.shelf shelf.old).told ≡ Some files → IsFetched (files_from files names.now) result }
    ensures names { IfOk result (λ files. map (λ f. f.0) files ≡ names.now) }
    ensures each { IfOk result (AllByRecursion IsKeptFile) }
    ensures absent { (other : List ℕ) → result ≡ Err (BundleFault.Absent other) → lacks (H.shelf shelf.old) other ≡ true }
    ensures failed { (other : List ℕ) → result ≡ Err (BundleFault.Failed other) → Rose (count_on (H.shelf shelf.old) other) (count_on (H.shelf shelf.new) other) }
    ensures told { (H.shelf shelf.new).told ≡ (H.shelf shelf.old).told }
    ensures counts { (other : List ℕ) → count_on (H.shelf shelf.old) other ≤ count_on (H.shelf shelf.new) other }
    ensures other_counts { (other : List ℕ) → (IsIn other names.now → ⊥) → count_on (H.shelf shelf.new) other ≡ count_on (H.shelf shelf.old) other }
{
    let mut files = NamedList::new(alloc);
    'names: for name in names.as_slice() {
        match fetch_front(alloc, shelf, name, KEPT_FILE) {
            Ok(content) => push_file(alloc, &mut files, name, content)?,
            Err(fault) => return Err(fault),
        }
    }
    Ok(files)
}

/// The bundle whose runtime text is the file of this name: with it the files that it names are fetched, in byte order of
/// their names. Of a runtime text the first 1,048,577 bytes are kept, and of each other file the first 4,194,305. Each file is
/// given back.
///
/// # Errors
///
/// `Absent` with the first name of which the shelf has no file. `Failed` where fetching or reading one failed. `OutOfMemory`.
pub fn bundle_of<H: Shelf>(alloc: Global, shelf: &mut H, name: &Text) -> Result<Bundle, BundleFault>
    // Where the shelf tells what it has: the bundle, or the first name that it lacks.
    ensures fetched { (files : List (List ℕ × List ℕ)) → (H.shelf shelf.old).told ≡ Some files → IsFetched (bundle_from files name.now) result }

    // The bundle has a code.
    ensures coded { IfOk result IsBundle }

    // It has the files that its runtime text names, and no others.
    ensures named { IfOk result (λ bundle. map (λ f. f.0) bundle.files ≡ named_files bundle.runtime) }

    // A name is absent only where the shelf tells that it lacks it, and a fault of the shelf shows in the count on the name.
    ensures absent { (other : List ℕ) → result ≡ Err (BundleFault.Absent other) → lacks (H.shelf shelf.old) other ≡ true }
    ensures failed { (other : List ℕ) → result ≡ Err (BundleFault.Failed other) → Rose (count_on (H.shelf shelf.old) other) (count_on (H.shelf shelf.new) other) }

    // What stays.
    ensures told { (H.shelf shelf.new).told ≡ (H.shelf shelf.old).told }
    ensures counts { (other : List ℕ) → count_on (H.shelf shelf.old) other ≤ count_on (H.shelf shelf.new) other }
    ensures other_counts { (files : List (List ℕ × List ℕ)) (other : List ℕ) → (H.shelf shelf.old).told ≡ Some files → (IsIn other (names_from files name.now) → ⊥)
        → count_on (H.shelf shelf.new) other ≡ count_on (H.shelf shelf.old) other }
{
    // By `match`, since what an error's clauses say gets lost behind a `?`.
    let runtime = match fetch_front(alloc, shelf, name, KEPT_RUNTIME) {
        Ok(runtime) => runtime,
        Err(fault) => return Err(fault),
    };
    let names = named_files(alloc, runtime.bytes())?;
    // A runtime text names no more files than it has bytes, so that there is no such list.
    if names.len() >= MOST_FILES {
        return Err(BundleFault::OutOfMemory);
    }
    match fetch_files(alloc, shelf, &names) {
        Ok(files) => Ok(Bundle { runtime, files }),
        Err(fault) => Err(fault),
    }
}
