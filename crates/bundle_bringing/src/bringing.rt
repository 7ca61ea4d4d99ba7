ghost use Rattle.std.specs.Prelude.{◌≡◌, ◌≤◌, ℕ, List, true, Some, Ok, Err, IfOk, IsSome};
ghost use Rattle.std.specs.Option.{option_copied};
ghost use Rattle.edge_traits.specs.Count.{Rose};
ghost use Rattle.edge_traits.specs.Shelf.{count_on, lacks};
ghost use Rattle.bot_rules.specs.Intel.{intel};
ghost use Rattle.config_bundle.specs.Bundle.{bundle_code, IsBundle};
ghost use Rattle.runtime_config.specs.Load.{load as loaded};
ghost use Rattle.bundle_bringing.specs.Brought.{Brings, Names};
ghost use Rattle.runtime_config.specs.declared.fault.LoadFault.TheVariants as fault;

use base_types::{Blob, OutOfMemory, Text};
use bundle_fetch::{BundleFault, bundle_of};
use config_bundle::{Bundle, bundle_code};
use edge_traits::Shelf;
use runtime_config::{LoadFault, Plan, load};
use std::alloc::Global;

/// Why there is no bundle of a name.
#[derive(Debug, Drop, PartialEq)]
pub enum Unbrought {
    /// The shelf has no file of this name, that of the bundle or one that it names.
    Absent { name: Text },
    /// The file of this name couldn't be fetched or read.
    Failed { name: Text },
    /// The bundle has this fault, its first.
    Config(LoadFault),
    OutOfMemory,
}

fn plan_of(alloc: Global, bundle: &Bundle) -> Result<Plan, Unbrought>
    ensures ok { IfOk result (λ plan. loaded bundle.now ≡ Ok plan) }
    ensures config { (fault : LoadFault) → result ≡ Err (Unbrought.Config fault) → loaded bundle.now ≡ Err fault }
    ensures absent { (name : List ℕ) → result ≡ Err (Unbrought.Absent name) → ⊥ }
    ensures failed { (name : List ℕ) → result ≡ Err (Unbrought.Failed name) → ⊥ }
{
    match load(alloc, bundle) {
        Ok(plan) => Ok(plan),
        Err(LoadFault::OutOfMemory) => Err(Unbrought::OutOfMemory),
        Err(fault) => Err(Unbrought::Config(fault)),
    }
}

/// The bundle of this name on the shelf, with its plan.
///
/// # Errors
///
/// `Absent` with the first name of which the shelf has no file, `Failed` where fetching or reading one failed, `Config` with the
/// first fault of the bundle, or `OutOfMemory`.
pub fn bring<H: Shelf>(
    alloc: Global,
    shelf: &mut H,
    name: &Text,
) -> Result<(Bundle, Plan), Unbrought>
    ensures brought { Brings (H.shelf shelf.old) name.now result }
    ensures coded { IfOk result (λ found. IsBundle found.0) }
    ensures loads { IfOk result (λ found. loaded found.0 ≡ Ok found.1) }

    // What was fetched lacks no file that a bot is given.
    ensures complete { (bot : List ℕ) → result ≡ Err (Unbrought.Config (fault.File bot)) → ⊥ }
    ensures absent { (other : List ℕ) → result ≡ Err (Unbrought.Absent other) → lacks (H.shelf shelf.old) other ≡ true }
    ensures failed { (other : List ℕ) → result ≡ Err (Unbrought.Failed other) → Rose (count_on (H.shelf shelf.old) other) (count_on (H.shelf shelf.new) other) }
    ensures told { (H.shelf shelf.new).told ≡ (H.shelf shelf.old).told }
    ensures counts { (other : List ℕ) → count_on (H.shelf shelf.old) other ≤ count_on (H.shelf shelf.new) other }
{
    match bundle_of(alloc, shelf, name) {
        Ok(bundle) => match plan_of(alloc, &bundle) {
            Ok(plan) => Ok((bundle, plan)),
            Err(why) => Err(why),
        },
        Err(BundleFault::Absent { name }) => Err(Unbrought::Absent { name }),
        Err(BundleFault::Failed { name }) => Err(Unbrought::Failed { name }),
        Err(BundleFault::OutOfMemory) => Err(Unbrought::OutOfMemory),
    }
}

/// The code of a bundle that loads.
///
/// # Errors
///
/// There was no memory.
pub fn code_of(alloc: Global, bundle: &Bundle, plan: &Plan) -> Result<Blob, OutOfMemory>
    requires coded { IsBundle bundle.now }
    requires loads { loaded bundle.now ≡ Ok plan.now }
    ensures code { IfOk result (λ code. code ≡ bundle_code bundle.now) }
    ensures facts { IfOk result (λ code. IsSome (intel.facts code)) }
{
    let _ = plan;
    bundle_code(alloc, bundle)
}

/// The code of the bundle of this name, where one is named.
///
/// # Errors
///
/// As of `bring`.
pub fn bring_code<H: Shelf>(
    alloc: Global,
    shelf: &mut H,
    name: Option<&Text>,
) -> Result<Option<Blob>, Unbrought>
    ensures named { Names (H.shelf shelf.old) (option_copied name.entry) result }
    ensures loads { (code : List ℕ) → result ≡ Ok (Some code) → IsSome (intel.facts code) }
    ensures absent { (other : List ℕ) → result ≡ Err (Unbrought.Absent other) → lacks (H.shelf shelf.old) other ≡ true }
    ensures failed { (other : List ℕ) → result ≡ Err (Unbrought.Failed other) → Rose (count_on (H.shelf shelf.old) other) (count_on (H.shelf shelf.new) other) }
    ensures told { (H.shelf shelf.new).told ≡ (H.shelf shelf.old).told }
    ensures counts { (other : List ℕ) → count_on (H.shelf shelf.old) other ≤ count_on (H.shelf shelf.new) other }
{
    let Some(name) = name else {
        return Ok(None);
    };
    match bring(alloc, shelf, name) {
        Ok((bundle, plan)) => match code_of(alloc, &bundle, &plan) {
            Ok(code) => Ok(Some(code)),
            Err(OutOfMemory) => Err(Unbrought::OutOfMemory),
        },
        Err(why) => Err(why),
    }
}
