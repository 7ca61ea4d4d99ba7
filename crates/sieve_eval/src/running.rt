ghost use Rattle.std.specs.Prelude.{◌≡◌};
ghost use Rattle.std.specs.List.{flat_map};
ghost use Rattle.sieve_tree.specs.Fixed.{all_fixed, fixed_in, AreCanonical};
ghost use Rattle.sieve_eval.specs.Holds.{holds};
ghost use Rattle.sieve_eval.specs.Outcome.{IsOutcome};
ghost use Rattle.sieve_eval.specs.Runs.{chosen, run_all, runs};

use crate::fault::EvalFault;
use crate::holding::case_holds;
use crate::putting::put;
use crate::saying::Setting;
use crate::state::{Flow, State, set_paths};
use event_model::Fields;
use sieve_tree::{Case, SieveItem};
use std::alloc::Global;

/// Runs an item.
#[cycle(items)]
pub fn run(
    alloc: Global,
    setting: &mut Setting,
    item: &SieveItem,
    state: &mut State,
) -> Result<Flow, EvalFault>
    requires fixed { AreCanonical (fixed_in item.now) }
    ensures outcome { IsOutcome (runs setting.old.patterns setting.old.moment item.now state.old) result state.new }
    ensures same { setting.new ≡ setting.old }
{
    match item {
        SieveItem::Choice { cases, otherwise } => {
            run_chosen(
                alloc,
                setting,
                cases.as_slice(),
                otherwise.as_slice(),
                state,
            )
        }
        SieveItem::Keep => Ok(Flow::Keep),
        SieveItem::Drop => Ok(Flow::Drop),
        SieveItem::Path { names } => {
            set_paths(alloc, state, names.as_slice())?;
            Ok(Flow::On)
        }
        SieveItem::Put {
            key,
            how,
            source,
            at,
        } => {
            put(alloc, state, key, *how, source, *at)?;
            Ok(Flow::On)
        }
        SieveItem::Remove { key } => {
            state.fields.remove_named(key);
            Ok(Flow::On)
        }
    }
}

/// Runs items one behind the other, up to one that ends the run.
#[cycle(items)]
pub fn run_all(
    alloc: Global,
    setting: &mut Setting,
    items: &[SieveItem],
    state: &mut State,
) -> Result<Flow, EvalFault>
    requires fixed { AreCanonical (all_fixed items.now) }
    ensures outcome { IsOutcome (run_all setting.old.patterns setting.old.moment items.now state.old) result state.new }
    ensures same { setting.new ≡ setting.old }
{
    'items: for item in items {
        match run(alloc, setting, item, state) {
            Ok(Flow::On) => {}
            Ok(Flow::Keep) => return Ok(Flow::Keep),
            Ok(Flow::Drop) => return Ok(Flow::Drop),
            Err(fault) => return Err(fault),
        }
    }
    Ok(Flow::On)
}

// Runs the items of the first case whose condition holds, else the others.
#[cycle(items)]
fn run_chosen(
    alloc: Global,
    setting: &mut Setting,
    cases: &[Case],
    otherwise: &[SieveItem],
    state: &mut State,
) -> Result<Flow, EvalFault>
    requires cases { AreCanonical (flat_map (λ case. all_fixed case.1) cases.now) }
    requires otherwise { AreCanonical (all_fixed otherwise.now) }
    ensures outcome { IsOutcome (run_all setting.old.patterns setting.old.moment (chosen (holds setting.old.patterns setting.old.moment state.old.fields) cases.now otherwise.now) state.old) result state.new }
    ensures same { setting.new ≡ setting.old }
{
    'cases: for case in cases {
        match case_holds(alloc, setting, &state.fields, &case.0) {
            Ok(true) => return run_all(alloc, setting, case.1.as_slice(), state),
            Ok(false) => {}
            Err(_) => return Err(EvalFault::OutOfMemory),
        }
    }
    // Most choices have no `else`.
    if otherwise.is_empty() {
        return Ok(Flow::On);
    }
    run_all(alloc, setting, otherwise, state)
}
