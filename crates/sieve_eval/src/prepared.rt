ghost use Rattle.std.specs.Prelude.{◌≡◌, IfOk};
ghost use Rattle.sieve_eval.specs.Outcome.{dropped, ended_of, forwarded};
ghost use Rattle.sieve_eval.specs.Verdicts.{verdict, IsVerdict};

use crate::fault::EvalFault;
use crate::memo::{AddressMemo, TimeMemo};
use crate::pattern::Patterns;
use crate::running::run_all;
use crate::saying::Setting;
use crate::state::{Flow, State, at_first};
use crate::verdict::{Fate, Verdict};
use base_types::{Moment, OutOfMemory};
use event_model::{Fields, PlaceHint};
use sieve_tree::Sieve;
use std::alloc::Global;
use std::marker::Model;

/// A sieve with its patterns built. It has its own copy of the sieve. Contracts see the sieve.
#[derive(Drop)]
pub struct Prepared {
    sieve: Sieve,
    setting: Setting,
}

impl Model for Prepared {
    ghost use Rattle.std.specs.Coded.{codes};
    ghost use Rattle.std.specs.Prelude.{◌≡◌};
    ghost use Rattle.sieve_tree.specs.SieveView.{SieveView};
    ghost use Rattle.sieve_tree.specs.contracts.tree.SieveItem as items_code;

    ghost Value = { SieveView };

    ghost coded = { Prim.hlevel (codes, items_code.the_row.coded) };

    ghost view = { λ p. p.sieve };

    ghost invariant = { λ p. p.setting.patterns ≡ p.sieve.patterns };
}

fn forwarded(state: State) -> Verdict
    ensures { result ≡ forwarded state }
{
    Verdict {
        fields: state.fields,
        fate: Fate::Forward(state.paths),
    }
}

fn dropped(state: State) -> Verdict
    ensures { result ≡ dropped state }
{
    Verdict {
        fields: state.fields,
        fate: Fate::Dropped,
    }
}

// What comes of an event when the run stands so.
fn ended(flow: Result<Flow, EvalFault>, state: State) -> Result<Verdict, EvalFault>
    ensures { result ≡ ended_of flow state }
{
    match flow {
        Ok(Flow::On) => Ok(forwarded(state)),
        Ok(Flow::Keep) => Ok(forwarded(state)),
        Ok(Flow::Drop) => Ok(dropped(state)),
        Err(fault) => Err(fault),
    }
}

impl Prepared {
    /// Copies the sieve and builds its patterns, each once. A pattern that can't be built counts as want of memory.
    pub fn new(alloc: Global, sieve: &Sieve) -> Result<Prepared, OutOfMemory>
        ensures { IfOk result (λ prepared. prepared ≡ sieve.now) }
    {
        Ok(Prepared {
            sieve: sieve.copy(alloc)?,
            setting: Setting {
                patterns: Patterns::build(alloc, sieve.patterns().as_slice())?,
                moment: 0,
                times: TimeMemo::new(),
                addresses: AddressMemo::new(),
                place: PlaceHint::new(),
            },
        })
    }

    /// What the sieve makes of an event with these fields at that moment. The fields stay, and so does the sieve. 1 `BadValue`
    /// exactly where the run reaches a copy whose value the kind of its field doesn't take.
    pub fn run(&mut self, alloc: Global, fields: &Fields, now: Moment) -> Result<Verdict, EvalFault>
        ensures same { self.new ≡ self.old }
        ensures verdict { IsVerdict (verdict self.old fields.now now.0) result }
    {
        self.setting.moment = now.0;
        let mut state = at_first(alloc, fields)?;
        let flow = run_all(
            alloc,
            &mut self.setting,
            self.sieve.items().as_slice(),
            &mut state,
        );
        ended(flow, state)
    }
}
