//! Steps that only contracts see.
ghost use Rattle.std.specs.Prelude.{◌≡◌, ◌++◌, ◌∷◌, [], List};
ghost use Rattle.std.specs.Coded.{coded_list};
ghost use Rattle.step_code.specs.declared.step.Step.{Step};
ghost use Rattle.step_code.specs.contracts.step.Step as step;
ghost use base.Fml.{ftrue};

use std::marker::Model;
use step_code::Step;

// No code computes what is told, so both functions are proved by hand.
#[derive(Drop)]
pub(crate) struct Told {
    pub(crate) ghost steps: { List Step } by { coded_list step.the_row.coded },
}

impl Model for Told {
    ghost also_owns = { λ _. ftrue };
}

impl Told {
    pub(crate) fn none() -> Told
        ensures { result.steps ≡ [] }
    {
        Told {}
    }

    // These, and one more behind them.
    pub(crate) fn then(&self, _step: &Step) -> Told
        ensures { result.steps ≡ self.now.steps ++ _step.now ∷ [] }
    {
        Told {}
    }
}
