ghost use Rattle.std.specs.Prelude.{◌≡◌, List, ℕ, Some};
ghost use Rattle.step_code.specs.After.{after};
ghost use Rattle.step_code.specs.Content.{May, MayReplay};
ghost use Rattle.step_code.specs.History.{first, replay, IsGivenBack, Legal};
ghost use Rattle.step_code.specs.Places.{IsAccounted};
ghost use Rattle.step_code.specs.Sound.{IsSoundState};
ghost use Rattle.step_code.specs.Spent.{NothingIsSpent};
ghost use Rattle.step_code.specs.State.{bots_of};
ghost use Rattle.step_code.specs.declared.step.StepKind.TheVariants as kind;

use base_types::Moment;
use step_code::{Base, Facts, Rules, Step};

/// In every legal history of a new store nothing is lost and nothing is invented: each message stands in one place, each
/// dump is as it was made, and each body is lawful.
pub fn each_message_stands_in_one_place<R: Rules>()
    ensures { (bots : List Facts) (bundle : List ℕ) (steps : List Step) → R.meaning.facts bundle ≡ Some bots
        → Legal R.meaning (first bots bundle) steps
        → IsAccounted R.meaning (first bots bundle) steps }
{}

/// A step that may be taken may be replayed once it is stored: what a replay tests holds of it.
pub fn what_may_be_taken_may_be_replayed<R: Rules>()
    ensures { (bots : List Facts) (s : Base) (step : Step) → R.meaning.facts s.bundle ≡ Some bots
        → May R.meaning s step → MayReplay R.meaning s step }
{}

/// In every legal history of a new store in which no number is spent, the state is one that the core takes in, but for
/// the length of its code.
pub fn legal_histories_leave_sound_states<R: Rules>()
    ensures { (bots : List Facts) (bundle : List ℕ) (steps : List Step) → R.meaning.facts bundle ≡ Some bots
        → Legal R.meaning (first bots bundle) steps
        → NothingIsSpent R.meaning (first bots bundle) steps
        → IsSoundState R.meaning (replay R.meaning (first bots bundle) steps) }
{}

/// A reload of a sound state leaves the instances of the new bots what they hold. What others held is in front of their
/// bots' queues, lower instances first.
pub fn a_reload_gives_back_what_is_stranded<R: Rules>()
    ensures { (s : Base) (now : Moment) (bundle : List ℕ) → IsSoundState R.meaning s
        → IsGivenBack (bots_of R.meaning bundle) s (after R.meaning s (record { moment = now; what = kind.Reload bundle })) }
{}
