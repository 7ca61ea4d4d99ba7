ghost use Rattle.std.specs.Prelude.{◌≡◌, ℕ};
ghost use Rattle.edge_traits.specs.Disk.{Image};
ghost use Rattle.step_code.specs.Rules.{Meaning};
ghost use Rattle.store_audit.specs.Audit.{AreShort, IsAudited, IsLegalStore};
ghost use Rattle.store_audit.specs.declared.verdict.Verdict.TheVariants as verdict;

use crate::Verdict;
use history_laws::{legal_histories_leave_sound_states, what_may_be_taken_may_be_replayed};
use step_code::Rules;

/// A store comes to one verdict.
pub fn an_audit_is_one()
    ensures { (m : Meaning) (image : Image) (found other : Verdict) → IsAudited m image found → IsAudited m image other → found ≡ other }
{}

/// The files of a store whose verdict is that it's legal, with so many steps, hold a history of a new store that is legal, has so many
/// steps, and spends no number.
pub fn what_is_legal_stands()
    ensures { (m : Meaning) (image : Image) (steps : ℕ) → IsAudited m image (verdict.Legal steps) → IsLegalStore m image steps }
{}

/// The verdict on files that hold such a history is that it's legal, with so many steps, where no generation begins with a state longer
/// than a store may hold.
pub fn what_stands_is_legal<R: Rules>()
    ensures { (image : Image) (steps : ℕ) (store : IsLegalStore R.meaning image steps) → AreShort store.stands.below.held → IsAudited R.meaning image (verdict.Legal steps) }
{
    legal_histories_leave_sound_states::<R>();
    what_may_be_taken_may_be_replayed::<R>();
}
