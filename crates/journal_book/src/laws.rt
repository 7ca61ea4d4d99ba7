ghost use Rattle.journal_book.specs.Laws.{WhatStandsOpens};

use history_laws::{legal_histories_leave_sound_states, what_may_be_taken_may_be_replayed};
use step_code::Rules;

/// Files that stand for a legal history of a new store, in which no number is spent, open.
pub fn what_stands_opens<R: Rules>()
    ensures { WhatStandsOpens R.meaning }
{
    legal_histories_leave_sound_states::<R>();
    what_may_be_taken_may_be_replayed::<R>();
}
