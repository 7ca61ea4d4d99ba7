ghost use Rattle.book_runs.specs.Calls.{CallsGoOn, DurableCalls, WhatOpensIsReplayed};

use edge_traits::Disk;
use history_laws::each_message_stands_in_one_place;
use step_code::Rules;

/// A book that was opened on a disk, and made steps: whatever a crash leaves until then stands for the history that the disk
/// stood for, and from then on for what was read of it and a front of these steps; and that history with these steps is legal.
pub fn calls_go_on<D: Disk, R: Rules>()
    ensures { CallsGoOn R D.disk R.meaning }
{
    each_message_stands_in_one_place::<R>();
}

/// Where all steps of the book are durable, so are all that it made.
pub fn durable_calls<D: Disk, R: Rules>()
    ensures { DurableCalls R D.disk R.meaning }
{
    each_message_stands_in_one_place::<R>();
}

/// A store is opened from its generation in force alone, and the state in which it opens is that behind its whole history, but
/// for lines of outputs that are sealed.
pub fn what_opens_is_replayed()
    ensures { WhatOpensIsReplayed }
{}
