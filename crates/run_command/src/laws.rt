ghost use Rattle.run_command.specs.Laws.{FreeRunsEndIdle, WorkersKeepFeedsReadable};

use edge_traits::Disk;
use journal_book::what_stands_opens;
use step_code::Rules;

/// Along steps of workers the feeds of collectors stay readable.
pub fn workers_keep_feeds_readable()
    ensures { WorkersKeepFeedsReadable }
{}

/// A run that may make any number of steps does all that there is to do, where it ends, unless something hinders it, or the outside or
/// memory fails.
pub fn free_runs_end_idle<D: Disk, R: Rules>()
    ensures { FreeRunsEndIdle D.disk R.meaning }
{
    what_stands_opens::<R>();
}
