ghost use Rattle.drain_command.specs.Laws.{FreeDrainsEndIdle};

use edge_traits::Disk;
use journal_book::what_stands_opens;
use step_code::Rules;

/// A drain that may make any number of steps does all that there is to do, unless something hinders it, or the outside or memory
/// fails.
pub fn free_drains_end_idle<D: Disk, R: Rules>()
    ensures { FreeDrainsEndIdle D.disk R.meaning }
{
    what_stands_opens::<R>();
}
