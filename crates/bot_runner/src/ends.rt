//! How a part ends.
ghost use Rattle.std.specs.Prelude.{◌≡◌};
ghost use Rattle.bot_runner.specs.Parts.{why_of};

use crate::Why;
use journal_book::StageRefusal;
use locked_book::EndMark;
use worker_turns::HoldEnd;

// So many looks in a row find nothing before a part ends.
pub(crate) const QUIET_LOOKS: u32 = 200;

// Why a part ends with a hold that ended so.
pub(crate) fn why_of(end: HoldEnd) -> Why
    ensures { result ≡ why_of end }
{
    match end {
        HoldEnd::Found(EndMark::Stop) => Why::Stop,
        HoldEnd::Found(EndMark::Half) | HoldEnd::Half => Why::Half,
        HoldEnd::Found(EndMark::Broken) => Why::Refused(StageRefusal::Broken),
        HoldEnd::Left => Why::Left,
        HoldEnd::Disk => Why::Disk,
        HoldEnd::Refused(cause) => Why::Refused(cause),
        HoldEnd::OutOfMemory => Why::Memory,
    }
}
