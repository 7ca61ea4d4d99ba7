//! Where a collector stands.
ghost use Rattle.std.specs.Prelude.{◌≡◌, ◌≤◌};
ghost use Rattle.step_code.specs.Sound.{last_number};
ghost use Rattle.step_code.specs.State.{position_of};
ghost use Rattle.drain_turns.specs.Turn.{is_backed_up};

use ack_steps::Core;
use base_types::BotName;
use step_code::{BACKLOG_LIMIT, Rules};

/// Whether so much waits that nothing is collected.
pub fn is_backed_up<R: Rules>(core: &Core<R>) -> bool
    ensures { result ≡ is_backed_up R.meaning core.now.state }
{
    core.backlog() >= BACKLOG_LIMIT
}

/// How far a collector has come in its feed, in bytes.
pub fn position_of<R: Rules>(core: &Core<R>, bot: &BotName) -> u64
    ensures position { result ≡ position_of bot.now core.now.state }
    ensures near { result ≤ last_number }
{
    let _ = core.feeds();
    match core.feed_of(bot) {
        Some(feed) => feed.position,
        None => 0,
    }
}
