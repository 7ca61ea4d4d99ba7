ghost use Rattle.std.specs.Prelude.{◌≡◌, ◌<◌, length, position, true, IfOk};
ghost use Rattle.std.specs.Str.{bytes_eq};
ghost use Rattle.step_code.specs.Rules.{is_worker};
ghost use Rattle.step_code.specs.State.{bots_in_force};
ghost use Rattle.bot_works.specs.Works.{AreReady, IsFor};

use ack_steps::Core;
use base_types::{BotName, OutOfMemory};
use std::alloc::Global;
use step_code::Rules;

/// A bot that is ready for work.
#[derive(Drop)]
pub struct Ready<W> {
    pub bot: BotName,
    pub work: W,
}

fn ready_at<W>(works: &[Ready<W>], bot: &BotName) -> Option<usize>
    ensures { result ≡ position (λ ready. bytes_eq ready.bot bot.now) works.now }
{
    works.iter().position(|ready| ready.bot == *bot)
}

// The place of a bot's work, which is made ready where it isn't yet.
pub(crate) fn place_of<R: Rules>(
    alloc: Global,
    core: &Core<R>,
    works: &mut Vec<Ready<R::Work>>,
    bot: &BotName,
) -> Result<usize, OutOfMemory>
    requires worker { is_worker (bots_in_force R.meaning core.now.state) bot.now ≡ true }
    requires ready { AreReady R.task_of core.now.state.bundle works.old.items }
    ensures ready { AreReady R.task_of core.now.state.bundle works.new.items }
    ensures place { IfOk result (λ place. place < length works.new.items) }
    ensures bot { IfOk result (IsFor works.new.items bot.now) }
{
    if let Some(place) = ready_at(works, bot) {
        return Ok(place);
    }
    let work = core.rules().work(alloc, core.plan(), bot)?;
    let place = works.len();
    works.push(Ready { bot: *bot, work })?;
    Ok(place)
}
