ghost use Rattle.std.specs.Prelude.{IfOk, IsSome};
ghost use Rattle.step_code.specs.State.{hand_of};
ghost use Rattle.bot_works.specs.Given.{IsGivenOf};
ghost use Rattle.bot_works.specs.Works.{AreReady};

use crate::works::{Ready, place_of};
use ack_steps::Core;
use base_types::{BotName, OutOfMemory};
use std::alloc::Global;
use step_code::{Given, Rules};

/// What a bot gives of the message in an instance's hand. The bot is made ready for work where it isn't yet.
pub fn give<R: Rules>(
    alloc: Global,
    core: &Core<R>,
    works: &mut Vec<Ready<R::Work>>,
    bot: &BotName,
    instance: u8,
) -> Result<Given, OutOfMemory>
    requires full { IsSome (hand_of bot.now instance core.now.state) }
    requires ready { AreReady R.task_of core.now.state.bundle works.old.items }
    ensures ready { AreReady R.task_of core.now.state.bundle works.new.items }
    ensures gave { IfOk result (IsGivenOf R.meaning core.now.state bot.now instance) }
{
    let _ = core.plan();
    let place = place_of(alloc, core, works, bot)?;
    let Some(hand) = core.in_hand(bot, instance) else {
        unreachable!()
    };
    let ready = &mut works[place];
    core.rules()
        .give(alloc, &mut ready.work, &hand.message.body, hand.since)
}
