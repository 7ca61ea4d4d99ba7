ghost use Rattle.std.specs.Prelude.{◌≡◌, ◌++◌, IfOk, OnOk};
ghost use Rattle.std.specs.List.{flat_map};
ghost use Rattle.queue_broker.specs.Broker.{lent};
ghost use Rattle.state_texts.specs.Texts.{feed_line, finished_word, halted_line, hand_line, out_lines, queue_line, state_text};

use crate::line::{Part, put_line};
use crate::summary::{lines_of, put_summary};
use ack_steps::Core;
use base_types::{Blob, BotName, OutOfMemory};
use queue_broker::HandAt;
use std::alloc::Global;
use step_code::{Feed, Rules};

fn put_queues<R: Rules>(text: &mut Blob, core: &Core<R>) -> Result<(), OutOfMemory>
    ensures { OnOk result (text.new ≡ text.old ++ flat_map queue_line core.now.state.queues) }
{
    'queues: for k in 0..core.queues_len() {
        let (name, waiting) = core.queue_at(k);
        put_line(
            text,
            "queue",
            &[Part::Word(name.bytes()), Part::Number(waiting as u128)],
        )?;
    }
    Ok(())
}

fn put_hand(text: &mut Blob, hand: &HandAt<'_>) -> Result<(), OutOfMemory>
    ensures { OnOk result (text.new ≡ text.old ++ hand_line (lent hand.now)) }
{
    let instance = Part::Number(hand.instance as u128);
    let message = Part::Number(hand.message.no as u128);
    put_line(
        text,
        "hand",
        &[Part::Word(hand.bot.bytes()), instance, message],
    )
}

fn put_hands<R: Rules>(text: &mut Blob, core: &Core<R>) -> Result<(), OutOfMemory>
    ensures { OnOk result (text.new ≡ text.old ++ flat_map hand_line core.now.state.hands) }
{
    'hands: for k in 0..core.hands_len() {
        let hand = core.hand_at(k);
        put_hand(text, &hand)?;
    }
    Ok(())
}

fn finished_word(finished: bool) -> &'static str
    ensures { result.now ≡ finished_word finished }
{
    if finished { "finished" } else { "going" }
}

fn put_feed(text: &mut Blob, feed: &Feed) -> Result<(), OutOfMemory>
    ensures { OnOk result (text.new ≡ text.old ++ feed_line feed.now) }
{
    let round = Part::Number(feed.round as u128);
    let position = Part::Number(feed.position as u128);
    let finished = Part::Word(finished_word(feed.finished).as_bytes());
    put_line(
        text,
        "feed",
        &[Part::Word(feed.bot.bytes()), round, position, finished],
    )
}

fn put_feeds(text: &mut Blob, feeds: &[Feed]) -> Result<(), OutOfMemory>
    ensures { OnOk result (text.new ≡ text.old ++ flat_map feed_line feeds.now) }
{
    'feeds: for feed in feeds {
        put_feed(text, feed)?;
    }
    Ok(())
}

fn put_outs<R: Rules>(text: &mut Blob, core: &Core<R>) -> Result<(), OutOfMemory>
    ensures { OnOk result (text.new ≡ text.old ++ out_lines 0 core.now.state.outs) }
{
    'outs: for slot in 0..core.outs_len() {
        let out = core.out_at(slot);
        let lines = Part::Number(lines_of(&out));
        put_line(
            text,
            "out",
            &[
                Part::Word(out.bot.bytes()),
                Part::Number(slot as u128),
                lines,
            ],
        )?;
    }
    Ok(())
}

fn put_halted(text: &mut Blob, halted: &[BotName]) -> Result<(), OutOfMemory>
    ensures { OnOk result (text.new ≡ text.old ++ flat_map halted_line halted.now) }
{
    'halted: for bot in halted {
        put_line(text, "halted", &[Part::Word(bot.bytes())])?;
    }
    Ok(())
}

/// What a state counts and has: the summary, and a line for each queue, full hand, collector, output and halted bot.
pub fn state_text<R: Rules>(alloc: Global, core: &Core<R>) -> Result<Blob, OutOfMemory>
    ensures { IfOk result (λ text. text ≡ state_text core.now.state) }
{
    let mut text = Blob::from(Vec::new(alloc));
    put_summary(&mut text, core)?;
    put_queues(&mut text, core)?;
    put_hands(&mut text, core)?;
    put_feeds(&mut text, core.feeds())?;
    put_outs(&mut text, core)?;
    put_halted(&mut text, core.halted())?;
    Ok(text)
}
