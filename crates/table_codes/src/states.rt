//! States as texts.
use crate::words::Words;
use std::alloc::{AllocError, Global};
use step_code::{Base, BotCache, Output};
use stored_types::{Dump, Hand, Queue};

/// A state's numbers, and its lists item by item.
pub fn state_text(alloc: Global, state: &Base) -> Result<String, AllocError> {
    let mut words = Words::new(alloc);
    push_numbers(alloc, &mut words, state)?;
    push_messages(alloc, &mut words, state)?;
    push_files(alloc, &mut words, state)?;
    Ok(words.into_text())
}

fn push_numbers(alloc: Global, words: &mut Words, state: &Base) -> Result<(), AllocError> {
    words.number(alloc, "steps", state.steps)?;
    words.number(alloc, "next message", state.next_message)?;
    words.number(alloc, "next dump", state.next_dump)?;
    words.number(alloc, "discarded", state.discarded)?;
    words.moment(alloc, "latest", state.latest)?;
    words.number(alloc, "bundle", state.bundle_no)?;
    words.quoted(state.bundle.bytes())
}

// What waits, is in a hand, is marked or is put aside.
fn push_messages(alloc: Global, words: &mut Words, state: &Base) -> Result<(), AllocError> {
    for queue in &state.queues {
        push_queue(alloc, words, queue)?;
    }
    for hand in &state.hands {
        push_hand(alloc, words, hand)?;
    }
    for cache in &state.caches {
        push_cache(alloc, words, cache)?;
    }
    for dump in &state.dumps {
        push_dump(alloc, words, dump)?;
    }
    Ok(())
}

fn push_queue(alloc: Global, words: &mut Words, queue: &Queue) -> Result<(), AllocError> {
    words.bytes("queue", queue.name.bytes())?;
    for message in &queue.messages {
        words.message(alloc, message)?;
    }
    Ok(())
}

fn push_hand(alloc: Global, words: &mut Words, hand: &Hand) -> Result<(), AllocError> {
    words.bytes("hand", hand.bot.bytes())?;
    words.number(alloc, "instance", u64::from(hand.instance))?;
    words.message(alloc, &hand.message)?;
    words.number(alloc, "tries", u64::from(hand.tries))?;
    words.moment(alloc, "since", hand.since)
}

fn push_cache(alloc: Global, words: &mut Words, cache: &BotCache) -> Result<(), AllocError> {
    words.bytes("cache", cache.bot.bytes())?;
    for mark in &cache.marks {
        words.bytes("mark", mark.key.bytes())?;
        words.moment(alloc, "at", mark.moment)?;
    }
    Ok(())
}

fn push_dump(alloc: Global, words: &mut Words, dump: &Dump) -> Result<(), AllocError> {
    words.number(alloc, "dump", dump.no)?;
    words.quoted(dump.bot.bytes())?;
    words.message(alloc, &dump.message)?;
    words.note(alloc, &dump.note)?;
    words.moment(alloc, "at", dump.moment)
}

// Outputs, feeds, and bots that are halted.
fn push_files(alloc: Global, words: &mut Words, state: &Base) -> Result<(), AllocError> {
    for output in &state.outs {
        push_output(alloc, words, output)?;
    }
    for feed in &state.feeds {
        words.bytes("feed", feed.bot.bytes())?;
        words.number(alloc, "round", feed.round)?;
        words.number(alloc, "position", feed.position)?;
        words.word(if feed.finished { "finished" } else { "open" })?;
    }
    for bot in &state.halted {
        words.bytes("halted", bot.bytes())?;
    }
    Ok(())
}

fn push_output(alloc: Global, words: &mut Words, output: &Output) -> Result<(), AllocError> {
    words.bytes("output", output.bot.bytes())?;
    words.number(alloc, "sealed bytes", output.sealed_bytes)?;
    words.number(alloc, "sealed lines", output.sealed_lines)?;
    for line in &output.lines {
        words.bytes("line", line.bytes())?;
    }
    Ok(())
}
