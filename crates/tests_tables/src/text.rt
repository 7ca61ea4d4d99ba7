//! A state as a line of text: its numbers, and behind them each entry of its lists.

use base_types::Msg;
use std::alloc::Global;
use std::str;
use std::test::Fail;
use step_code::{Base, BotCache, Feed, Output};
use stored_types::{Dump, Hand, Queue};

fn text(bytes: &[u8]) -> Result<&str, Fail> {
    match str::from_utf8(bytes) {
        Ok(text) => Ok(text),
        Err(_) => Err(Fail::from("bytes that are no text")),
    }
}

// The number of a message, and its body.
fn put_message(line: &mut String, message: &Msg) -> Result<(), Fail> {
    let no = message.no;
    let body = text(message.body.bytes())?;
    write!(line, " {no}={body}")?;
    Ok(())
}

fn put_queue(line: &mut String, queue: &Queue) -> Result<(), Fail> {
    let name = text(queue.name.bytes())?;
    write!(line, "; {name}:")?;
    for message in queue.messages.as_slice() {
        put_message(line, message)?;
    }
    Ok(())
}

fn put_hand(line: &mut String, hand: &Hand) -> Result<(), Fail> {
    let bot = text(hand.bot.bytes())?;
    let instance = hand.instance;
    write!(line, "; hand {bot} {instance}:")?;
    put_message(line, &hand.message)?;
    let tries = hand.tries;
    let since = hand.since.0;
    write!(line, ", {tries} tries, since {since}")?;
    Ok(())
}

fn put_cache(line: &mut String, cache: &BotCache) -> Result<(), Fail> {
    let bot = text(cache.bot.bytes())?;
    write!(line, "; cache {bot}:")?;
    for mark in cache.marks.as_slice() {
        let key = text(mark.key.bytes())?;
        let moment = mark.moment.0;
        write!(line, " {key}@{moment}")?;
    }
    Ok(())
}

fn put_dump(line: &mut String, dump: &Dump) -> Result<(), Fail> {
    let no = dump.no;
    let bot = text(dump.bot.bytes())?;
    write!(line, "; dump {no} of {bot}:")?;
    put_message(line, &dump.message)?;
    let code = dump.note.code;
    let cause = dump.note.text.as_str();
    let moment = dump.moment.0;
    write!(line, ", {code} {cause}, at {moment}")?;
    Ok(())
}

fn put_output(line: &mut String, out: &Output) -> Result<(), Fail> {
    let bot = text(out.bot.bytes())?;
    let bytes = out.sealed_bytes;
    let lines = out.sealed_lines;
    write!(line, "; out {bot} {bytes} {lines}:")?;
    for body in out.lines.as_slice() {
        let body = text(body.bytes())?;
        write!(line, " {body}")?;
    }
    Ok(())
}

fn put_feed(line: &mut String, feed: &Feed) -> Result<(), Fail> {
    let bot = text(feed.bot.bytes())?;
    let round = feed.round;
    let position = feed.position;
    let end = if feed.finished { " finished" } else { "" };
    write!(line, "; feed {bot} {round} {position}{end}")?;
    Ok(())
}

fn put_numbers(line: &mut String, base: &Base) -> Result<(), Fail> {
    let steps = base.steps;
    let message = base.next_message;
    let dump = base.next_dump;
    let latest = base.latest.0;
    let number = base.bundle_no;
    let bundle = text(base.bundle.bytes())?;
    write!(
        line,
        "{steps} steps, next {message} {dump}, at {latest}, {number} {bundle}"
    )?;
    Ok(())
}

fn put_work(line: &mut String, base: &Base) -> Result<(), Fail> {
    for queue in base.queues.as_slice() {
        put_queue(line, queue)?;
    }
    for hand in base.hands.as_slice() {
        put_hand(line, hand)?;
    }
    for cache in base.caches.as_slice() {
        put_cache(line, cache)?;
    }
    Ok(())
}

fn put_results(line: &mut String, base: &Base) -> Result<(), Fail> {
    for dump in base.dumps.as_slice() {
        put_dump(line, dump)?;
    }
    for out in base.outs.as_slice() {
        put_output(line, out)?;
    }
    Ok(())
}

/// The whole state as a line of text. Parts that are empty are left out.
pub fn text_of(alloc: Global, base: &Base) -> Result<String, Fail> {
    let mut line = String::new(alloc);
    put_numbers(&mut line, base)?;
    put_work(&mut line, base)?;
    put_results(&mut line, base)?;
    for feed in base.feeds.as_slice() {
        put_feed(&mut line, feed)?;
    }
    for bot in base.halted.as_slice() {
        let bot = text(bot.bytes())?;
        write!(line, "; halted {bot}")?;
    }
    Ok(line)
}
