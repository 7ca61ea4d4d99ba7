//! States read from lines of text, as `text_of` writes them.

use crate::words::{
    blob, bot, instance, message, note, number, push, queue, small, unreadable, words,
};
use base_types::{LineList, Moment};
use std::alloc::Global;
use std::test::Fail;
use step_code::{Base, BotCache, BotList, CacheList, Feed, FeedList, OutList, Output};
use stored_types::{Dump, DumpList, Hand, HandList, Mark, MarkList, MsgList, Queue, WaitingList};

// Two numbers that belong together.
#[derive(Clone, Copy)]
struct Next {
    message: u64,
    dump: u64,
}

// A state with nothing in its lists.
fn empty(
    alloc: Global,
    steps: u64,
    next: Next,
    latest: u64,
    bundle_no: u64,
    bundle: &str,
) -> Result<Base, Fail> {
    Ok(Base {
        steps,
        next_message: next.message,
        next_dump: next.dump,
        discarded: 0,
        latest: Moment(latest),
        bundle_no,
        bundle: blob(alloc, bundle)?,
        queues: WaitingList::new(alloc),
        hands: HandList::new(alloc),
        caches: CacheList::new(alloc),
        dumps: DumpList::new(alloc),
        outs: OutList::new(alloc),
        feeds: FeedList::new(alloc),
        halted: BotList::new(alloc),
    })
}

fn head(alloc: Global, words: &[&str]) -> Result<Base, Fail> {
    let [
        steps,
        _,
        _,
        message,
        dump,
        _,
        latest,
        number_of_bundle,
        bundle,
    ] = words
    else {
        return Err(unreadable());
    };
    let next = Next {
        message: number(*message)?,
        dump: number(*dump)?,
    };
    let steps = number(*steps)?;
    let latest = number(*latest)?;
    let bundle_no = number(*number_of_bundle)?;
    empty(alloc, steps, next, latest, bundle_no, *bundle)
}

fn put_queue(alloc: Global, base: &mut Base, name: &str, words: &[&str]) -> Result<(), Fail> {
    let name = queue(name)?;
    let mut messages = MsgList::new(alloc);
    for word in words {
        push(&mut messages, message(alloc, *word)?)?;
    }
    push(&mut base.queues, Queue { name, messages })
}

fn put_hand(alloc: Global, base: &mut Base, words: &[&str]) -> Result<(), Fail> {
    let [name, no, held, tries, _, _, since] = words else {
        return Err(unreadable());
    };
    let hand = Hand {
        bot: bot(*name)?,
        instance: instance(*no)?,
        tries: small(*tries)?,
        since: Moment(number(*since)?),
        message: message(alloc, *held)?,
    };
    push(&mut base.hands, hand)
}

// A mark, as `key@5`.
fn mark(alloc: Global, word: &str) -> Result<Mark, Fail> {
    let Some((key, moment)) = word.split_once('@') else {
        return Err(unreadable());
    };
    Ok(Mark {
        key: blob(alloc, key)?,
        moment: Moment(number(moment)?),
    })
}

fn put_cache(alloc: Global, base: &mut Base, words: &[&str]) -> Result<(), Fail> {
    let [name, words @ ..] = words else {
        return Err(unreadable());
    };
    let bot = bot(*name)?;
    let mut marks = MarkList::new(alloc);
    for word in words {
        push(&mut marks, mark(alloc, *word)?)?;
    }
    push(&mut base.caches, BotCache { bot, marks })
}

fn put_dump(alloc: Global, base: &mut Base, words: &[&str]) -> Result<(), Fail> {
    let [no, _, name, kept, _, _, _, moment] = words else {
        return Err(unreadable());
    };
    let dump = Dump {
        no: number(*no)?,
        bot: bot(*name)?,
        moment: Moment(number(*moment)?),
        message: message(alloc, *kept)?,
        note: note(alloc)?,
    };
    push(&mut base.dumps, dump)
}

fn put_output(alloc: Global, base: &mut Base, words: &[&str]) -> Result<(), Fail> {
    let [name, bytes, lines, words @ ..] = words else {
        return Err(unreadable());
    };
    let out = Output {
        bot: bot(*name)?,
        sealed_bytes: number(*bytes)?,
        sealed_lines: number(*lines)?,
        lines: lines_in(alloc, words)?,
    };
    push(&mut base.outs, out)
}

fn lines_in(alloc: Global, words: &[&str]) -> Result<LineList, Fail> {
    let mut lines = LineList::new(alloc);
    for word in words {
        push(&mut lines, blob(alloc, *word)?)?;
    }
    Ok(lines)
}

fn put_feed(base: &mut Base, words: &[&str]) -> Result<(), Fail> {
    let [name, round, position, end @ ..] = words else {
        return Err(unreadable());
    };
    let feed = Feed {
        bot: bot(*name)?,
        round: number(*round)?,
        position: number(*position)?,
        finished: !end.is_empty(),
    };
    push(&mut base.feeds, feed)
}

fn put_halted(base: &mut Base, words: &[&str]) -> Result<(), Fail> {
    let [name] = words else {
        return Err(unreadable());
    };
    push(&mut base.halted, bot(*name)?)
}

// Puts an entry at the end of its list.
fn put_entry(alloc: Global, base: &mut Base, words: &[&str]) -> Result<(), Fail> {
    let [kind, words @ ..] = words else {
        return Err(unreadable());
    };
    match *kind {
        "hand" => put_hand(alloc, base, words),
        "cache" => put_cache(alloc, base, words),
        "dump" => put_dump(alloc, base, words),
        "out" => put_output(alloc, base, words),
        "feed" => put_feed(base, words),
        "halted" => put_halted(base, words),
        name => put_queue(alloc, base, name, words),
    }
}

/// The state that a line of text stands for.
pub fn read_state(alloc: Global, text: &str) -> Result<Base, Fail> {
    let (first, entries) = text.split_once(';').unwrap_or((text, ""));
    let mut base = head(alloc, words(alloc, first)?.as_slice())?;
    put_entries(alloc, &mut base, entries)?;
    Ok(base)
}

fn put_entries(alloc: Global, base: &mut Base, entries: &str) -> Result<(), Fail> {
    for entry in entries.split_terminator(';') {
        put_entry(alloc, base, words(alloc, entry)?.as_slice())?;
    }
    Ok(())
}
