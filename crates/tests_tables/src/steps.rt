//! Steps read from rows of tables.

use crate::words::{blob, bot, instance, note, number, push, queue, unreadable, words};
use base_types::{Blob, BotName, Moment, NoteList, QueueList, SendList};
use std::alloc::Global;
use std::test::Fail;
use step_code::{Step, StepKind};

fn collect(alloc: Global, words: &[&str]) -> Result<StepKind, Fail> {
    let [name, from, upto, piece @ ..] = words else {
        return Err(unreadable());
    };
    let bot = bot(*name)?;
    let from = number(*from)?;
    let upto = number(*upto)?;
    let piece = blob_in(alloc, piece)?;
    Ok(StepKind::Collect {
        bot,
        from,
        upto,
        piece,
    })
}

// The first word's bytes; none where there is no word.
fn blob_in(alloc: Global, words: &[&str]) -> Result<Blob, Fail> {
    match words {
        [word, ..] => blob(alloc, *word),
        [] => Ok(Blob::new(alloc, b"")?),
    }
}

fn feed_end(words: &[&str]) -> Result<StepKind, Fail> {
    let [name, position] = words else {
        return Err(unreadable());
    };
    Ok(StepKind::FeedEnd {
        bot: bot(*name)?,
        position: number(*position)?,
    })
}

fn take(words: &[&str]) -> Result<StepKind, Fail> {
    let [name, no, message] = words else {
        return Err(unreadable());
    };
    Ok(StepKind::Take {
        bot: bot(*name)?,
        instance: instance(*no)?,
        message: number(*message)?,
    })
}

// Which message a bot's instance has in hand, and under which bundle. What owns memory stands behind it in a step, so that nothing is let
// go where a word can't be read.
#[derive(Clone, Copy)]
struct Held {
    bot: BotName,
    instance: u8,
    message: u64,
    bundle: u64,
}

fn held_in(name: &str, no: &str, message: &str, bundle: &str) -> Result<Held, Fail> {
    Ok(Held {
        bot: bot(name)?,
        instance: instance(no)?,
        message: number(message)?,
        bundle: number(bundle)?,
    })
}

// What a bot gave.
#[derive(Drop)]
struct Gave {
    sends: SendList,
    dumps: NoteList,
    key: Option<Blob>,
    line: bool,
}

impl Gave {
    fn put(&mut self, alloc: Global, to: &str, body: &str) -> Result<(), Fail> {
        let body = blob(alloc, body)?;
        match to {
            "key" => {
                self.key = Some(body);
                Ok(())
            }
            "dump" => push(&mut self.dumps, (body, note(alloc)?)),
            name => push(&mut self.sends, (queue(name)?, body)),
        }
    }
}

// `write-queue>body` for what goes to a queue, `dump>body` for what is put aside, `key>key`, and `line`.
fn given(alloc: Global, words: &[&str]) -> Result<Gave, Fail> {
    let mut gave = Gave {
        sends: SendList::new(alloc),
        dumps: NoteList::new(alloc),
        key: None,
        line: false,
    };
    for word in words {
        match word.split_once('>') {
            Some((to, body)) => gave.put(alloc, to, body)?,
            None => gave.line = true,
        }
    }
    Ok(gave)
}

fn done(alloc: Global, words: &[&str]) -> Result<StepKind, Fail> {
    let [name, no, message, bundle, words @ ..] = words else {
        return Err(unreadable());
    };
    let held = held_in(*name, *no, *message, *bundle)?;
    let gave = given(alloc, words)?;
    Ok(StepKind::Done {
        bot: held.bot,
        instance: held.instance,
        message: held.message,
        bundle: held.bundle,
        sends: gave.sends,
        dumps: gave.dumps,
        key: gave.key,
        line: gave.line,
    })
}

fn retry(alloc: Global, words: &[&str]) -> Result<StepKind, Fail> {
    let [name, no, message, bundle] = words else {
        return Err(unreadable());
    };
    let held = held_in(*name, *no, *message, *bundle)?;
    let note = note(alloc)?;
    Ok(StepKind::Retry {
        bot: held.bot,
        instance: held.instance,
        message: held.message,
        bundle: held.bundle,
        note,
    })
}

// The queues that a message goes to, and `halts` where the bot is halted.
fn way(alloc: Global, words: &[&str]) -> Result<(QueueList, bool), Fail> {
    let mut queues = QueueList::new(alloc);
    let mut halts = false;
    for word in words {
        if *word == "halts" {
            halts = true;
        } else {
            push(&mut queues, queue(*word)?)?;
        }
    }
    Ok((queues, halts))
}

fn fail(alloc: Global, words: &[&str]) -> Result<StepKind, Fail> {
    let [name, no, message, bundle, words @ ..] = words else {
        return Err(unreadable());
    };
    let held = held_in(*name, *no, *message, *bundle)?;
    let note = note(alloc)?;
    let (queues, halts) = way(alloc, words)?;
    Ok(StepKind::Fail {
        bot: held.bot,
        instance: held.instance,
        message: held.message,
        bundle: held.bundle,
        note,
        queues,
        halts,
    })
}

fn reload(alloc: Global, words: &[&str]) -> Result<StepKind, Fail> {
    let bundle = blob_in(alloc, words)?;
    Ok(StepKind::Reload { bundle })
}

fn redo(words: &[&str]) -> Result<StepKind, Fail> {
    let [dump] = words else {
        return Err(unreadable());
    };
    Ok(StepKind::Redo {
        dump: number(*dump)?,
    })
}

fn round(words: &[&str]) -> Result<StepKind, Fail> {
    let [name] = words else {
        return Err(unreadable());
    };
    Ok(StepKind::Round { bot: bot(*name)? })
}

fn what(alloc: Global, words: &[&str]) -> Result<StepKind, Fail> {
    let [kind, words @ ..] = words else {
        return Err(unreadable());
    };
    match *kind {
        "start" => Ok(StepKind::Start),
        "collect" => collect(alloc, words),
        "end" => feed_end(words),
        "take" => take(words),
        "done" => done(alloc, words),
        "retry" => retry(alloc, words),
        "fail" => fail(alloc, words),
        "reload" => reload(alloc, words),
        "redo" => redo(words),
        "round" => round(words),
        _ => Err(unreadable()),
    }
}

/// The step that a row stands for, at this moment.
pub fn read_step(alloc: Global, moment: u64, row: &str) -> Result<Step, Fail> {
    let words = words(alloc, row)?;
    let what = what(alloc, words.as_slice())?;
    Ok(Step {
        moment: Moment(moment),
        what,
    })
}
