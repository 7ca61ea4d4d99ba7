//! Steps as texts.
use crate::words::Words;
use base_types::{BotName, FaultNote, NoteList, QueueList, SendList};
use std::alloc::{AllocError, Global};
use step_code::{Step, StepKind};

/// A step's kind, its moment, and its fields by their names.
pub fn step_text(alloc: Global, step: &Step) -> Result<String, AllocError> {
    let mut words = Words::new(alloc);
    words.word(kind_word(&step.what))?;
    words.moment(alloc, "at", step.moment)?;
    push_fields(alloc, &mut words, &step.what)?;
    Ok(words.into_text())
}

fn kind_word(kind: &StepKind) -> &'static str {
    match kind {
        StepKind::Start => "start",
        StepKind::Collect { .. } => "collect",
        StepKind::FeedEnd { .. } => "feed end",
        StepKind::Take { .. } => "take",
        StepKind::Done { .. } => "done",
        StepKind::Retry { .. } => "retry",
        StepKind::Fail { .. } => "fail",
        StepKind::Reload { .. } => "reload",
        StepKind::Redo { .. } => "redo",
        StepKind::Round { .. } => "round",
    }
}

fn push_fields(alloc: Global, words: &mut Words, kind: &StepKind) -> Result<(), AllocError> {
    match kind {
        StepKind::Start => Ok(()),
        StepKind::Collect {
            bot,
            from,
            upto,
            piece,
        } => {
            words.bytes("bot", bot.bytes())?;
            words.number(alloc, "from", *from)?;
            words.number(alloc, "up to", *upto)?;
            words.bytes("piece", piece.bytes())
        }
        StepKind::FeedEnd { bot, position } => {
            words.bytes("bot", bot.bytes())?;
            words.number(alloc, "position", *position)
        }
        StepKind::Take {
            bot,
            instance,
            message,
        } => push_hand(alloc, words, bot, *instance, *message),
        StepKind::Done {
            bot,
            instance,
            message,
            bundle,
            sends,
            dumps,
            key,
            line,
        } => {
            push_hand(alloc, words, bot, *instance, *message)?;
            words.number(alloc, "bundle", *bundle)?;
            push_given(alloc, words, sends, dumps)?;
            if let Some(key) = key {
                words.bytes("key", key.bytes())?;
            }
            if *line { words.word("line") } else { Ok(()) }
        }
        StepKind::Retry {
            bot,
            instance,
            message,
            bundle,
            note,
        } => {
            push_hand(alloc, words, bot, *instance, *message)?;
            push_failure(alloc, words, *bundle, note)
        }
        StepKind::Fail {
            bot,
            instance,
            message,
            bundle,
            note,
            queues,
            halts,
        } => {
            push_hand(alloc, words, bot, *instance, *message)?;
            push_failure(alloc, words, *bundle, note)?;
            push_queues(words, queues)?;
            if *halts { words.word("halts") } else { Ok(()) }
        }
        StepKind::Reload { bundle } => words.bytes("bundle", bundle.bytes()),
        StepKind::Redo { dump } => words.number(alloc, "dump", *dump),
        StepKind::Round { bot } => words.bytes("bot", bot.bytes()),
    }
}

// A bot's instance, and the message in its hand.
fn push_hand(
    alloc: Global,
    words: &mut Words,
    bot: &BotName,
    instance: u8,
    message: u64,
) -> Result<(), AllocError> {
    words.bytes("bot", bot.bytes())?;
    words.number(alloc, "instance", u64::from(instance))?;
    words.number(alloc, "message", message)
}

fn push_given(
    alloc: Global,
    words: &mut Words,
    sends: &SendList,
    dumps: &NoteList,
) -> Result<(), AllocError> {
    for send in sends {
        words.bytes("send", send.0.bytes())?;
        words.quoted(send.1.bytes())?;
    }
    for dump in dumps {
        words.bytes("dump", dump.0.bytes())?;
        words.note(alloc, &dump.1)?;
    }
    Ok(())
}

fn push_failure(
    alloc: Global,
    words: &mut Words,
    bundle: u64,
    note: &FaultNote,
) -> Result<(), AllocError> {
    words.number(alloc, "bundle", bundle)?;
    words.note(alloc, note)
}

fn push_queues(words: &mut Words, queues: &QueueList) -> Result<(), AllocError> {
    for queue in queues {
        words.bytes("queue", queue.bytes())?;
    }
    Ok(())
}
