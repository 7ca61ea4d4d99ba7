ghost use Rattle.std.specs.Prelude.{◌≡◌, ◌+◌, ◌++◌, ◌∷◌, length, min, OnOk, IfOk};
ghost use Rattle.stored_types.specs.Code.{flag, list, optional, IsList, IsOptional};
ghost use Rattle.stored_types.specs.Coded.{Begins, Gives};
ghost use Rattle.base_types.specs.Number.{last_u64};
ghost use Rattle.step_code.specs.Code.{bad_part, code_of_step, kind_byte, kind_fields, send, IsBadPart, IsSend, IsWritable, IsWritableKind};
ghost use Rattle.step_code.specs.Reading.{collect_at, done_at, fail_at, feed_end_at, kind_at, redo_at, reload_at, retry_at, round_at, step_at, take_at};

use base_types::{
    Blob, BotName, FaultNote, ListOf, Moment, NoteList, OutOfMemory, QueueList, SendList,
};
use std::alloc::Global;
use stored_types::{CodeFault, Coded};

/// One step of the pipeline, taken whole or not at all.
#[derive(Debug, Drop)]
pub struct Step {
    pub moment: Moment,
    pub what: StepKind,
}

/// What a step does.
#[derive(Debug, Drop)]
pub enum StepKind {
    /// No bot is halted any longer.
    Start,
    /// A collector makes a report of a piece of its feed, which lies from one offset in bytes up to another.
    Collect {
        bot: BotName,
        from: u64,
        upto: u64,
        piece: Blob,
    },
    /// A collector has read its feed to the end, which is at this position in bytes.
    FeedEnd {
        bot: BotName,
        position: u64,
    },
    /// A bot's instance takes the message at the front of its queue.
    Take {
        bot: BotName,
        instance: u8,
        message: u64,
    },
    /// A bot's instance is done with the message in its hand. Its successors, the parts that could not be processed,
    /// its mark in the cache, its line in the output and its acknowledgement are one.
    Done {
        bot: BotName,
        instance: u8,
        message: u64,
        bundle: u64,
        sends: SendList,
        dumps: NoteList,
        key: Option<Blob>,
        line: bool,
    },
    /// A bot's instance could not process the message in its hand, for this cause, and will try it again.
    Retry {
        bot: BotName,
        instance: u8,
        message: u64,
        bundle: u64,
        note: FaultNote,
    },
    /// A bot's instance could not process the message in its hand, for this cause, and was tried as often as the bot may:
    /// the message is put aside, and its body goes to each of these queues as a new message. The bot is halted where that
    /// is asked.
    Fail {
        bot: BotName,
        instance: u8,
        message: u64,
        bundle: u64,
        note: FaultNote,
        queues: QueueList,
        halts: bool,
    },
    /// This bundle, in the code of bundles, is in force from now on.
    Reload {
        bundle: Blob,
    },
    /// The message of the dump with this number goes to the end of its bot's queue again, under its own number.
    Redo {
        dump: u64,
    },
    /// A collector that has read its feed to the end begins it anew.
    Round {
        bot: BotName,
    },
}

/// Why a step may not be taken.
#[derive(Clone, Copy, Debug, PartialEq, Eq)]
pub enum StepRefusal {
    /// The bot is no collector of the plan, or the instance is none of its.
    NotLive,
    /// The step was computed under another bundle than the one in force, which has this number.
    Stale { now: u64 },
    /// The bot is halted.
    Halted,
    /// The hand holds the message with this number.
    HandFull { no: u64 },
    /// No message waits in the queue.
    Empty,
    /// The hand holds the message with this number, or none.
    NotInHand { no: Option<u64> },
    /// The feed is finished.
    Finished,
    /// The feed's position is another, in bytes.
    Behind { position: u64 },
    /// The bodies in the queues have so many bytes together.
    Backlog { bytes: u64 },
    /// The message was tried so often: too often to be tried again, or not often enough to be put aside.
    Tries { tries: u32 },
    /// There is no dump with the number.
    NoDump,
    /// The feed isn't finished.
    Unfinished,
    /// The bundle gives no plan.
    Refused,
    OutOfMemory,
}

impl Coded for Step {
    ghost code = { code_of_step };

    ghost has_code = { IsWritable };

    ghost read = { step_at };

    fn code_len(&self) -> u64 {
        fields_len(&self.what).saturating_add(9)
    }

    #[tactic(auto, using(stored_types::proofs::Begins::begins))]
    fn put(&self, to: &mut Blob) -> Result<(), OutOfMemory> {
        kind_byte(&self.what).put(to)?;
        self.moment.put(to)?;
        put_kind(to, &self.what)
    }

    #[tactic(auto, unfolding(crate::specs::Reading::step_at))]
    fn take(alloc: Global, bytes: &[u8]) -> Result<(Self, &[u8]), CodeFault> {
        let (byte, rest) = u8::take(alloc, bytes)?;
        let (moment, rest) = Moment::take(alloc, rest)?;
        let (what, rest) = kind_of(alloc, byte, rest)?;
        Ok((Step { moment, what }, rest))
    }

    fn copy(&self, alloc: Global) -> Result<Self, OutOfMemory> {
        Ok(Step {
            moment: self.moment,
            what: copy_of_kind(alloc, &self.what)?,
        })
    }
}

fn kind_byte(what: &StepKind) -> u8
    ensures { result ≡ kind_byte what.now }
{
    match what {
        StepKind::Start => 1,
        StepKind::Collect { .. } => 2,
        StepKind::FeedEnd { .. } => 3,
        StepKind::Take { .. } => 4,
        StepKind::Done { .. } => 5,
        StepKind::Retry { .. } => 6,
        StepKind::Fail { .. } => 7,
        StepKind::Reload { .. } => 8,
        StepKind::Redo { .. } => 9,
        StepKind::Round { .. } => 10,
    }
}

#[tactic(auto, using(stored_types::proofs::Begins::begins))]
fn put_kind(to: &mut Blob, what: &StepKind) -> Result<(), OutOfMemory>
    ensures code { OnOk result (to.new ≡ to.old ++ kind_fields what.now) }
    ensures writable { OnOk result (IsWritableKind what.now) }
    ensures kept { Begins to.old to.new }
{
    match what {
        StepKind::Start => Ok(()),
        StepKind::Collect {
            bot,
            from,
            upto,
            piece,
        } => {
            ((*bot, *from), *upto).put(to)?;
            piece.put(to)
        }
        StepKind::FeedEnd { bot, position } => (*bot, *position).put(to),
        StepKind::Take {
            bot,
            instance,
            message,
        } => ((*bot, *instance), *message).put(to),
        StepKind::Done {
            bot,
            instance,
            message,
            bundle,
            sends,
            dumps,
            key,
            line,
        } => {
            (((*bot, *instance), *message), *bundle).put(to)?;
            put_given(to, sends, dumps, key, *line)
        }
        StepKind::Retry {
            bot,
            instance,
            message,
            bundle,
            note,
        } => {
            (((*bot, *instance), *message), *bundle).put(to)?;
            note.put(to)
        }
        StepKind::Fail {
            bot,
            instance,
            message,
            bundle,
            note,
            queues,
            halts,
        } => {
            (((*bot, *instance), *message), *bundle).put(to)?;
            note.put(to)?;
            queues.put(to)?;
            halts.put(to)
        }
        StepKind::Reload { bundle } => bundle.put(to),
        StepKind::Redo { dump } => dump.put(to),
        StepKind::Round { bot } => bot.put(to),
    }
}

// What a bot made of a message.
#[tactic(auto, using(stored_types::proofs::Begins::begins))]
fn put_given(
    to: &mut Blob,
    sends: &SendList,
    dumps: &NoteList,
    key: &Option<Blob>,
    line: bool,
) -> Result<(), OutOfMemory>
    ensures code { OnOk result (to.new ≡ to.old ++ list send sends.now ++ list bad_part dumps.now ++ optional key.now ++ flag line) }
    ensures sends { OnOk result (IsList IsSend sends.now) }
    ensures dumps { OnOk result (IsList IsBadPart dumps.now) }
    ensures key { OnOk result (IsOptional key.now) }
    ensures kept { Begins to.old to.new }
{
    sends.put(to)?;
    dumps.put(to)?;
    key.put(to)?;
    line.put(to)
}

// The fields of a kind are read as nested pairs, by the reader of pairs: the definitions are made of the same. Each `?`
// less makes a proof shorter. Pairs that own no memory are read field by field, since the borrow checker has no rule for
// a `?` on them.
type CollectFields = (((BotName, u64), u64), Blob);

// A bot's instance, the message that it had, and the number of the bundle in force.
type WorkedFields = (((BotName, u8), u64), u64);

type DoneFields = ((((WorkedFields, SendList), NoteList), Option<Blob>), bool);

type RetryFields = (WorkedFields, FaultNote);

type FailFields = ((RetryFields, QueueList), bool);

#[tactic(auto, unfolding(crate::specs::Reading::kind_at))]
fn kind_of(alloc: Global, byte: u8, bytes: &[u8]) -> Result<(StepKind, &[u8]), CodeFault>
    ensures { Gives (λ x. (x.0, x.1.now)) result (kind_at byte bytes.now) }
{
    match byte {
        1 => Ok((StepKind::Start, bytes)),
        2 => collect_of(alloc, bytes),
        3 => feed_end_of(alloc, bytes),
        4 => take_of(alloc, bytes),
        5 => done_of(alloc, bytes),
        6 => retry_of(alloc, bytes),
        7 => fail_of(alloc, bytes),
        8 => reload_of(alloc, bytes),
        9 => redo_of(alloc, bytes),
        10 => round_of(alloc, bytes),
        _ => Err(CodeFault::Bad),
    }
}

#[tactic(auto, unfolding(crate::specs::Reading::collect_at))]
fn collect_of(alloc: Global, bytes: &[u8]) -> Result<(StepKind, &[u8]), CodeFault>
    ensures { Gives (λ x. (x.0, x.1.now)) result (collect_at bytes.now) }
{
    let (fields, rest) = CollectFields::take(alloc, bytes)?;
    let (((bot, from), upto), piece) = fields;
    let what = StepKind::Collect {
        bot,
        from,
        upto,
        piece,
    };
    Ok((what, rest))
}

#[tactic(auto, unfolding(crate::specs::Reading::feed_end_at))]
fn feed_end_of(alloc: Global, bytes: &[u8]) -> Result<(StepKind, &[u8]), CodeFault>
    ensures { Gives (λ x. (x.0, x.1.now)) result (feed_end_at bytes.now) }
{
    let (bot, rest) = match BotName::take(alloc, bytes) {
        Ok(found) => found,
        Err(fault) => return Err(fault),
    };
    let (position, rest) = u64::take(alloc, rest)?;
    Ok((StepKind::FeedEnd { bot, position }, rest))
}

#[tactic(auto, unfolding(crate::specs::Reading::take_at))]
fn take_of(alloc: Global, bytes: &[u8]) -> Result<(StepKind, &[u8]), CodeFault>
    ensures { Gives (λ x. (x.0, x.1.now)) result (take_at bytes.now) }
{
    let (bot, rest) = match BotName::take(alloc, bytes) {
        Ok(found) => found,
        Err(fault) => return Err(fault),
    };
    let (instance, rest) = u8::take(alloc, rest)?;
    let (message, rest) = u64::take(alloc, rest)?;
    let what = StepKind::Take {
        bot,
        instance,
        message,
    };
    Ok((what, rest))
}

#[tactic(auto, unfolding(crate::specs::Reading::done_at))]
fn done_of(alloc: Global, bytes: &[u8]) -> Result<(StepKind, &[u8]), CodeFault>
    ensures { Gives (λ x. (x.0, x.1.now)) result (done_at bytes.now) }
{
    let (fields, rest) = DoneFields::take(alloc, bytes)?;
    let (((((((bot, instance), message), bundle), sends), dumps), key), line) = fields;
    let what = StepKind::Done {
        bot,
        instance,
        message,
        bundle,
        sends,
        dumps,
        key,
        line,
    };
    Ok((what, rest))
}

#[tactic(auto, unfolding(crate::specs::Reading::retry_at))]
fn retry_of(alloc: Global, bytes: &[u8]) -> Result<(StepKind, &[u8]), CodeFault>
    ensures { Gives (λ x. (x.0, x.1.now)) result (retry_at bytes.now) }
{
    let (fields, rest) = RetryFields::take(alloc, bytes)?;
    let ((((bot, instance), message), bundle), note) = fields;
    let what = StepKind::Retry {
        bot,
        instance,
        message,
        bundle,
        note,
    };
    Ok((what, rest))
}

#[tactic(auto, unfolding(crate::specs::Reading::fail_at))]
fn fail_of(alloc: Global, bytes: &[u8]) -> Result<(StepKind, &[u8]), CodeFault>
    ensures { Gives (λ x. (x.0, x.1.now)) result (fail_at bytes.now) }
{
    let (fields, rest) = FailFields::take(alloc, bytes)?;
    let ((((((bot, instance), message), bundle), note), queues), halts) = fields;
    let what = StepKind::Fail {
        bot,
        instance,
        message,
        bundle,
        note,
        queues,
        halts,
    };
    Ok((what, rest))
}

#[tactic(auto, unfolding(crate::specs::Reading::reload_at))]
fn reload_of(alloc: Global, bytes: &[u8]) -> Result<(StepKind, &[u8]), CodeFault>
    ensures { Gives (λ x. (x.0, x.1.now)) result (reload_at bytes.now) }
{
    let (bundle, rest) = Blob::take(alloc, bytes)?;
    Ok((StepKind::Reload { bundle }, rest))
}

#[tactic(auto, unfolding(crate::specs::Reading::redo_at))]
fn redo_of(alloc: Global, bytes: &[u8]) -> Result<(StepKind, &[u8]), CodeFault>
    ensures { Gives (λ x. (x.0, x.1.now)) result (redo_at bytes.now) }
{
    let (dump, rest) = u64::take(alloc, bytes)?;
    Ok((StepKind::Redo { dump }, rest))
}

#[tactic(auto, unfolding(crate::specs::Reading::round_at))]
fn round_of(alloc: Global, bytes: &[u8]) -> Result<(StepKind, &[u8]), CodeFault>
    ensures { Gives (λ x. (x.0, x.1.now)) result (round_at bytes.now) }
{
    let (bot, rest) = match BotName::take(alloc, bytes) {
        Ok(found) => found,
        Err(fault) => return Err(fault),
    };
    Ok((StepKind::Round { bot }, rest))
}

fn fields_len(what: &StepKind) -> u64
    ensures { result ≡ min (length (kind_fields what.now)) last_u64 }
{
    match what {
        StepKind::Start => 0,
        StepKind::Collect {
            bot,
            from: _,
            upto: _,
            piece,
        } => bot
            .code_len()
            .saturating_add(16)
            .saturating_add(piece.code_len()),
        StepKind::FeedEnd { bot, position: _ } => bot.code_len().saturating_add(8),
        StepKind::Take {
            bot,
            instance: _,
            message: _,
        } => bot.code_len().saturating_add(9),
        StepKind::Done {
            bot,
            instance: _,
            message: _,
            bundle: _,
            sends,
            dumps,
            key,
            line: _,
        } => bot
            .code_len()
            .saturating_add(17)
            .saturating_add(sends.code_len())
            .saturating_add(dumps.code_len())
            .saturating_add(key.code_len())
            .saturating_add(1),
        StepKind::Retry {
            bot,
            instance: _,
            message: _,
            bundle: _,
            note,
        } => bot
            .code_len()
            .saturating_add(17)
            .saturating_add(note.code_len()),
        StepKind::Fail {
            bot,
            instance: _,
            message: _,
            bundle: _,
            note,
            queues,
            halts: _,
        } => bot
            .code_len()
            .saturating_add(17)
            .saturating_add(note.code_len())
            .saturating_add(queues.code_len())
            .saturating_add(1),
        StepKind::Reload { bundle } => bundle.code_len(),
        StepKind::Redo { dump: _ } => 8,
        StepKind::Round { bot } => bot.code_len(),
    }
}

fn copy_of_kind(alloc: Global, what: &StepKind) -> Result<StepKind, OutOfMemory>
    ensures { IfOk result (λ copy. copy ≡ what.now) }
{
    match what {
        StepKind::Start => Ok(StepKind::Start),
        StepKind::Collect {
            bot,
            from,
            upto,
            piece,
        } => Ok(StepKind::Collect {
            bot: *bot,
            from: *from,
            upto: *upto,
            piece: piece.copy(alloc)?,
        }),
        StepKind::FeedEnd { bot, position } => Ok(StepKind::FeedEnd {
            bot: *bot,
            position: *position,
        }),
        StepKind::Take {
            bot,
            instance,
            message,
        } => Ok(StepKind::Take {
            bot: *bot,
            instance: *instance,
            message: *message,
        }),
        StepKind::Done {
            bot,
            instance,
            message,
            bundle,
            sends,
            dumps,
            key,
            line,
        } => {
            let (sends, dumps, key) = copy_of_given(alloc, sends, dumps, key)?;
            Ok(StepKind::Done {
                bot: *bot,
                instance: *instance,
                message: *message,
                bundle: *bundle,
                sends,
                dumps,
                key,
                line: *line,
            })
        }
        StepKind::Retry {
            bot,
            instance,
            message,
            bundle,
            note,
        } => Ok(StepKind::Retry {
            bot: *bot,
            instance: *instance,
            message: *message,
            bundle: *bundle,
            note: note.copy(alloc)?,
        }),
        StepKind::Fail {
            bot,
            instance,
            message,
            bundle,
            note,
            queues,
            halts,
        } => Ok(StepKind::Fail {
            bot: *bot,
            instance: *instance,
            message: *message,
            bundle: *bundle,
            note: note.copy(alloc)?,
            queues: queues.copy(alloc)?,
            halts: *halts,
        }),
        StepKind::Reload { bundle } => Ok(StepKind::Reload {
            bundle: bundle.copy(alloc)?,
        }),
        StepKind::Redo { dump } => Ok(StepKind::Redo { dump: *dump }),
        StepKind::Round { bot } => Ok(StepKind::Round { bot: *bot }),
    }
}

// A copy of what a bot made of a message.
fn copy_of_given(
    alloc: Global,
    sends: &SendList,
    dumps: &NoteList,
    key: &Option<Blob>,
) -> Result<(SendList, NoteList, Option<Blob>), OutOfMemory>
    ensures { IfOk result (λ copy. copy ≡ (sends.now, dumps.now, key.now)) }
{
    Ok((sends.copy(alloc)?, dumps.copy(alloc)?, key.copy(alloc)?))
}
